//! Made data files: each has the length of the file that another program makes of the same number.
ghost use Rattle.std.specs.Prelude.{◌≤◌};

use model_maker::make;
use std::process::Abort;
use std::test::Fail;

fn assert_length(rt: &(impl Abort + AllocGlobal), n: u32, length: usize) -> Result<(), Fail>
    requires least { 3 ≤ n }
    requires most { n ≤ 122 }
{
    let text = make(rt.alloc(), n)?;
    assert_eq!(rt; text.len(), length, "made {n}");
    assert!(rt;
        text.starts_with(b"data;\nset REGION := R1 ;\n"),
        "made {n}"
    );
    assert!(rt; text.ends_with(b"end;\n"), "made {n}");
    Ok(())
}

#[test]
fn made_files_have_their_lengths(rt: HostRuntime) -> Result<(), Fail> {
    assert_length(&rt, 3, 2715)?;
    assert_length(&rt, 7, 5799)?;
    assert_length(&rt, 38, 29721)?;
    assert_length(&rt, 122, 94569)?;
    Ok(())
}
