//! The text of columns without entries over small sets. Texts with rows are in the tests of the program.

use model_sets::Sets;
use model_sets::set_numbers::{DAILYTIMEBRACKET, REGION, TECHNOLOGY, YEAR};
use mps_writer::mps_text;
use row_core::kind_numbers::{
    NEW_CAPACITY, TOTAL_DISCOUNTED_COST, TOTAL_DISCOUNTED_COST_BY_TECHNOLOGY,
};
use row_core::{Index, Var};
use std::test::Fail;

#[test]
fn columns_without_entries_have_their_lines(rt: HostRuntime) -> Result<(), Fail> {
    let alloc = rt.alloc();
    let mut sets = Sets::new(alloc)?;
    let members: [(u8, &[u8]); 3] = [(REGION, b"R"), (TECHNOLOGY, b"T"), (YEAR, b"2020")];
    for (set, name) in members {
        assert!(&rt; REGION <= set && set <= DAILYTIMEBRACKET);
        assert!(&rt; sets.add(set, name).is_ok());
    }
    assert!(&rt; sets.count(REGION) == 1 && sets.count(TECHNOLOGY) == 1 && sets.count(YEAR) == 1);
    let index = Index {
        region: 0,
        other: 0,
        slice: 0,
        tech: 0,
        fuel: 0,
        emission: 0,
        mode: 0,
        year: 0,
    };
    let vars = [
        Var {
            kind: NEW_CAPACITY,
            index,
        },
        Var {
            kind: TOTAL_DISCOUNTED_COST_BY_TECHNOLOGY,
            index,
        },
        Var {
            kind: TOTAL_DISCOUNTED_COST,
            index,
        },
    ];
    let text = mps_text(alloc, &[], &vars, &sets)?;
    assert_eq!(&rt;
        text.as_slice(),
        b"NAME OSEMOSYS\nROWS\n N COST\nCOLUMNS\n* NewCapacity[R,T,2020]\n\
          * TotalDiscountedCostByTechnology[R,T,2020]\n* TotalDiscountedCost[R,2020]\n C3 COST 1\n\
          RHS\nBOUNDS\n FR BND C2\n FR BND C3\nENDATA\n"
            .as_slice()
    );
    Ok(())
}
