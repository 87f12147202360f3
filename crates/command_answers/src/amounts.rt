// Words with numbers after them.
ghost use Rattle.std.specs.Prelude.{◌≡◌, ◌++◌, OnOk, decimal};
ghost use Rattle.exact_num.specs.Value.{value_of};
ghost use Rattle.mps_writer.specs.MpsText.{line};
ghost use Rattle.scaled_decimals.specs.PrintedFraction.{fraction_text};

use exact_num::Frac;
use itoa::Buffer;
use scaled_decimals::push_frac;
use std::alloc::AllocError;

/// Appends a word and a whole number.
pub fn push_with_number(out: &mut Vec<u8>, word: &[u8], number: u64) -> Result<(), AllocError>
    ensures { OnOk result (out.new.items ≡ out.old.items ++ (word.now ++ decimal number)) }
{
    out.extend_from_slice(word)?;
    out.extend_from_slice(Buffer::new().format(number).as_bytes())
}

/// Appends a line of a word and a count.
pub fn push_count(out: &mut Vec<u8>, word: &[u8], count: u64) -> Result<(), AllocError>
    ensures { OnOk result (out.new.items ≡ out.old.items ++ line (word.now ++ decimal count)) }
{
    push_with_number(out, word, count)?;
    out.extend_from_slice(b"\n")?;
    Ok(())
}

/// Appends a line of a word and an amount.
pub fn push_amount(out: &mut Vec<u8>, word: &[u8], amount: Frac) -> Result<(), AllocError>
    ensures { OnOk result (out.new.items ≡ out.old.items ++ line (word.now ++ fraction_text (value_of amount))) }
{
    out.extend_from_slice(word)?;
    push_frac(out, amount)?;
    out.extend_from_slice(b"\n")
}
