//! Data files of any size, made of a number: one small energy system over more and more years.
#![tactic(auto)]

mod lines;
mod table;

ghost use Rattle.std.specs.Prelude.{◌≡◌, ◌≤◌, ◌++◌, length, IfOk, OnOk};
ghost use Rattle.std.specs.List.{flat_map};
ghost use Rattle.model_maker.specs.MadeModel.{parameters};
ghost use Rattle.model_maker.specs.MadeText.{made_text, parameter_text, sets_text};
ghost use Rattle.model_maker.specs.Tables.{parameters_told};

use crate::lines::{push_parameter, push_year_set};
use crate::table::{PARAMETERS, Parameter};
use std::alloc::{AllocError, Global};

/// The data file that is made of this number, which is from 3 to 122: a small energy system over the
/// `n - 2` years from 2020 on, in the data format of GNU MathProg. A mine and an import feed power plants
/// of coal and gas and a boiler, with wind beside them; there is a demand for electricity, which grows
/// by 4 a year, one for heat, and a penalty on emissions. It has at most 100,000 bytes. Refuses only where memory runs out.
pub fn make(alloc: Global, n: u32) -> Result<Vec<u8>, AllocError>
    requires least { 3 ≤ n }
    requires most { n ≤ 122 }
    ensures text { IfOk result (λ text. text.items ≡ made_text n) }
    ensures short { IfOk result (λ text. length text.items ≤ 100000) }
{
    let years = n - 2;
    let mut text = Vec::from_slice(alloc, b"data;\n")?;
    push_sets(&mut text, years)?;
    push_parameters(&mut text, years, &PARAMETERS)?;
    text.extend_from_slice(b"end;\n")?;
    Ok(text)
}

// The sets, with so many years.
fn push_sets(out: &mut Vec<u8>, years: u32) -> Result<(), AllocError>
    requires { years ≤ 120 }
    ensures { OnOk result (out.new.items ≡ out.old.items ++ sets_text years) }
{
    out.extend_from_slice(
        b"set REGION := R1 ;\n\
        set TECHNOLOGY := MINE IMPORT PPCOAL PPGAS WIND BOILER ;\n\
        set FUEL := COAL GAS ELC HEAT ;\n\
        set EMISSION := CO2 ;\n\
        set MODE_OF_OPERATION := 1 ;\n\
        set TIMESLICE := S1 S2 S3 S4 ;\n",
    )?;
    push_year_set(out, years)?;
    out.extend_from_slice(
        b"set STORAGE := ;\n\
        set SEASON := ;\n\
        set DAYTYPE := ;\n\
        set DAILYTIMEBRACKET := ;\n",
    )?;
    Ok(())
}

// The parameters of the table, with their records of so many years.
fn push_parameters(out: &mut Vec<u8>, years: u32, table: &[Parameter]) -> Result<(), AllocError>
    requires few { years ≤ 120 }
    requires tabled { parameters_told table.now ≡ parameters }
    ensures { OnOk result (out.new.items ≡ out.old.items ++ flat_map (parameter_text years) parameters) }
{
    for parameter in table {
        push_parameter(out, years, parameter)?;
    }
    Ok(())
}
