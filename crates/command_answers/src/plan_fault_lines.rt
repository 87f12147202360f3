// The lines that say why a file of a plan, of multipliers, or of a proof is refused.
ghost use Rattle.std.specs.Prelude.{◌≡◌, ◌++◌, IfOk, OnOk};
ghost use Rattle.command_answers.specs.PlacesWithin.{FaultIsWithin};
ghost use Rattle.command_answers.specs.PlanFaultLines.{fault_text, multiplier_fault_line, plan_fault_line, proof_fault_line, record_fault_text};

use crate::amounts::push_with_number;
use crate::places::push_with_var;
use model_sets::Sets;
use plan_files::PlanFault;
use std::alloc::{AllocError, Global};

/// The line for a rule that a plan's file breaks: `refused plan record N FAULT` or `refused plan Missing VAR`.
pub fn plan_fault_line(alloc: Global, fault: PlanFault, sets: &Sets) -> Result<Vec<u8>, AllocError>
    requires { FaultIsWithin sets.now fault }
    ensures { IfOk result (λ text. text.items ≡ plan_fault_line sets.now fault) }
{
    let mut text = Vec::from_slice(alloc, b"refused plan ")?;
    push_fault(&mut text, fault, sets)?;
    text.extend_from_slice(b"\n")?;
    Ok(text)
}

/// The line for a rule that a file of multipliers breaks: `refused multipliers record N FAULT`.
pub fn multiplier_fault_line(
    alloc: Global,
    fault: PlanFault,
    sets: &Sets,
) -> Result<Vec<u8>, AllocError>
    requires { FaultIsWithin sets.now fault }
    ensures { IfOk result (λ text. text.items ≡ multiplier_fault_line sets.now fault) }
{
    let mut text = Vec::from_slice(alloc, b"refused multipliers ")?;
    push_fault(&mut text, fault, sets)?;
    text.extend_from_slice(b"\n")?;
    Ok(text)
}

/// The line for a rule that the file of a proof breaks: `refused proof record N FAULT` or `refused proof Missing VAR`.
pub fn proof_fault_line(alloc: Global, fault: PlanFault, sets: &Sets) -> Result<Vec<u8>, AllocError>
    requires { FaultIsWithin sets.now fault }
    ensures { IfOk result (λ text. text.items ≡ proof_fault_line sets.now fault) }
{
    let mut text = Vec::from_slice(alloc, b"refused proof ")?;
    push_fault(&mut text, fault, sets)?;
    text.extend_from_slice(b"\n")?;
    Ok(text)
}

// Appends the rule that a file breaks, with the record or the variable.
fn push_fault(out: &mut Vec<u8>, fault: PlanFault, sets: &Sets) -> Result<(), AllocError>
    requires { FaultIsWithin sets.now fault }
    ensures { OnOk result (out.new.items ≡ out.old.items ++ fault_text sets.now fault) }
{
    match fault {
        PlanFault::BadRecord(number) => push_record_fault(out, number, b"BadRecord"),
        PlanFault::UnknownVar(number) => push_record_fault(out, number, b"UnknownVar"),
        PlanFault::Twice(number) => push_record_fault(out, number, b"Twice"),
        PlanFault::BadValue(number) => push_record_fault(out, number, b"BadValue"),
        PlanFault::Missing(var) => push_with_var(out, b"Missing ", var, sets),
    }
}

// Appends the rule that a record breaks.
fn push_record_fault(out: &mut Vec<u8>, number: u64, fault: &[u8]) -> Result<(), AllocError>
    ensures { OnOk result (out.new.items ≡ out.old.items ++ record_fault_text number fault.now) }
{
    push_with_number(out, b"record ", number)?;
    out.extend_from_slice(b" ")?;
    out.extend_from_slice(fault)
}
