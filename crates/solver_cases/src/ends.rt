//! How small linear programs end, and whether phase 1 is made by the kept rows: `ROWS|COST|PIVOTS`.

ghost use Rattle.written_method.specs.Ready.{IsReady};

use crate::numbers::shown;
use crate::programs::program;
use row_core::Plan;
use simplex_core::{End, Halt, Lambda, kept_pivots, solve};
use std::alloc::{AllocError, Global};
use std::io;
use written_method::Reduced;

/// Prints how the linear program ends within so many pivots, or why it doesn't.
pub fn print_end(rt: &HostRuntime, line: &str) -> io::Result<()> {
    let mut fields = line.split('|');
    let rows = fields.next().unwrap_or("");
    let cost = fields.next().unwrap_or("");
    let pivots = fields.next().unwrap_or("").parse::<u64>().unwrap_or(0);
    let Ok(reduced) = program(rt.alloc(), rows, cost) else {
        println!(rt; "no program")?;
        return Ok(());
    };
    match solve(rt.alloc(), &reduced, pivots) {
        Ok(end) => {
            let text = printed(rt.alloc(), &end)?;
            println!(rt; "{text}")?;
            print_kept(rt, &reduced, &end, pivots)
        }
        Err(halt) => {
            println!(rt; "{}", word_of(&halt))?;
            Ok(())
        }
    }
}

/// Why there is no end.
fn word_of(halt: &Halt) -> &'static str {
    match halt {
        Halt::Budget => "Budget",
        Halt::Width(_) => "Width",
        Halt::Memory => "Memory",
    }
}

/// Prints whether the kept rows make phase 1 where there is one, and if that is all of the method, by how many pivots.
fn print_kept(rt: &HostRuntime, reduced: &Reduced, end: &End, pivots: u64) -> io::Result<()>
    requires { IsReady reduced.now }
{
    match (kept_pivots(rt.alloc(), reduced, pivots), end) {
        (None, _) => println!(rt; "  phase 1 isn't made by kept rows")?,
        (Some(kept), End::Infeasible { .. }) => println!(rt;
            "  phase 1 is made by kept rows in {kept}"
        )?,
        (Some(_), _) => println!(rt; "  phase 1 is made by kept rows")?,
    }
    Ok(())
}

/// Appends the values of a plan or a direction.
fn push_values(alloc: Global, out: &mut String, values: &Plan) -> Result<(), AllocError> {
    for (_, value) in values.entries() {
        out.push(' ')?;
        out.push_str(&shown(alloc, *value)?)?;
    }
    Ok(())
}

/// Appends multipliers.
fn push_multipliers(alloc: Global, out: &mut String, lambda: &Lambda) -> Result<(), AllocError> {
    for value in lambda.entries() {
        out.push(' ')?;
        out.push_str(&shown(alloc, *value)?)?;
    }
    Ok(())
}

/// An end as text: its kind, its lists of numbers, and its number of pivots.
fn printed(alloc: Global, end: &End) -> Result<String, AllocError> {
    let mut out = String::new(alloc);
    let made = match end {
        End::Optimal {
            values,
            lambda,
            pivots,
        } => {
            out.push_str("optimal")?;
            push_values(alloc, &mut out, values)?;
            out.push_str(" |")?;
            push_multipliers(alloc, &mut out, lambda)?;
            *pivots
        }
        End::Infeasible { lambda, pivots } => {
            out.push_str("infeasible")?;
            push_multipliers(alloc, &mut out, lambda)?;
            *pivots
        }
        End::Unbounded {
            values,
            direction,
            pivots,
        } => {
            out.push_str("unbounded")?;
            push_values(alloc, &mut out, values)?;
            out.push_str(" |")?;
            push_values(alloc, &mut out, direction)?;
            *pivots
        }
    };
    out.push_str(format!(in alloc; " | {made}")?.as_str())?;
    Ok(out)
}
