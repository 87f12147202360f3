//! The row that says that a plan costs at most a limit.

ghost use Rattle.std.specs.Prelude.{◌≡◌, true, IfErr, IfOk, OnOk, if◌then◌else◌};
ghost use Rattle.row_problem.specs.Prelude.{all_fit, value_of, IsStop, Place, span_name};
ghost use Rattle.row_core.specs.Terms.{gathered, gathered_formed, term_formed, with_term};
ghost use Rattle.span_finder.specs.LimitRows.{IsLimitRow, cost_term, cost_terms, is_cost, limit_formed};

use exact_num::Frac;
use row_core::kind_numbers::TOTAL_DISCOUNTED_COST;
use row_core::{Place, Row, SPAN_NAME, Sense, Stopped, Term, Terms, Var, fraction, write_row};
use std::alloc::Global;

/// The row that says that the sum of all TotalDiscountedCost is at most the limit. `Width` comes exactly where a number that is
/// formed doesn't fit; any other refusal means that memory ran out.
pub(crate) fn limit_row(alloc: Global, vars: &[Var], limit: Frac) -> Result<Row, Stopped>
    ensures row { IfOk result (IsLimitRow vars.now (value_of limit)) }
    ensures fits { OnOk result (all_fit (limit_formed vars.now (value_of limit)) ≡ true) }
    ensures stopped { IfErr result (IsStop (Place.Row span_name) (all_fit (limit_formed vars.now (value_of limit)))) }
{
    let terms = terms_of(alloc, vars)?;
    write_row(alloc, SPAN_NAME, Sense::Most, &terms, limit)
}

/// Each TotalDiscountedCost, once.
fn terms_of(alloc: Global, vars: &[Var]) -> Result<Terms, Stopped>
    ensures terms { IfOk result (λ terms. terms ≡ gathered (cost_terms vars.now)) }
    ensures fits { OnOk result (all_fit (gathered_formed (cost_terms vars.now)) ≡ true) }
    ensures stopped { IfErr result (IsStop (Place.Row span_name) (all_fit (gathered_formed (cost_terms vars.now)))) }
{
    let mut terms = Terms::new(alloc);
    for var in vars {
        push_cost(&mut terms, *var)?;
    }
    Ok(terms)
}

/// Adds a variable once, where the cost is a sum of such variables.
fn push_cost(terms: &mut Terms, var: Var) -> Result<(), Stopped>
    ensures added { OnOk result (terms.new ≡ (if is_cost var then with_term (cost_term var) terms.old else terms.old)) }
    ensures fits { OnOk result (is_cost var ≡ true → all_fit (term_formed (cost_term var) terms.old) ≡ true) }
    ensures stopped { IfErr result (λ e. (is_cost var ≡ true) × IsStop (Place.Row span_name) (all_fit (term_formed (cost_term var) terms.old)) e) }
{
    if var.kind != TOTAL_DISCOUNTED_COST {
        return Ok(());
    }
    terms.add(
        Place::Row(SPAN_NAME),
        Term {
            variable: var,
            coefficient: fraction(1),
        },
    )
}
