//! The row of the cost, without the defined variables.

ghost use Rattle.std.specs.Prelude.{◌≡◌, ◌∷◌, [], true, IsTrue, IfOk, IfErr, OnOk, List};
ghost use Rattle.exact_num.specs.Range.{all_fit};
ghost use Rattle.row_core.specs.declared.Row.{Row};
ghost use Rattle.row_core.specs.declared.kind_numbers.TheConstants.{TOTAL_DISCOUNTED_COST};
ghost use Rattle.row_core.specs.declared.place.Place.TheVariants.{CostRow};
ghost use Rattle.row_core.specs.declared.place.Stopped.TheVariants.{Memory};
ghost use Rattle.row_core.specs.Forms.{form_of};
ghost use Rattle.row_core.specs.Numbers.{ascends};
ghost use Rattle.row_core.specs.Order.{var_cmp};
ghost use Rattle.row_core.specs.Stops.{IsStop};
ghost use Rattle.written_method.specs.Eliminated.{unscaled, placed, with_cost_variable, cost_variables, cost_form, cost_row};
ghost use Rattle.written_method.specs.Expanded.{expanded_formed};
ghost use Rattle.variable_elimination.specs.CostRows.{AllAreCosts, IsCostRow};
ghost use Rattle.variable_elimination.specs.Kept.{forms_in, AreDefinitions, AreReduced};

use crate::expanding::{Definitions, expand};
use row_core::kind_numbers::TOTAL_DISCOUNTED_COST;
use row_core::{Index, Place, Row, RowName, Sense, Stopped, Var};
use std::alloc::Global;

/// The subscripts of what has none.
const NO_INDEX: Index = Index {
    region: 0,
    other: 0,
    slice: 0,
    tech: 0,
    fuel: 0,
    emission: 0,
    mode: 0,
    year: 0,
};

/// The variable that stands for the cost; there is no kind 0.
pub(crate) const COST_VARIABLE: Var = Var {
    kind: 0,
    index: NO_INDEX,
};

/// The row that says that the cost is the sum of all TotalDiscountedCost, without the defined variables. `Width` comes
/// exactly where a number that is formed doesn't fit; any other refusal means that memory ran out.
pub(crate) fn cost_row(
    alloc: Global,
    defs: &[Option<Var>],
    definitions: &Definitions,
) -> Result<Row, Stopped>
    requires { AreDefinitions definitions.now }
    ensures form { IfOk result (λ row. form_of row ≡ cost_row (forms_in definitions.now) defs.now) }
    ensures reduced { (named : List Row) → AreReduced named definitions.now → IfOk result (IsCostRow named defs.now) }
    ensures fits { OnOk result (all_fit (expanded_formed (forms_in definitions.now) (unscaled (cost_form defs.now))) ≡ true) }
    ensures stopped { IfErr result (IsStop CostRow (all_fit (expanded_formed (forms_in definitions.now) (unscaled (cost_form defs.now))))) }
{
    let first = cost_start(alloc, defs)?;
    let (made, _) = expand(alloc, Place::CostRow, &first, None, definitions)?;
    Ok(made)
}

/// The row of the cost as it is at first: the cost less all TotalDiscountedCost is 0.
fn cost_start(alloc: Global, defs: &[Option<Var>]) -> Result<Row, Stopped>
    ensures form { IfOk result (λ row. form_of row ≡ cost_form defs.now) }
    ensures memory { IfErr result (λ e. e ≡ Memory) }
{
    let variables = cost_variables(alloc, defs)?;
    let mut entries = Vec::new(alloc);
    entries.push((COST_VARIABLE, 1))?;
    for variable in &variables {
        entries.push((*variable, -1))?;
    }
    Ok(Row {
        name: RowName {
            eq: 0,
            index: NO_INDEX,
        },
        sense: Sense::Equal,
        entries,
        rhs: 0,
    })
}

/// The TotalDiscountedCost that are defined, in ascending order.
fn cost_variables(alloc: Global, defs: &[Option<Var>]) -> Result<Vec<Var>, Stopped>
    ensures made { IfOk result (λ variables. variables.items ≡ cost_variables [] defs.now) }
    ensures ascending { IfOk result (λ variables. ascends var_cmp variables.items ≡ true) }
    ensures costs { IfOk result (λ variables. AllAreCosts variables.items) }
    ensures memory { IfErr result (λ e. e ≡ Memory) }
{
    let mut variables = Vec::new(alloc);
    for def in defs {
        add_cost_variable(&mut variables, *def)?;
    }
    Ok(variables)
}

/// Puts a defined variable at its place, if the cost is a sum of such variables.
fn add_cost_variable(variables: &mut Vec<Var>, defined: Option<Var>) -> Result<(), Stopped>
    requires ascending { IsTrue (ascends var_cmp variables.old.items) }
    requires costs { AllAreCosts variables.old.items }
    ensures made { OnOk result (variables.new.items ≡ with_cost_variable variables.old.items defined) }
    ensures ascending { OnOk result (ascends var_cmp variables.new.items ≡ true) }
    ensures costs { OnOk result (AllAreCosts variables.new.items) }
    ensures memory { IfErr result (λ e. e ≡ Memory) }
{
    let Some(variable) = defined else {
        return Ok(());
    };
    if variable.kind != TOTAL_DISCOUNTED_COST {
        return Ok(());
    }
    place(variables, variable)
}

/// Puts a variable at its place among ascending ones, unless it is there.
fn place(variables: &mut Vec<Var>, variable: Var) -> Result<(), Stopped>
    requires { IsTrue (ascends var_cmp variables.old.items) }
    ensures made { OnOk result (variables.new.items ≡ placed variable variables.old.items) }
    ensures memory { IfErr result (λ e. e ≡ Memory) }
{
    match variables.binary_search(&variable) {
        Ok(_) => Ok(()),
        Err(at) => {
            variables.insert(at, variable)?;
            Ok(())
        }
    }
}
