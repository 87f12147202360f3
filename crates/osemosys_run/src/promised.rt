// What the prices of `table` promise.
ghost use Rattle.std.specs.Prelude.{◌≡◌, Bool, List, ℕ, Some};
ghost use Rattle.model_sets.specs.Data.{Data};
ghost use Rattle.check_command.specs.CheckProof.{DueForProofFile};
ghost use Rattle.command_answers.specs.declared.status.Status.TheVariants.{Done};
ghost use Rattle.price_tables.specs.declared.shown.PriceTable.{PriceTable};
ghost use Rattle.price_tables.specs.PricedRows.{price_table_named};
ghost use Rattle.table_command.specs.Tables.{DueForTable, form_of};
ghost use Rattle.osemosys_run.specs.Promised.{IsPromisedTable};

use certificate_checker::denominator_laws;
use plan_quantities::laws::{
    data_price_laws, percent_laws, shown_row_laws, spoken_row_laws, table_laws,
};
use proof_files::proof_telling_laws;

/// Where `table` writes what limits or fuels cost, its multipliers are those that the proof's file tells, each of its prices is
/// promised by them, of the variable that is alone on a side of its equation, over the equations and over the data, and what
/// one per cent more saves is promised; and no limit or balance of a fuel whose multiplier isn't 0 is left out.
pub fn promised_laws()
    ensures table_prices { (places gap : ℕ) (bytes name : List ℕ) (exact : Bool) (d : Data) (table : PriceTable) (text : List ℕ)
        → price_table_named name ≡ Some table
        → DueForTable places (λ rows. DueForProofFile places d rows bytes gap) bytes name (form_of exact) d Done text
        → IsPromisedTable places d bytes table (form_of exact) text }
{
    denominator_laws();
    proof_telling_laws();
    table_laws();
    shown_row_laws();
    spoken_row_laws();
    data_price_laws();
    percent_laws();
}
