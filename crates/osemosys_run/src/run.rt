// The top call: words, reading, accepting, answering, sending.
ghost use Rattle.std.specs.Prelude.{◌≡◌, ◌≤◌, ◌⊎◌, ◌*ℤ◌, ◌∷◌, [], Bool, List, ℕ, ℤ, Ok, Some, true, Contains, IfOk, map};
ghost use Rattle.std.specs.String.{string_bytes};
ghost use Rattle.io_edges.specs.Count.{Rose};
ghost use Rattle.io_edges.specs.Told.{WhereTold};
ghost use Rattle.mathprog_data.specs.Meaning.{Blocks};
ghost use Rattle.mathprog_data.specs.Verdicts.{FaultAt, Says};
ghost use Rattle.mathprog_data.specs.declared.blocks.Mark.{Mark};
ghost use Rattle.model_sets.specs.Data.{Data};
ghost use Rattle.param_tables.specs.Built.{AreComplete};
ghost use Rattle.param_tables.specs.Changes.{Change, with_change};
ghost use Rattle.plan_files.specs.Files.{Fields, records_of};
ghost use Rattle.data_changes.specs.Columns.{is_header};
ghost use Rattle.data_changes.specs.Scenarios.{AreApart, IsIdle};
ghost use Rattle.mps_meaning.specs.Programs.{Program};
ghost use Rattle.mps_meaning.specs.Reading.{program_of};
ghost use Rattle.mps_plans.specs.PlanPrograms.{IsProgramOf};
ghost use Rattle.exact_num.specs.Rational.{Rational};
ghost use Rattle.named_equations.specs.Instances.{instances};
ghost use Rattle.named_equations.specs.Notation.{scale_of, sum_over};
ghost use Rattle.named_equations.specs.Plans.{Feasible, cost};
ghost use Rattle.named_equations.specs.Positions.{all_years, regions};
ghost use Rattle.plan_quantities.specs.CostSums.{cost_of_year, three_factors};
ghost use Rattle.plan_quantities.specs.Quantities.{AreQuantities};
ghost use Rattle.price_tables.specs.declared.shown.PriceTable.{PriceTable};
ghost use Rattle.price_tables.specs.PricedRows.{price_table_named};
ghost use Rattle.row_book.specs.Books.{AreRowsOf};
ghost use Rattle.row_core.specs.declared.Row.{Row};
ghost use Rattle.row_core.specs.declared.RowName.{RowName};
ghost use Rattle.row_core.specs.declared.Var.{Var};
ghost use Rattle.command_answers.specs.declared.status.ReadStop.{ReadStop};
ghost use Rattle.command_answers.specs.declared.status.Status.{Status};
ghost use Rattle.command_answers.specs.Accepted.{Accepted, Source, plain};
ghost use Rattle.command_answers.specs.NotAccepted.{DueWhereNotAccepted};
ghost use Rattle.command_answers.specs.SolvedPlans.{IsNearOptimum};
ghost use Rattle.check_command.specs.Check.{DueForCheck};
ghost use Rattle.check_command.specs.CheckProof.{DueForProof, DueForProofFile};
ghost use Rattle.command_words.specs.Commands.{question_of, request_of};
ghost use Rattle.command_words.specs.Ranges.{IsInRange};
ghost use Rattle.command_words.specs.WordParts.{HasSpelledParts, Part};
ghost use Rattle.command_words.specs.Words.{asked};
ghost use Rattle.compare_command.specs.Compared.{Written};
ghost use Rattle.command_words.specs.declared.command.SolveMethod.{SolveMethod};
ghost use Rattle.command_words.specs.declared.command.SolveShow.{SolveShow};
ghost use Rattle.data_warnings.specs.Lines.{line};
ghost use Rattle.data_warnings.specs.NoPlan.{EndsIn, excludes_plans, no_plan_ending};
ghost use Rattle.data_warnings.specs.declared.places.Finding.{Finding};
ghost use Rattle.solve_command.specs.Promises.{ArePromised};
ghost use Rattle.page_command.specs.Pages.{DueForPage, ShowsPage};
ghost use Rattle.result_pages.specs.Pages.{Title};
ghost use Rattle.table_command.specs.declared.shown.Shown.{Shown};
ghost use Rattle.table_command.specs.ShownTables.{shown_named};
ghost use Rattle.table_command.specs.Tables.{DueForTable, ShowsProof, form_of};
ghost use Rattle.request_files.specs.Reading.{IsSameShelf};
ghost use Rattle.request_files.specs.Sights.{seen};
ghost use Rattle.osemosys_run.specs.Accepting.{AcceptsEnd, ProvesEnd};
ghost use Rattle.osemosys_run.specs.Compared.{DueForCompared, IsPromisedDifference};
ghost use Rattle.osemosys_run.specs.Complete.{Completes};
ghost use Rattle.osemosys_run.specs.Due.{AskForEquations, Due};
ghost use Rattle.osemosys_run.specs.Mps.{WritesEquations};
ghost use Rattle.osemosys_run.specs.Promised.{IsPromisedTable};
ghost use Rattle.osemosys_run.specs.ShownEnds.{ShowsWritten, WritesOptimum};
ghost use Rattle.osemosys_run.specs.Warned.{IsWarned, findings_over};
ghost use Rattle.osemosys_run.specs.Causes.{Caused, IsReplyFor};
ghost use Rattle.osemosys_run.specs.ReadToEnd.{IsReadToEnd, ReadsWhole};
ghost use Rattle.osemosys_run.specs.Runs.{IsRun};
ghost use Rattle.osemosys_run.specs.Sending.{Delivers, sent};

use crate::accepting::accepting_laws;
use crate::answering::answer;
use crate::compare_laws::difference_laws;
use crate::completing::completing_laws;
use crate::delivering::deliver;
use crate::files::{files_of, refuse_file};
use crate::mps_program::mps_laws;
use crate::promised::promised_laws;
use crate::reply::Reply;
use crate::scenarios::scenario_laws;
use crate::shown_ends::shown_laws;
use crate::shown_proofs::{page_laws, written_laws};
use crate::warned::warned_laws;
use call_stages::{Stage, Unwatched, Watcher};
use command_answers::{Status, acceptance_laws, refuse_words};
use command_words::{Request, read_command, spelled_parts};
use io_edges::{Shelf, Sink};
use mathprog_data::verdict_laws;
use plan_quantities::laws::quantity_laws;
use request_files::read_files;
use solve_command::promise_laws;
use std::alloc::{AllocError, Global};

/// Runs the program on the words after its name: reads the files that they name from the shelf, and
/// writes the text that is due into the sink.
///
/// `mps FILE [--places P]` writes the named equations of a data file of GNU MathProg as free MPS, with
/// written factors of 6 or 9 decimal places.
///
/// `check FILE PLAN [MULTIPLIERS] [--gap PPM] [--places P]` says whether the plan of PLAN meets every named equation of FILE
/// with right signs, and what it costs; with MULTIPLIERS also whether these prove a bound on what every such plan costs, and
/// whether the cost is at most PPM millionths of the bound above it. Status 0 where all this holds, and `Rejected` with the
/// first condition that doesn't.
///
/// `check FILE --proof PROOF [--gap PPM] [--places P]` says the same of the one file that holds a plan and multipliers; of one with
/// multipliers alone, whether they show that no plan meets the named equations; and of one with a plan and a direction, whether the plan
/// does and its cost falls along the direction without end.
///
/// `solve FILE [--gap PPM] [--pivots N] [--places P] [--show report|plan|multipliers|proof|line]` finds a plan of FILE that meets every named
/// equation with right signs, and a bound that no such plan undercuts, which is its cost; or shows that there is no such plan
/// (`Infeasible`), or that there are plans of any lower cost (`Unbounded`). It makes N pivots at most, 20,000 where the option is
/// left out, and writes a report with prices of fuels, the plan, the multipliers that prove the bound, or in one file
/// what `check --proof` accepts; or in one line the status, the cost, the bound, how far they are apart, and the pivots.
///
/// `solve FILE --method rounded --start ANSWER ..` does the same by guesses that begin from the values of ANSWER: another solver's answer to the
/// text of `mps`, or the plan of a similar model. They only tell where the search begins, so whatever they are, what is written is proved.
///
/// `curve FILE REGION EMISSION LIMITS [--gap PPM] [--pivots N] [--places P] [--method exact|rounded]` says for each of these limits on the
/// emissions of the model period what the least cost is, and by how much at least it grows with each unit that the limit is lower.
///
/// `span FILE REGION TECHNOLOGY YEAR [--slack PPM] [--gap PPM] [--pivots N] [--places P] [--method exact|rounded]` says how little and how
/// much of the technology is built in the region and the year by plans whose cost is at most PPM millionths above the least, with such
/// plans, or that there is no most.
///
/// `table FILE PROOF NAME [--exact] [--gap PPM] [--places P]` writes a table of the plan of an optimum whose proof `check` accepts, as
/// CSV: the values that aren't 0, of one kind of variables or of all. Of any other proof that it accepts the line of `check` is written, with status 1 or 2.
///
/// `page FILE PROOF [--gap PPM] [--places P]` writes a page of HTML of what a proof shows that `check` accepts: of an optimum its plan, what it
/// costs and which limits cost most; else that there is no plan, with status 1, or along what the cost falls without end, with status 2.
///
/// `compare FILE PROOF FILE2 PROOF2 [--gap PPM] [--places P] [--show text|page]` writes how the plans of two optima differ whose proofs `check` accepts, each
/// over its own data: what they cost, between which numbers the least costs differ, and which members and values of one the other doesn't have.
/// Where `check` doesn't accept one of the proofs, it is written what `check` says of it; and of two that it accepts, of which one shows no
/// optimum, what it says of both, with status 1 or 2.
///
/// `reduce FILE [--places P]` writes the smaller linear program that guesses solve, in floating point as free MPS, for other solvers. Nothing
/// is said of it but that it is written.
///
/// `warn FILE` says what in the data is legal and probably wrong, a line for each finding, and how many there are. A line that ends in
/// `no plan` says that no plan exists. Of what the file says and the equations don't use, it tells the technologies that storages are linked with.
///
/// `make N [--show file|summary]` reads no file. It writes a data file that is made of the number N, from 3 to 122; or how large
/// its model is, and what `solve` with its default options comes to on it.
///
/// Where the words, a file or what it says is refused, a number leaves 128 bits, a pivot is due after the last that may be made,
/// the rows have too many entries, or the linear program is too large, one line says why. Memory may run out anywhere; then nothing is written,
/// or, of the equations of `mps`, which are written as they are made, a prefix of their text.
pub fn osemosys<S: Shelf, K: Sink>(
    alloc: Global,
    words: &[String],
    shelf: &mut S,
    out: &mut K,
) -> Status
    // Over a shelf that tells its files and had no fault, status and text are those that are due for
    // the words and the files.
    ensures due { WhereTold (S.files shelf.old) (λ files. ¬ Rose (S.faults shelf.old) (S.faults shelf.new)
        → Delivers (AskForEquations (map string_bytes words.now)) (Due (map string_bytes words.now) files) result (sent K.Sink out.old) (sent K.Sink out.new)) }

    // Over any shelf and any sink, so also over the disk: each file that is asked for was read to its end, and status and the text that
    // was taken are those that are due for the bytes that were moved; or the reading stopped, and they say where.
    ensures caused { Delivers (AskForEquations (map string_bytes words.now)) (Caused (map string_bytes words.now) (seen S.Shelf shelf.old) (seen S.Shelf shelf.new))
        result (sent K.Sink out.old) (sent K.Sink out.new) }

    // Files that are there, aren't too long and met no fault were read to their ends, unless memory ran out.
    ensures read_whole { WhereTold (S.files shelf.old) (λ files. ¬ Rose (S.faults shelf.old) (S.faults shelf.new)
        → ReadsWhole (map string_bytes words.now) files result (seen S.Shelf shelf.old) (seen S.Shelf shelf.new)) }

    // A data file that isn't refused, and whose rows can be made, is written out; and a feasible plan with multipliers that
    // prove their bound and keep the gap is accepted, where the files are in form and every number that is formed for the
    // conditions fits; a model that nothing stops is solved or explained, its curve is told whole, and its span is found; and
    // a table and a page of a proof that can be accepted are written, and how the plans of two such proofs differ;
    // unless memory runs out, and over a shelf and a sink without a fault.
    ensures complete { WhereTold (S.files shelf.old) (λ files. ¬ Rose (S.faults shelf.old) (S.faults shelf.new) → ¬ Rose (K.faults out.old) (K.faults out.new)
        → Completes (map string_bytes words.now) files result) }

    // Each file that is asked for was read to its end before any answer on what a file says, over any shelf.
    ensures read_to_end { IsReadToEnd (map string_bytes words.now) (seen S.Shelf shelf.old) (seen S.Shelf shelf.new) result }

    // What a text says is one thing, or it has one fault, and never both.
    ensures one_reading { (text : List ℕ) (blocks others : Blocks) → Says text blocks → Says text others → blocks ≡ others }
    ensures one_fault { (text : List ℕ) (number other : ℕ) (at place : Mark) → FaultAt text number at → FaultAt text other place →
        (number ≡ other) × (at ≡ place) }
    ensures not_both { (text : List ℕ) (blocks : Blocks) (number : ℕ) (at : Mark) → Says text blocks → FaultAt text number at → ⊥ }
    ensures reading_or_fault { (text : List ℕ) → ((blocks : Blocks) × Says text blocks) ⊎ ((number : ℕ) × (at : Mark) × FaultAt text number at) }

    // A data file with its changes has the data of one model, or one line that refuses it, and never both. The data are complete: their sets are by the rules,
    // and each used parameter has a value in its range at each of its indices.
    ensures one_data { (source : Source) (d e : Data) → Accepted source d → Accepted source e → d ≡ e }
    ensures complete_data { (source : Source) (d : Data) → Accepted source d → AreComplete d }
    ensures one_line { (source : Source) (status other : Status) (line another : List ℕ) →
        DueWhereNotAccepted source status line → DueWhereNotAccepted source other another → line ≡ another }
    ensures not_accepted { (source : Source) (d : Data) (status : Status) (line : List ℕ) → Accepted source d → DueWhereNotAccepted source status line → ⊥ }

    // A file of changes that has its header alone changes nothing, nor does a change that multiplies by 1 or adds 0; and changes that name no index in
    // common may be made in either order.
    ensures header_alone { (text changes : List ℕ) (header : Fields) (d : Data) → records_of changes ≡ header ∷ [] → is_header header ≡ true
        → Accepted (plain text) d → Accepted (record { text = text; changes = Some changes }) d }
    ensures idle { (source : Source) (d : Data) (change : Change) → Accepted source d → IsIdle change → with_change d change ≡ d }
    ensures either_order { (d : Data) (a b : Change) → AreApart d a b → with_change (with_change d a) b ≡ with_change (with_change d b) a }

    // The text that `mps` writes of accepted data is a linear program of the plans: it reads, as free MPS, as one whose columns are the
    // variables that exist and whose rows say what the equations say, which the values of a plan meet exactly where the plan is
    // feasible, and which costs what the plan costs.
    ensures mps_means { (places : ℕ) (source : Source) (text : List ℕ) (d : Data) →
        Accepted source d → WritesEquations places d text →
        (program : Program) × (program_of text ≡ Some program) × IsProgramOf places d program }

    // The parts that the words after a command say are those that are spelled so.
    ensures spelled_parts { (words : List (List ℕ)) (parts : List Part) → HasSpelledParts words parts }

    // Every printed quantity of a plan that meets the equations is its defining sum over activity, new capacity and trade, and so
    // is its cost.
    ensures quantities { (places : ℕ) (d : Data) (q : ℕ) (x : Var → ℤ) → Feasible places d q x → AreQuantities places d q x }
    ensures cost_sum { (places : ℕ) (d : Data) (q : ℕ) (x : Var → ℤ) → Feasible places d q x
        → scale_of 3 *ℤ three_factors places *ℤ cost d x ≡ sum_over (regions d) (λ r. sum_over (all_years d) (λ y. cost_of_year places d q x r y)) }

    // Every price of a report keeps what it promises.
    ensures prices { (places : ℕ) (d : Data) (rows : List Row) (gap : ℕ) (plan : List (Var × Rational)) (multipliers : List (RowName × Rational)) (cost bound : Rational)
        → AreRowsOf places d (instances d) rows → IsNearOptimum places d rows gap plan multipliers cost bound → ArePromised places d rows multipliers bound }

    // Where `table` writes what limits or fuels cost, the proof's multipliers promise each price, and every limit, or balance of a fuel, whose multiplier
    // isn't 0 has its record.
    ensures table_prices { (places gap : ℕ) (bytes name : List ℕ) (exact : Bool) (d : Data) (table : PriceTable) (text : List ℕ)
        → price_table_named name ≡ Some table
        → DueForTable places (λ rows. DueForProofFile places d rows bytes gap) bytes name (form_of exact) d Status.Done text
        → IsPromisedTable places d bytes table (form_of exact) text }

    // Where `compare` ends with status 0, its line `difference` keeps what it promises of all bounds and of the least costs of both data.
    ensures compared { (written : Written) (gap : ℕ) (source : Source) (proof_bytes : List ℕ) (source2 : Source) (proof_bytes2 text : List ℕ)
        → DueForCompared written gap source proof_bytes source2 proof_bytes2 Status.Done text
        → IsPromisedDifference written source source2 text }

    // Where one of the lines of `warn` ends in `: no plan`, whatever the names of members are, or is of a rule whose lines do, no plan exists.
    ensures no_plan { (file : List ℕ) (rounded : ℕ) (d : Data) (status : Status) (text : List ℕ) → IsWarned file rounded d status text → (f : Finding) → Contains (findings_over rounded d) f
        → (excludes_plans f.rule ≡ true) ⊎ EndsIn no_plan_ending (line d.sets f)
        → (places q : ℕ) (x : Var → ℤ) → Feasible places d q x → ⊥ }

    // What `solve` writes to prove its end is accepted by `check`, over the same data file and with the same gap and decimal places, whatever its
    // guesses begin from.
    ensures proofs { (places gap pivots : ℕ) (method : SolveMethod) (rounded : ℕ) (source : Source) (d : Data) (end status : Status) (proof text : List ℕ)
        → Accepted source d → ProvesEnd places gap pivots method rounded d end proof → DueForProof places proof gap d status text → AcceptsEnd end status text }

    // A plan and multipliers that `solve` writes with the gap 0, each in a file of its own, are accepted by `check` together, over the same data and with the same
    // decimal places, with any gap, also where their calls differ in method, pivots and start.
    ensures plan_and_multipliers { (places gap rounded also : ℕ) (d : Data) (plan multipliers : List ℕ) (status : Status) (text : List ℕ)
        → WritesOptimum SolveShow.Plan places rounded d plan → WritesOptimum SolveShow.Multipliers places also d multipliers
        → DueForCheck places plan (Some multipliers) gap d status text → status ≡ Status.Done }

    // What `table` and `page` show of the file in which `solve` proves an optimum is of the plan and the multipliers that the file was written of.
    ensures tables { (places gap pivots : ℕ) (method : SolveMethod) (rounded : ℕ) (source : Source) (d : Data) (proof name : List ℕ) (shown : Shown) (exact : Bool) (status : Status) (text : List ℕ)
        → Accepted source d → ProvesEnd places gap pivots method rounded d Status.Done proof → shown_named d.second name ≡ Some shown
        → DueForTable places (λ rows. DueForProofFile places d rows proof gap) proof name (form_of exact) d status text
        → ShowsWritten (λ rows said. ShowsProof places d rows shown (form_of exact)) places gap d proof status text }
    ensures pages { (places gap pivots : ℕ) (method : SolveMethod) (rounded : ℕ) (source : Source) (d : Data) (proof : List ℕ) (title : Title) (also : ℕ) (status : Status) (text : List ℕ)
        → Accepted source d → ProvesEnd places gap pivots method rounded d Status.Done proof
        → DueForPage title also places (λ rows. DueForProofFile places d rows proof gap) proof d status text
        → ShowsWritten (λ rows. ShowsPage title also places d rows) places gap d proof status text }

    // A failed read is answered only where the shelf counted a fault, and a failed write only where the sink did.
    ensures failed_read { (file : ℕ) → result ≡ Status.ReadFault (ReadStop.Failed file) → Rose (S.faults shelf.old) (S.faults shelf.new) }
    ensures failed_write { result ≡ Status.WriteFault → Rose (K.faults out.old) (K.faults out.new) }

    // What stays, and what doesn't fall.
    ensures files { S.files shelf.new ≡ S.files shelf.old }
    ensures read_faults { S.faults shelf.old ≤ S.faults shelf.new }
    ensures write_faults { K.faults out.old ≤ K.faults out.new }
{
    // The laws that the clauses of their names state.
    verdict_laws();
    acceptance_laws();
    scenario_laws();
    mps_laws();
    spelled_parts();
    quantity_laws();
    promise_laws();
    promised_laws();
    difference_laws();
    warned_laws();
    accepting_laws();
    shown_laws();
    written_laws();
    page_laws();
    osemosys_watched(alloc, words, shelf, out, &mut Unwatched)
}

/// Runs the program as `osemosys` does, and tells a watcher where it is meanwhile. What it answers doesn't depend on that: each field of its
/// clause is the clause of `osemosys` that has its name. The laws that stand there hold without any call.
pub fn osemosys_watched<S: Shelf, K: Sink>(
    alloc: Global,
    words: &[String],
    shelf: &mut S,
    out: &mut K,
    watcher: &mut dyn Watcher,
) -> Status
    ensures { IsRun (map string_bytes words.now) (seen S.Shelf shelf.old) (seen S.Shelf shelf.new) result (sent K.Sink out.old) (sent K.Sink out.new) }
{
    // Where all files are such that a request must come to an end, it does.
    completing_laws();
    watcher.see(Stage::Reading);
    match perform(alloc, words, shelf, watcher) {
        Ok(reply) => {
            watcher.see(Stage::Writing);
            deliver(alloc, reply, out)
        }
        Err(_) => Status::Memory,
    }
}

// What is to be sent for the words, with what the shelf holds.
fn perform<S: Shelf>(
    alloc: Global,
    words: &[String],
    shelf: &mut S,
    watcher: &mut dyn Watcher,
) -> Result<Reply, AllocError>
    ensures reply { IfOk result (IsReplyFor (asked (map string_bytes words.now)) (seen S.Shelf shelf.old) (seen S.Shelf shelf.new)) }
    ensures same { IsSameShelf (seen S.Shelf shelf.old) (seen S.Shelf shelf.new) }
{
    match read_command(alloc, words)? {
        Ok(request) => perform_request(alloc, request, shelf, watcher),
        Err(fault) => {
            let answer = refuse_words(alloc, fault)?;
            Ok(Reply::Told(answer))
        }
    }
}

// What is to be sent for a request: its files are read, and then it is answered.
fn perform_request<S: Shelf>(
    alloc: Global,
    request: Request<'_>,
    shelf: &mut S,
    watcher: &mut dyn Watcher,
) -> Result<Reply, AllocError>
    requires { IsInRange (question_of request.command) }
    ensures reply { IfOk result (IsReplyFor (Ok (request_of request.entry)) (seen S.Shelf shelf.old) (seen S.Shelf shelf.new)) }
    ensures same { IsSameShelf (seen S.Shelf shelf.old) (seen S.Shelf shelf.new) }
{
    let files = files_of(alloc, &request)?;
    match read_files(alloc, &files, shelf)? {
        Ok(found) => answer(alloc, request, found, watcher),
        Err(stopped) => {
            let answer = refuse_file(alloc, stopped)?;
            Ok(Reply::Told(answer))
        }
    }
}
