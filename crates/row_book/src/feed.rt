//! A feed of rows: those that are held are copied, and all others made again, when they are asked for.

ghost use Rattle.std.specs.Prelude.{◌≡◌, ◌+◌, [], drop, map, reverse, true, IfErr, IfOk, OnErr, OnOk};
ghost use Rattle.std.specs.List.{AllByRecursion, enumerate_from};
ghost use Rattle.discount_factors.specs.Factors.{IsPlaces};
ghost use Rattle.named_equations.specs.Instances.{instances};
ghost use Rattle.named_equations.specs.RegionFactors.{AreRegionFactors, places_of};
ghost use Rattle.row_core.specs.Equations.{IsEquation};
ghost use Rattle.row_core.specs.Contents.{contents_of};
ghost use Rattle.row_core.specs.Sources.{Answers, AreInOrder, rows_of_equation};
ghost use Rattle.row_book.specs.Books.{CanBeMade, HasStopped, IsWithinSets, NamesRowWithin};
ghost use Rattle.row_book.specs.Feeds.{AreContentsOf, HasContentsWithin, ahead_after, equation_contents};

use crate::factors::region_factors;
use crate::fail::BookFail;
use crate::gathering::complete_variables;
use crate::held_rows::{HeldRows, position_of_rows};
use crate::made_rows::MadeRows;
use crate::tally::Tally;
use crate::tallying::is_marked;
use discount_factors::Factors;
use param_tables::ModelData;
use row_core::{Row, RowSource, Var, copy_row};
use std::alloc::{AllocError, Global};
use std::marker::Model;

/// All rows of a model, in order. Those of an equation are held where they have 8 entries a row or more, those of the first
/// equations as long as they have no more than 500,000 entries together, and those of the last ones after 1,500,000; they are
/// copied one by one when they are asked for. The others are made again then, equation by equation.
#[derive(Drop)]
pub struct RowFeed<'a> {
    alloc: Global,
    model: &'a ModelData,
    factors: Vec<Factors>,
    /// How many rows stand before those of each equation, in the order of equations.
    before: Vec<u64>,
    /// Of each equation, and each kind of variable: whether it has an entry of the kind.
    kinds: Vec<bool>,
    /// The rows that are held.
    held: Vec<HeldRows>,
    /// The equation, and how many rows of all stand before the place.
    eq: u8,
    passed: u64,
    /// Where the rows of the equation stand, if they are held: then how many of them were taken.
    place: Option<usize>,
    taken: usize,
    /// Whether the rows of the equation are made, where they aren't held: then those that are ahead, the next one last.
    made: bool,
    rows: Vec<Row>,
}

impl<'a> Model for RowFeed<'a> {
    ghost use Rattle.named_equations.specs.RegionFactors.{places_of};
    ghost use Rattle.row_book.specs.Feeds.{Feed, ahead_at, all_contents, equation_contents};
    ghost use Rattle.row_book.specs.FeedStates.{IsFeed};

    ghost Value = { Feed };

    ghost view = { λ feed. record {
      rows = all_contents (places_of feed.factors.items) feed.model.now.facts;
      ahead = ahead_at feed.place feed.taken feed.passed feed.made feed.rows.items (equation_contents (places_of feed.factors.items) feed.model.now.facts feed.eq);
    } };

    ghost invariant = { λ feed. IsFeed feed.model.now.facts feed.factors.items feed.before.items feed.kinds.items feed.held.items feed.place feed.eq };
}

impl<'a> RowFeed<'a> {
    /// A feed of the row of each instance of the named equations, by the equation's number and then by
    /// subscripts, which stands before the first row of equation 1; and the variables of all entries, in
    /// strictly ascending order. Written factors have `places` decimal places, 6 or 9.
    ///
    /// Every row is made once. The first one that can't be made is refused: with `Width` and its name where a
    /// number that is formed for it doesn't fit, and else with `TooManyEntries`, where the entries of the rows
    /// up to and with it are more than 4,000,000. `Memory` comes where memory ran out.
    pub fn new(
        alloc: Global,
        model: &'a ModelData,
        places: u8,
    ) -> Result<(RowFeed<'a>, Vec<Var>), BookFail>
        requires places { IsPlaces places }
        ensures rows { IfOk result (λ made. AreContentsOf places model.now.facts made.0.rows made.1.items) }
        ensures starts { IfOk result (λ made. made.0.ahead ≡ rows_of_equation 1 made.0.rows) }
        ensures in_order { IfOk result (λ made. AreInOrder made.0.rows) }

        // Each name is of its list, with the positions of members as its subscripts.
        ensures named { IfOk result (λ made. AllByRecursion (HasContentsWithin model.now.facts.sets) made.0.rows) }
        ensures within { IfOk result (λ made. AllByRecursion (IsWithinSets model.now.facts.sets) made.1.items) }

        // When there is a feed, and why there is none.
        ensures made { OnOk result (CanBeMade places model.now.facts 0 (instances model.now.facts)) }
        ensures stopped { IfErr result (HasStopped places model.now.facts 0 (instances model.now.facts)) }
        ensures place { IfErr result (NamesRowWithin model.now.facts.sets) }
    {
        let factors = region_factors(alloc, model, places)?;
        let mut tally = Tally::new(alloc)?;
        match tally.add_equations(alloc, model, &factors) {
            Ok(()) => {}
            Err(fail) => return Err(fail),
        }
        let Tally {
            before,
            kinds,
            held,
            mut vars,
            ..
        } = tally;
        match complete_variables(&mut vars, &held) {
            Ok(()) => {}
            Err(_) => return Err(BookFail::Memory),
        }
        let place = position_of_rows(&held, 1);
        let feed = RowFeed {
            alloc,
            model,
            factors,
            before,
            kinds,
            held,
            eq: 1,
            passed: 0,
            place,
            taken: 0,
            made: false,
            rows: Vec::new(alloc),
        };
        Ok((feed, vars))
    }
}

impl<'a> RowSource for RowFeed<'a> {
    ghost rows = { λ feed. feed.rows };

    ghost ahead = { λ feed. feed.ahead };

    fn start(&mut self, eq: u8) {
        self.passed = self.before[eq as usize - 1];
        self.eq = eq;
        let place = position_of_rows(&self.held, eq);
        self.place = place;
        self.taken = 0;
        self.made = false;
    }

    fn next(&mut self) -> Result<Option<(u64, Row)>, AllocError> {
        match self.place {
            Some(place) => {
                let rows = &self.held[place].rows;
                return next_copy(self.alloc, rows, &mut self.taken, &mut self.passed);
            }
            None => {}
        }
        if self.made {
            return next_row(&mut self.rows, &mut self.passed);
        }
        self.rows = match equation_rows(self.alloc, self.model, &self.factors, self.eq) {
            Ok(rows) => rows,
            Err(fail) => return Err(fail),
        };
        self.made = true;
        next_row(&mut self.rows, &mut self.passed)
    }

    fn has(&self, eq: u8, kind: u8) -> bool {
        is_marked(&self.kinds, eq, kind)
    }
}

/// Makes the rows of an equation, of which all can be made, and puts the last one first. Fails only where memory runs
/// out.
fn equation_rows(
    alloc: Global,
    model: &ModelData,
    factors: &[Factors],
    eq: u8,
) -> Result<Vec<Row>, AllocError>
    requires equation { IsEquation eq }
    requires factors { AreRegionFactors (places_of factors.now) model.now.facts factors.now }
    requires made { CanBeMade (places_of factors.now) model.now.facts 0 (instances model.now.facts) }
    ensures { IfOk result (λ rows. map contents_of (reverse rows.items) ≡ equation_contents (places_of factors.now) model.now.facts eq) }
{
    let mut made = MadeRows {
        alloc,
        rows: Vec::new(alloc),
        entries: 0,
    };
    match made.add_equation(model, factors, eq) {
        Ok(()) => {}
        Err(BookFail::Memory) => return Err(AllocError),
        // Each of these rows was made before, of the same data.
        Err(BookFail::Width(_)) => unreachable!(),
        Err(BookFail::TooManyEntries) => unreachable!(),
    }
    made.rows.reverse();
    Ok(made.rows)
}

/// Takes the last of the rows, which is the one after those that are passed.
fn next_row(rows: &mut Vec<Row>, passed: &mut u64) -> Result<Option<(u64, Row)>, AllocError>
    ensures answers { IfOk result (λ found. Answers
        (ahead_after passed.old true rows.old.items []) found (ahead_after passed.new true rows.new.items [])) }
    ensures stays { OnErr result (ahead_after passed.new true rows.new.items [] ≡ ahead_after passed.old true rows.old.items []) }
{
    let number = match passed.checked_add(1) {
        Some(number) => number,
        None => return Err(AllocError),
    };
    match rows.pop() {
        None => Ok(None),
        Some(row) => {
            *passed = number;
            Ok(Some((number, row)))
        }
    }
}

/// A copy of the row after those that were taken, which is the one after those that are passed.
fn next_copy(
    alloc: Global,
    rows: &[Row],
    taken: &mut usize,
    passed: &mut u64,
) -> Result<Option<(u64, Row)>, AllocError>
    ensures answers { IfOk result (λ found. Answers
        (enumerate_from (passed.old + 1) (map contents_of (drop taken.old rows.now))) found (enumerate_from (passed.new + 1) (map contents_of (drop taken.new rows.now)))) }
    ensures taken_stays { OnErr result (taken.new ≡ taken.old) }
    ensures passed_stays { OnErr result (passed.new ≡ passed.old) }
{
    if *taken >= rows.len() {
        return Ok(None);
    }
    let number = match passed.checked_add(1) {
        Some(number) => number,
        None => return Err(AllocError),
    };
    let row = copy_row(alloc, &rows[*taken])?;
    *passed = number;
    *taken += 1;
    Ok(Some((number, row)))
}
