// The trials of limits, one after another.
ghost use Rattle.std.specs.Prelude.{◌≡◌, IfOk, IfSome};
ghost use Rattle.std.specs.List.{AllByRecursion};
ghost use Rattle.command_words.specs.LimitLists.{IsLimit};
ghost use Rattle.discount_factors.specs.Factors.{IsPlaces};
ghost use Rattle.row_book.specs.Books.{NamesRowWithin};
ghost use Rattle.curve_command.specs.KeptRows.{IsBookAtSome, IsLimitOf, IsMemberOf, limit_of};
ghost use Rattle.curve_command.specs.Outcomes.{FailTells, OutcomeTells, TriedTells};

use crate::books::limited_book;
use crate::points::book_trial;
use call_stages::{Stage, Watcher};
use command_answers::{Answer, TrialStop, refuse_book};
use command_words::SolveMethod;
use emission_curve::Point;
use model_sets::Sets;
use param_tables::ModelData;
use row_book::{BookFail, RowBook};
use row_core::equation_numbers::E9;
use row_core::{Index, RowName};
use std::alloc::{AllocError, Global};

/// An emission in a region, by their positions.
#[derive(Clone, Copy)]
pub struct Member {
    pub region: u16,
    pub emission: u16,
}

/// A limit on the emissions of the model period, in billionths.
#[derive(Clone, Copy)]
pub struct Limit {
    pub member: Member,
    pub most: i128,
}

/// The method, the most pivots of a trial, and how many millionths of a bound the rounded method may leave a cost above it.
#[derive(Clone, Copy, PartialEq, Eq)]
pub struct Wanted {
    pub method: SolveMethod,
    pub pivots: u32,
    pub gap: u32,
}

/// What was found at a limit, in billionths.
#[derive(Clone, Copy)]
pub struct Found {
    pub limit: i128,
    pub point: Point,
}

/// What a trial comes to.
#[derive(Drop)]
pub enum Trial {
    /// It ended, or stopped.
    Ended(Point),
    /// The call refuses so.
    Refused(Answer),
}

/// What a trial comes to, and its rows, where they were made.
#[derive(Drop)]
pub struct Tried {
    pub trial: Trial,
    pub book: Option<RowBook>,
}

/// What the trials come to.
#[derive(Drop)]
pub enum Outcome {
    /// Each of them ended, or stopped.
    Ended(Vec<Found>),
    /// The first that refuses does so.
    Refused(Answer),
}

/// The trials of limits, in billionths, in turn.
pub fn trials(
    alloc: Global,
    model: &ModelData,
    places: u8,
    member: Member,
    limits: &[i128],
    wanted: Wanted,
    watcher: &mut dyn Watcher,
) -> Result<Outcome, AllocError>
    requires places { IsPlaces places }
    requires member { IsMemberOf model.now.facts.sets member }
    requires limits { AllByRecursion IsLimit limits.now }
    ensures { IfOk result (OutcomeTells places model.now.facts member wanted limits.now) }
{
    let mut all = Vec::with_capacity(alloc, limits.len())?;
    let mut book = None;
    let mut start = Vec::new(alloc);
    for most in limits {
        let limit = Limit {
            member,
            most: *most,
        };
        let Tried { trial, book: made } = limit_trial(
            alloc, model, places, limit, wanted, book, &mut start, watcher,
        )?;
        match trial {
            Trial::Ended(point) => all.push(Found {
                limit: *most,
                point,
            })?,
            Trial::Refused(answer) => return Ok(Outcome::Refused(answer)),
        }
        book = made;
    }
    Ok(Outcome::Ended(all))
}

// The trial of a limit: over the data with that limit. `before` are the rows of another limit's trial, and `start` the values of its plan.
fn limit_trial(
    alloc: Global,
    model: &ModelData,
    places: u8,
    limit: Limit,
    wanted: Wanted,
    before: Option<RowBook>,
    start: &mut Vec<f64>,
    watcher: &mut dyn Watcher,
) -> Result<Tried, AllocError>
    requires places { IsPlaces places }
    requires limit { IsLimitOf model.now.facts.sets limit }
    requires before { IfSome before (IsBookAtSome places model.now.facts limit.member) }
    ensures { IfOk result (TriedTells places model.now.facts limit wanted) }
{
    watcher.see(Stage::Rows);
    match limited_book(alloc, model, places, limit, before) {
        Ok(book) => {
            let row = limit_row(limit.member);
            let trial = book_trial(alloc, &book, model.sets(), row, wanted, start, watcher)?;
            Ok(Tried {
                trial,
                book: Some(book),
            })
        }
        Err(fail) => {
            let trial = failed_trial(alloc, fail, model.sets())?;
            Ok(Tried { trial, book: None })
        }
    }
}

/// The row of the limits of a member.
pub fn limit_row(member: Member) -> RowName
    ensures { result ≡ limit_of member }
{
    RowName {
        eq: E9,
        index: Index {
            region: member.region,
            other: 0,
            slice: 0,
            tech: 0,
            fuel: 0,
            emission: member.emission,
            mode: 0,
            year: 0,
        },
    }
}

// The trial of which the rows can't be made.
fn failed_trial(alloc: Global, fail: BookFail, sets: &Sets) -> Result<Trial, AllocError>
    requires { NamesRowWithin sets.now fail }
    ensures { IfOk result (FailTells sets.now fail) }
{
    match fail {
        BookFail::Width(place) => Ok(Trial::Ended(Point::Stopped(TrialStop::Width(place)))),
        _ => Ok(Trial::Refused(refuse_book(alloc, fail, sets)?)),
    }
}
