//! How the method ends, and why it stops before.

ghost use Rattle.std.specs.Prelude.{◌≡◌, map};
ghost use Rattle.exact_num.specs.Value.{value_of};
ghost use Rattle.simplex_core.specs.declared.ends.Halt.TheVariants.{Memory};

use exact_num::Frac;
use row_core::{Place, Plan, Stopped};
use std::alloc::AllocError;
use std::marker::Model;

/// A multiplier for each row, in the order of rows: at least 0 on a row of at least, at most 0 on a row of at most.
#[derive(Drop)]
pub struct Lambda(Vec<Frac>);

impl Model for Lambda {
    ghost use Rattle.std.specs.Prelude.{List, map};
    ghost use Rattle.exact_num.specs.Rational.{Rational};
    ghost use Rattle.exact_num.specs.Value.{value_of};

    ghost Value = { List Rational };

    ghost view = { λ lambda. map value_of lambda.0.items };
}

impl Lambda {
    /// These multipliers, in the order of rows.
    pub fn of(entries: Vec<Frac>) -> Lambda
        ensures { result ≡ map value_of entries.items }
    {
        Lambda(entries)
    }

    /// The multipliers, in the order of rows.
    pub fn entries(&self) -> &[Frac]
        ensures { map value_of result.now ≡ self.now }
    {
        &self.0
    }
}

/// How the method ends on a linear program, after so many pivots.
#[derive(Drop)]
pub enum End {
    /// The values are a plan of least cost, and the multipliers prove it.
    Optimal {
        values: Plan,
        lambda: Lambda,
        pivots: u64,
    },
    /// No values meet the rows, and the multipliers prove it.
    Infeasible {
        lambda: Lambda,
        pivots: u64,
    },
    /// The values meet the rows, and along the direction they do so too while the cost falls without end.
    Unbounded {
        values: Plan,
        direction: Plan,
        pivots: u64,
    },
}

/// Why the method stops before its end.
#[derive(Clone, Copy, PartialEq, Eq)]
pub enum Halt {
    /// A pivot is due after the last that may be made.
    Budget,
    /// A number that is formed at this place lies outside the range from `-(2^127 - 1)` to `2^127 - 1`.
    Width(Place),
    /// Memory ran out.
    Memory,
}

impl From<AllocError> for Halt {
    ghost from_gives = { λ _ halt. halt ≡ Memory };

    fn from(_: AllocError) -> Halt {
        Halt::Memory
    }
}

impl From<Stopped> for Halt {
    ghost use Rattle.simplex_core.specs.Outcomes.{halt_of};

    ghost from_gives = { λ stopped halt. halt ≡ halt_of stopped };

    fn from(stopped: Stopped) -> Halt {
        match stopped {
            Stopped::Width(place) => Halt::Width(place),
            Stopped::Memory => Halt::Memory,
        }
    }
}
