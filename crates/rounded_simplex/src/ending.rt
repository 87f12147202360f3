//! How a turn and a phase end.

ghost use Rattle.std.specs.Prelude.{◌≡◌, ◌≤◌, ◌<◌, ◌+◌, ◌^◌};

/// How a phase ends.
#[derive(Clone, Copy)]
pub(crate) enum End {
    /// No variable is left to choose.
    Optimal,
    /// A variable was chosen and no other can change places with it.
    Blocked,
    /// The pivots ran out, or the numbers became useless.
    Stopped,
}

/// What a turn of a phase did.
#[derive(Clone, Copy)]
pub(crate) enum Turn {
    Pivoted,
    /// A weight was wrong: the choice has to be made again.
    Reweighed,
    /// The pivot came out differently from its row and from its column.
    Drifted,
    /// Nothing is left to do, if the numbers are fresh.
    Ended(End),
}

/// A phase's end, and its pivots.
#[derive(Clone, Copy)]
pub(crate) struct PhaseEnd {
    pub(crate) end: End,
    pub(crate) pivots: u64,
}

/// So many pivots that drifted end the attempt.
const MOST_DRIFTS: u64 = 1000;
/// More turns than this for each pivot are never made.
const TURNS_A_PIVOT: u64 = 64;

/// What a phase counts.
#[derive(Clone, Copy)]
pub(crate) struct Counts {
    pub(crate) pivots: u64,
    /// The pivots since the factors were made.
    pub(crate) since: u64,
    drifts: u64,
}

impl Counts {
    /// Nothing yet.
    pub(crate) fn new() -> Counts
        ensures { result.pivots ≡ 0 }
    {
        Counts {
            pivots: 0,
            since: 0,
            drifts: 0,
        }
    }

    /// Counts a turn, and answers the phase's end if it is one. Where the numbers aren't fresh, they are to be made anew.
    pub(crate) fn after(&mut self, turn: Turn, updates: u64) -> Option<End>
        requires { self.old.pivots + 1 < 2 ^ 64 }
        ensures { self.new.pivots ≤ self.old.pivots + 1 }
    {
        match turn {
            Turn::Pivoted => {
                self.pivots += 1;
                self.since = self.since.saturating_add(1);
            }
            Turn::Reweighed => {}
            Turn::Drifted => {
                self.drifts = self.drifts.saturating_add(1);
                self.since = updates;
                if self.drifts > MOST_DRIFTS {
                    return Some(End::Stopped);
                }
            }
            Turn::Ended(end) => {
                if self.since == 0 {
                    return Some(end);
                }
                self.since = updates;
            }
        }
        None
    }
}

/// How many turns a phase may take.
pub(crate) fn most_turns(pivots: u64) -> u64 {
    pivots
        .saturating_mul(TURNS_A_PIVOT)
        .saturating_add(TURNS_A_PIVOT * MOST_DRIFTS)
}
