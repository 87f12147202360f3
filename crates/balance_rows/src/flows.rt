//! What a technology does with a fuel, makes it or takes it: the ratio by which it does, and the variables of its rates.

ghost use Rattle.std.specs.Prelude.{◌≡◌};
ghost use Rattle.row_core.specs.Amounts.{Billionths};
ghost use Rattle.row_core.specs.Calculated.{known, number_of};
ghost use Rattle.named_equations.specs.Within.{IsRegion, IsTechnology, IsFuel, IsMode, IsYear};
ghost use Rattle.balance_rows.specs.Flows.{rate_in_mode, rate_of_all, rate_of_technology, ratio_of, value_of_ratio};

use equation_parts::parameters::value;
use equation_parts::variable;
use exact_num::Frac;
use model_sets::param_numbers::{INPUT_ACTIVITY_RATIO, OUTPUT_ACTIVITY_RATIO};
use param_tables::{ActivityRatio, ModelData};
use row_core::kind_numbers::{
    RATE_OF_PRODUCTION, RATE_OF_PRODUCTION_BY_TECHNOLOGY, RATE_OF_PRODUCTION_BY_TECHNOLOGY_BY_MODE,
    RATE_OF_USE, RATE_OF_USE_BY_TECHNOLOGY, RATE_OF_USE_BY_TECHNOLOGY_BY_MODE,
};
use row_core::{Index, Var};

/// What a technology does with a fuel.
#[derive(Clone, Copy)]
pub(crate) enum Flow {
    /// It makes the fuel: production.
    Made,
    /// It takes the fuel: use.
    Taken,
}

impl Flow {
    /// The ratio by which it does.
    pub(crate) fn ratio(self) -> ActivityRatio
        ensures { result ≡ ratio_of self }
    {
        match self {
            Flow::Made => ActivityRatio::Output,
            Flow::Taken => ActivityRatio::Input,
        }
    }

    /// The value of the ratio.
    pub(crate) fn value(
        self,
        model: &ModelData,
        r: u16,
        t: u16,
        f: u16,
        m: u16,
        y: u16,
    ) -> Option<Frac>
        requires region { IsRegion model.now.facts r }
        requires technology { IsTechnology model.now.facts t }
        requires fuel { IsFuel model.now.facts f }
        requires mode { IsMode model.now.facts m }
        requires year { IsYear model.now.facts y }
        ensures { known result ≡ number_of (Billionths (value_of_ratio self model.now.facts r t f m y)) }
    {
        match self {
            Flow::Made => value(model, OUTPUT_ACTIVITY_RATIO, &[r, t, f, m, y]),
            Flow::Taken => value(model, INPUT_ACTIVITY_RATIO, &[r, t, f, m, y]),
        }
    }

    /// The rate of a technology in a mode.
    pub(crate) fn rate_in_mode(self, r: u16, l: u16, t: u16, f: u16, m: u16, y: u16) -> Var
        ensures { result ≡ rate_in_mode self r l t f m y }
    {
        match self {
            Flow::Made =>
                variable!(RATE_OF_PRODUCTION_BY_TECHNOLOGY_BY_MODE; region r, slice l, tech t, fuel f, mode m, year y),
            Flow::Taken =>
                variable!(RATE_OF_USE_BY_TECHNOLOGY_BY_MODE; region r, slice l, tech t, fuel f, mode m, year y),
        }
    }

    /// The rate of a technology.
    pub(crate) fn rate_of_technology(self, r: u16, l: u16, t: u16, f: u16, y: u16) -> Var
        ensures { result ≡ rate_of_technology self r l t f y }
    {
        match self {
            Flow::Made =>
                variable!(RATE_OF_PRODUCTION_BY_TECHNOLOGY; region r, slice l, tech t, fuel f, year y),
            Flow::Taken =>
                variable!(RATE_OF_USE_BY_TECHNOLOGY; region r, slice l, tech t, fuel f, year y),
        }
    }

    /// The rate of all technologies.
    pub(crate) fn rate_of_all(self, r: u16, l: u16, f: u16, y: u16) -> Var
        ensures { result ≡ rate_of_all self r l f y }
    {
        match self {
            Flow::Made => variable!(RATE_OF_PRODUCTION; region r, slice l, fuel f, year y),
            Flow::Taken => variable!(RATE_OF_USE; region r, slice l, fuel f, year y),
        }
    }
}
