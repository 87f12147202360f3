//! The three ratios of a technology's activity, and their indices.

ghost use Rattle.std.specs.Prelude.{◌≡◌};
ghost use Rattle.model_sets.specs.Names.{IsSet};
ghost use Rattle.model_sets.specs.Data.{Data, IsUsedParam};
ghost use Rattle.param_tables.specs.Ratios.{commodity, ratio_param};

use model_sets::param_numbers::{
    EMISSION_ACTIVITY_RATIO, INPUT_ACTIVITY_RATIO, OUTPUT_ACTIVITY_RATIO,
};
use model_sets::set_numbers::{EMISSION, FUEL};

/// What a technology takes in, puts out or gives off for each unit of its activity: the parameters
/// InputActivityRatio, OutputActivityRatio and EmissionActivityRatio. Inputs and outputs are of the members
/// of FUEL, emissions of those of EMISSION.
#[derive(Clone, Copy, PartialEq, Eq, Debug)]
pub enum ActivityRatio {
    Input,
    Output,
    Emission,
}

/// An index of a ratio in a region, by the positions of its members, which count from 0. `commodity` is a
/// fuel, or for EmissionActivityRatio an emission.
#[derive(Clone, Copy, PartialEq, Eq, Debug)]
pub struct RatioIndex {
    pub technology: u16,
    pub commodity: u16,
    pub mode: u16,
    pub year: u16,
}

impl ActivityRatio {
    /// The number of the parameter.
    pub fn param(self) -> u8
        ensures number { result ≡ ratio_param self }
        ensures used { (d : Data) → IsUsedParam d result }
    {
        match self {
            ActivityRatio::Input => INPUT_ACTIVITY_RATIO,
            ActivityRatio::Output => OUTPUT_ACTIVITY_RATIO,
            ActivityRatio::Emission => EMISSION_ACTIVITY_RATIO,
        }
    }

    /// The number of the set over which the third subscript runs: FUEL or EMISSION.
    pub fn commodity_set(self) -> u8
        ensures number { result ≡ commodity self }
        ensures listed { IsSet result }
    {
        match self {
            ActivityRatio::Input | ActivityRatio::Output => FUEL,
            ActivityRatio::Emission => EMISSION,
        }
    }
}
