//! Which of the equations of salvage value stands: by what outlasts the model period, and by how a region depreciates.

ghost use Rattle.std.specs.Prelude.{◌≡◌};
ghost use Rattle.named_equations.specs.Salvage.{by_sinking_fund, by_straight_line, has_sv1, has_sv2, has_sv3};
ghost use Rattle.named_equations.specs.Within.{IsRegion, IsTechnology, IsYear};

use equation_parts::whole_numbers::{depreciation_method, has_rate};
use equation_parts::years::outlasts;
use param_tables::ModelData;

/// The number of the depreciation method by the sinking fund.
pub(crate) const SINKING_FUND: u8 = 1;

/// The number of the depreciation method by the straight line.
pub(crate) const STRAIGHT_LINE: u8 = 2;

/// Whether the region depreciates by the sinking fund: by its method, at a rate above 0.
fn by_sinking_fund(model: &ModelData, r: u16) -> bool
    requires region { IsRegion model.now.facts r }
    ensures { result ≡ by_sinking_fund model.now.facts r }
{
    depreciation_method(model, r) == SINKING_FUND && has_rate(model, r)
}

/// Whether the region depreciates by the straight line: by its method, or because a sinking fund at rate 0 is one.
fn by_straight_line(model: &ModelData, r: u16) -> bool
    requires region { IsRegion model.now.facts r }
    ensures { result ≡ by_straight_line model.now.facts r }
{
    let method = depreciation_method(model, r);
    method == STRAIGHT_LINE || (method == SINKING_FUND && !has_rate(model, r))
}

/// Whether something is left at the end, by the sinking fund.
pub(crate) fn has_sv1(model: &ModelData, r: u16, t: u16, y: u16) -> bool
    requires region { IsRegion model.now.facts r }
    requires technology { IsTechnology model.now.facts t }
    requires year { IsYear model.now.facts y }
    ensures { result ≡ has_sv1 model.now.facts r t y }
{
    outlasts(model, r, t, y) && by_sinking_fund(model, r)
}

/// Whether something is left at the end, by the straight line.
pub(crate) fn has_sv2(model: &ModelData, r: u16, t: u16, y: u16) -> bool
    requires region { IsRegion model.now.facts r }
    requires technology { IsTechnology model.now.facts t }
    requires year { IsYear model.now.facts y }
    ensures { result ≡ has_sv2 model.now.facts r t y }
{
    outlasts(model, r, t, y) && by_straight_line(model, r)
}

/// Whether nothing is left at the end.
pub(crate) fn has_sv3(model: &ModelData, r: u16, t: u16, y: u16) -> bool
    requires region { IsRegion model.now.facts r }
    requires technology { IsTechnology model.now.facts t }
    requires year { IsYear model.now.facts y }
    ensures { result ≡ has_sv3 model.now.facts r t y }
{
    !has_sv1(model, r, t, y) && !has_sv2(model, r, t, y)
}
