//! How many years lie between years, and which of them a capacity outlasts.

ghost use Rattle.std.specs.Prelude.{◌≡◌, ℕ, ◌<◌};
ghost use Rattle.named_equations.specs.Capacity.{still_counts};
ghost use Rattle.named_equations.specs.Positions.{years_since_first, years_left, years_in_all};
ghost use Rattle.named_equations.specs.Salvage.{outlasts};
ghost use Rattle.named_equations.specs.Within.{IsRegion, IsTechnology, IsYear};
ghost use Rattle.named_equations.specs.WrittenFactors.{life_of};

use crate::whole_numbers::operational_life;
use param_tables::ModelData;

/// The years from the first year to this one.
pub fn years_since_first(model: &ModelData, y: u16) -> u16
    requires { IsYear model.now.facts y }
    ensures exact { result ≡ years_since_first model.now.facts y }
    ensures within { result < years_in_all model.now.facts }
{
    model.sets().year(y) - model.sets().first_year()
}

/// The years from this one to the last, both included.
pub fn years_left(model: &ModelData, y: u16) -> u16
    requires { IsYear model.now.facts y }
    ensures exact { result ≡ years_left model.now.facts y }
    ensures some { 0 < result }
{
    model.sets().last_year() - model.sets().year(y) + 1
}

/// The years of the model period, from the first to the last, gaps included.
pub fn years_in_all(model: &ModelData) -> u16
    requires { IsYear model.now.facts 0 }
    ensures { result ≡ years_in_all model.now.facts }
{
    model.sets().last_year() - model.sets().first_year() + 1
}

/// Whether what was built in year `yy` still counts in year `y`: less than a life has passed.
pub fn still_counts(model: &ModelData, life: u16, y: u16, yy: u16) -> bool
    requires year { IsYear model.now.facts y }
    requires built { IsYear model.now.facts yy }
    ensures { (r t : ℕ) → life ≡ life_of model.now.facts r t → result ≡ still_counts model.now.facts r t y yy }
{
    let year = model.sets().year(y);
    let built = model.sets().year(yy);
    built <= year && year - built < life
}

/// Whether what is built in the year lasts past the last year: fewer years are left than its life has.
pub fn outlasts(model: &ModelData, r: u16, t: u16, y: u16) -> bool
    requires region { IsRegion model.now.facts r }
    requires technology { IsTechnology model.now.facts t }
    requires year { IsYear model.now.facts y }
    ensures { result ≡ outlasts model.now.facts r t y }
{
    years_left(model, y) < operational_life(model, r, t)
}
