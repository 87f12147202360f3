// Laws of the definitions that the contracts of this crate cite. Each is proved as the contract of a function that does nothing.
ghost use Rattle.std.specs.Prelude.{◌≡◌, ℕ, ◌+◌, ◌*◌, ◌/◌, ◌^◌, ◌<◌, ◌≤◌};
ghost use Rattle.discount_factors.specs.Factors.{unit_of, IsPlaces, capital_factor, operating_factor, IsHalfYearRoot, half_year_root, straight_line, salvage_fraction, recovery_factor, annuity};
ghost use Rattle.discount_factors.specs.Closeness.{IsNearPower, IsNearHalfPower};

/// The half-year root is the greatest whole number whose square is within the bound, and the only one. It has one scale, whatever the
/// number of decimal places.
pub fn root_laws()
    ensures greatest { (rate : ℕ) → IsHalfYearRoot rate (half_year_root rate) }
    ensures unique { (rate h : ℕ) → IsHalfYearRoot rate h → h ≡ half_year_root rate }
{}

/// No factor is above 1 but the annuity, which is at most one year above the life, from 6 years on at most the life, and for no life
/// of up to 200 years above 200.
pub fn bound_laws()
    ensures capital { (places rate n : ℕ) → IsPlaces places → capital_factor places rate n ≤ unit_of places }
    ensures operating { (places rate n : ℕ) → IsPlaces places → operating_factor places rate n ≤ unit_of places }
    ensures salvage { (places method rate life age : ℕ) → salvage_fraction places method rate life age ≤ unit_of places }
    ensures recovery { (places rate life : ℕ) → 0 < life → recovery_factor places rate life ≤ unit_of places }
    ensures annuity { (places rate life : ℕ) → annuity places rate life ≤ unit_of places * (life + 1) }
    ensures annuity_of_life { (places rate life : ℕ) → 6 ≤ life → annuity places rate life ≤ unit_of places * life }
    ensures annuity_of_200 { (places rate life : ℕ) → life ≤ 200 → annuity places rate life ≤ unit_of places * 200 }
{}

/// The capital and the operating factor are at most the real powers, and less than two of the last place below them, at any rate and
/// for every number of years that can be asked for, with 6 decimal places and with 9.
pub fn closeness_laws()
    ensures capital { (places rate n : ℕ) → IsPlaces places → n < 2 ^ 16 → IsNearPower places rate n (capital_factor places rate n) }
    ensures operating { (places rate n : ℕ) → IsPlaces places → n < 2 ^ 16 → IsNearHalfPower places rate n (operating_factor places rate n) }
{}

/// At rate 0 everything counts whole, both methods of depreciation are the straight line, as method 2 is at every rate, each year of a
/// life pays back the same part, and years are worth their number.
pub fn level_laws()
    ensures capital { (places n : ℕ) → IsPlaces places → capital_factor places 0 n ≡ unit_of places }
    ensures operating { (places n : ℕ) → IsPlaces places → operating_factor places 0 n ≡ unit_of places }
    ensures level { (places method life age : ℕ) → salvage_fraction places method 0 life age ≡ straight_line places life age }
    ensures straight { (places rate life age : ℕ) → salvage_fraction places 2 rate life age ≡ straight_line places life age }
    ensures recovery { (places life : ℕ) → recovery_factor places 0 life ≡ unit_of places / life }
    ensures annuity { (places life : ℕ) → annuity places 0 life ≡ unit_of places * life }
{}
