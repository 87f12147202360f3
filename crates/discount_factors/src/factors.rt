// The factors of one rate.
ghost use Rattle.std.specs.Prelude.{◌≡◌, ◌==◌, ◌&&◌, ◌*◌, ◌^◌, ◌<◌, ◌≤◌, nat_lt, max, pos, ◌≤ℤ◌, unsigned_abs, IfOk};
ghost use Rattle.exact_num.specs.Range.{InRange};
ghost use Rattle.discount_factors.specs.Factors.{unit_of, IsPlaces, discounted, capital_factor, operating_factor, salvage_fraction, annuity};

use crate::values::{BILLION, WHOLE, discounted_values, half_year_root, part_of, unit_of};
use std::alloc::{AllocError, Global};
use std::marker::Model;

// The scale of discounted values times that of the half-year root: 10^18 times 10^12.
const HALF_YEAR_WHOLE: u128 = 1_000_000_000_000_000_000_000_000_000_000;

// The number of the depreciation method by the sinking fund.
const SINKING_FUND: u8 = 1;

/// The factors of one discount rate. With `places` decimal places 1 is written as 10^places, and each factor lies between 0 and that,
/// but for the annuity, which lies between 0 and 200 times that for a life of up to 200 years.
///
/// They are made for `span` years from the first on, and for lives of `lives` years at most.
#[derive(Drop)]
pub struct Factors {
    rate: u64,
    span: u16,
    lives: u16,
    places: u8,
    root: u64,
    unit: u64,
    values: Vec<u64>,
}

impl Model for Factors {
    ghost use Rattle.discount_factors.specs.Known.{Discounting, AreKept};

    ghost Value = { Discounting };

    ghost view = { λ factors. record { rate = factors.rate; span = factors.span; lives = factors.lives; places = factors.places } };

    ghost invariant = { λ factors. AreKept factors.rate factors.span factors.lives factors.places factors.root factors.unit factors.values.items };
}

impl Factors {
    /// The factors at a rate of 0 to 10^9 billionths, for up to `span` years and lives of up to `lives` years, with 6 decimal places
    /// or 9. Fails only where memory ran out.
    pub fn new(
        alloc: Global,
        rate: i128,
        span: u16,
        lives: u16,
        places: u8,
    ) -> Result<Factors, AllocError>
        requires least { pos 0 ≤ℤ rate }
        requires most { rate ≤ℤ pos 1000000000 }
        requires places { IsPlaces places }
        ensures { IfOk result (λ factors. factors ≡ record { rate = unsigned_abs rate; span = span; lives = lives; places = places }) }
    {
        let rate = rate as u64;
        let values = discounted_values(alloc, rate, span.max(lives))?;
        let root = half_year_root(rate);
        let unit = unit_of(places);
        Ok(Factors {
            rate,
            span,
            lives,
            places,
            root,
            unit,
            values,
        })
    }

    /// What 1 is written as: 10^6 with 6 decimal places, and 10^9 with 9.
    pub fn unit(&self) -> i128
        ensures exact { result ≡ pos (unit_of self.now.places) }
        ensures places { IsPlaces self.now.places }
        ensures fits { InRange result }
    {
        i128::from(self.unit)
    }

    /// How many decimal places the factors have, 6 or 9.
    pub fn places(&self) -> u8
        ensures exact { result ≡ self.now.places }
        ensures places { IsPlaces self.now.places }
    {
        self.places
    }

    // The discounted value of `n` years.
    fn value(&self, n: u16) -> u64
        requires { n ≤ max self.now.span self.now.lives }
        ensures { result ≡ discounted self.now.rate n }
    {
        self.values[usize::from(n)]
    }

    /// The capital factor of `n` years: what 1 that is due at the beginning of a year is worth `n` years earlier.
    pub fn capital(&self, n: u16) -> i128
        requires { n ≤ self.now.span }
        ensures exact { result ≡ pos (capital_factor self.now.places self.now.rate n) }
        ensures least { pos 0 ≤ℤ result }
        ensures most { result ≤ℤ pos (unit_of self.now.places) }
        ensures fits { InRange result }
    {
        i128::from(self.years_later(n))
    }

    // The same, as a number of 64 bits.
    fn years_later(&self, n: u16) -> u64
        requires { n ≤ self.now.span }
        ensures exact { result ≡ capital_factor self.now.places self.now.rate n }
        ensures most { result ≤ unit_of self.now.places }
        ensures small { result ≤ 10 ^ 9 }
    {
        self.value(n) / (WHOLE / self.unit)
    }

    /// The operating factor of `n` years: what 1 that is due in the middle of a year is worth `n` and a half years earlier.
    pub fn operating(&self, n: u16) -> i128
        requires { n ≤ self.now.span }
        ensures exact { result ≡ pos (operating_factor self.now.places self.now.rate n) }
        ensures least { pos 0 ≤ℤ result }
        ensures most { result ≤ℤ pos (unit_of self.now.places) }
        ensures fits { InRange result }
    {
        i128::from(self.half_year_later(n))
    }

    // The same, as a number of 64 bits.
    fn half_year_later(&self, n: u16) -> u64
        requires { n ≤ self.now.span }
        ensures exact { result ≡ operating_factor self.now.places self.now.rate n }
        ensures most { result ≤ unit_of self.now.places }
        ensures small { result ≤ 10 ^ 9 }
    {
        let value = u128::from(self.value(n)) * u128::from(self.root);
        (value / (HALF_YEAR_WHOLE / u128::from(self.unit))) as u64
    }

    /// The part of an investment that is left after `age` of `life` years, by DepreciationMethod 1 (the sinking fund, and at rate 0
    /// the straight line) or 2 (the straight line).
    pub fn salvage(&self, method: u8, life: u16, age: u16) -> i128
        requires method_least { 1 ≤ method }
        requires method_most { method ≤ 2 }
        requires begun { 0 < age }
        requires left { age < life }
        requires known { life ≤ self.now.lives }
        ensures exact { result ≡ pos (salvage_fraction self.now.places method self.now.rate life age) }
        ensures least { pos 0 ≤ℤ result }
        ensures most { result ≤ℤ pos (unit_of self.now.places) }
        ensures fits { InRange result }
    {
        i128::from(self.part_left(method, life, age))
    }

    // The same, as a number of 64 bits.
    fn part_left(&self, method: u8, life: u16, age: u16) -> u64
        requires left { age < life }
        requires known { life ≤ self.now.lives }
        ensures exact { result ≡ salvage_fraction self.now.places method self.now.rate life age }
        ensures most { result ≤ unit_of self.now.places }
        ensures small { result ≤ 10 ^ 9 }
    {
        if self.goes_by_sinking_fund(method) {
            let left = WHOLE - self.value(life - age);
            let all = WHOLE - self.value(life);
            part_of(self.unit, left, all)
        } else {
            part_of(self.unit, u64::from(life - age), u64::from(life))
        }
    }

    // Whether the part that is left goes by the sinking fund, and not by the straight line.
    fn goes_by_sinking_fund(&self, method: u8) -> bool
        ensures { result ≡ (method == 1 && nat_lt 0 self.now.rate) }
    {
        method == SINKING_FUND && self.rate > 0
    }

    /// The annuity of `life` years: what 1 that is due at the beginning of each of them is worth at the beginning of the first; at
    /// rate 0 it is their number.
    pub fn annuity(&self, life: u16) -> i128
        requires { life ≤ self.now.lives }
        ensures exact { result ≡ pos (annuity self.now.places self.now.rate life) }
        ensures least { pos 0 ≤ℤ result }
        ensures most { life ≤ 200 → result ≤ℤ pos (unit_of self.now.places * 200) }
        ensures fits { InRange result }
    {
        i128::from(self.worth_of_years(life))
    }

    // The same, as a number of 64 bits. Of the numbers that are formed none is above 2 * 10^36, and so none has more than 121 bits.
    fn worth_of_years(&self, life: u16) -> u64
        requires { life ≤ self.now.lives }
        ensures exact { result ≡ annuity self.now.places self.now.rate life }
        ensures most { life ≤ 200 → result ≤ unit_of self.now.places * 200 }
        ensures small { result ≤ 10 ^ 14 }
    {
        if self.rate == 0 {
            return self.unit * u64::from(life);
        }
        let rate = u128::from(self.rate);
        let lost = u128::from(self.unit) * u128::from(WHOLE - self.value(life));
        (lost * (BILLION + rate) / (u128::from(WHOLE) * rate)) as u64
    }
}
