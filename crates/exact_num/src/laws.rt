// Laws of the definitions that the contracts of this crate cite. Each is proved as the contract of a function that does nothing.
ghost use Rattle.std.specs.Prelude.{◌≡◌, ◌≢◌, ◌↔◌, ℕ, ◌*◌, ℤ, pos, ◌+ℤ◌, ◌-ℤ◌, ◌*ℤ◌, ◌<ℤ◌, List, ◌++◌, ◌&&◌, true, is_none, flat_map};
ghost use Rattle.std.specs.Int.{IsGcd, ◌∣◌};
ghost use Rattle.std.specs.Option.{option_or};
ghost use Rattle.std.specs.Ordering.{int_cmp};
ghost use Rattle.exact_num.specs.Gcd.{gcd_of};
ghost use Rattle.exact_num.specs.Range.{InRange, in_range, all_fit};
ghost use Rattle.exact_num.specs.Rational.{Rational, IsLowest, lowest, whole, negated, plus, minus, times, divided, order_of};
ghost use Rattle.exact_num.specs.Steps.{Step, first_wide};

/// What the greatest common divisor is: it divides both numbers, and every number that divides both divides it; and Euclid's
/// lemma.
pub fn gcd_laws()
    ensures greatest { (a b : ℕ) → IsGcd a b (gcd_of a b) }
    ensures euclid { (a b c : ℕ) → gcd_of a b ≡ 1 → a ∣ b * c → a ∣ c }
{}

/// What the test of a number and of a list of numbers says.
pub fn range_laws()
    ensures test { (z : ℤ) → (in_range z ≡ true) ↔ InRange z }
    ensures joined { (xs ys : List ℤ) → all_fit (xs ++ ys) ≡ (all_fit xs && all_fit ys) }
{}

/// What an exact value is: the quotient of the two numbers, in lowest terms, and equal numbers are one pair.
pub fn value_laws()
    ensures quotient { (n d : ℤ) → d ≢ pos 0 → (lowest n d).top *ℤ d ≡ n *ℤ (lowest n d).bottom }
    ensures lowest_terms { (n d : ℤ) → d ≢ pos 0 → IsLowest (lowest n d) }
    ensures one_pair { (x y : Rational) → IsLowest x → IsLowest y
        → x.top *ℤ y.bottom ≡ y.top *ℤ x.bottom → x ≡ y }
    ensures zero { (x : Rational) → IsLowest x → x.top ≡ pos 0 → x ≡ whole (pos 0) }
{}

/// Sums and products of exact values, multiplied out, and the laws of arithmetic for them.
pub fn arithmetic_laws()
    ensures sum { (x y : Rational) → IsLowest x → IsLowest y
        → (plus x y).top *ℤ (x.bottom *ℤ y.bottom) ≡ (x.top *ℤ y.bottom +ℤ y.top *ℤ x.bottom) *ℤ (plus x y).bottom }
    ensures product { (x y : Rational) → IsLowest x → IsLowest y
        → (times x y).top *ℤ (x.bottom *ℤ y.bottom) ≡ (x.top *ℤ y.top) *ℤ (times x y).bottom }
    ensures sum_comm { (x y : Rational) → plus x y ≡ plus y x }
    ensures product_comm { (x y : Rational) → times x y ≡ times y x }
    ensures sum_assoc { (x y z : Rational) → IsLowest x → IsLowest y → IsLowest z
        → plus (plus x y) z ≡ plus x (plus y z) }
    ensures product_assoc { (x y z : Rational) → IsLowest x → IsLowest y → IsLowest z
        → times (times x y) z ≡ times x (times y z) }
    ensures distributed { (x y z : Rational) → IsLowest x → IsLowest y → IsLowest z
        → times x (plus y z) ≡ plus (times x y) (times x z) }
    ensures difference { (x y : Rational) → minus x y ≡ plus x (negated y) }
    ensures added_back { (x y : Rational) → IsLowest x → IsLowest y → plus (minus x y) y ≡ x }
    ensures multiplied_back { (x y : Rational) → IsLowest x → IsLowest y → y.top ≢ pos 0
        → times (divided x y) y ≡ x }
{}

/// The order of exact values: by the sign of the difference, which is the sign of its numerator. The same added to both sides, or
/// a positive factor on both sides, keeps it.
pub fn order_laws()
    ensures by_difference { (x y : Rational) → IsLowest x → IsLowest y
        → order_of x y ≡ order_of (minus x y) (whole (pos 0)) }
    ensures by_numerator { (x : Rational) → order_of x (whole (pos 0)) ≡ int_cmp x.top (pos 0) }
    ensures added { (x y z : Rational) → IsLowest x → IsLowest y → IsLowest z
        → order_of (plus x z) (plus y z) ≡ order_of x y }
    ensures multiplied { (x y z : Rational) → IsLowest x → IsLowest y → IsLowest z → pos 0 <ℤ z.top
        → order_of (times x z) (times y z) ≡ order_of x y }
{}

/// Where a list of steps stops: joined lists stop where the first does, else where the second does; and none stops exactly where
/// every number formed fits.
pub fn step_laws()
    ensures joined { (ss ts : List (Step ℕ)) → first_wide (ss ++ ts) ≡ option_or (first_wide ss) (first_wide ts) }
    ensures none { (ss : List (Step ℕ)) → is_none (first_wide ss) ≡ all_fit (flat_map (λ s. s.formed) ss) }
{}
