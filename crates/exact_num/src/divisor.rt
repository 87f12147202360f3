// The greatest common divisor, by the binary form of Euclid's algorithm (Stein): of two odd numbers it takes the smaller and the odd
// part of their difference. So it divides only to bring a number near to one that is far smaller, twice at most.
ghost use Rattle.std.specs.Prelude.{◌≡◌, ℕ, ◌/◌, ◌%◌, ◌<◌, ◌≤◌, ◌^◌, pos, unsigned_abs};
ghost use Rattle.std.specs.Int.{trailing_zeros, w64, w128};
ghost use Rattle.exact_num.specs.Gcd.{gcd_of};
ghost use Rattle.exact_num.specs.Range.{InRange};

// The greatest number of 64 bits.
pub const NARROW: u128 = 0xffff_ffff_ffff_ffff;

// So many bits more that a division pays.
const FAR: u32 = 8;

/// The greatest common divisor of the absolute values of `a` and `b`; 0 of 0 and 0.
#[tactic(auto, using(crate::proofs::GcdLaws::gcd_of_below))]
pub fn gcd(a: i128, b: i128) -> i128
    requires left { InRange a }
    requires right { InRange b }
    ensures value { result ≡ pos (gcd_of (unsigned_abs a) (unsigned_abs b)) }
    ensures range { InRange result }
{
    wide_gcd(a.unsigned_abs(), b.unsigned_abs()) as i128
}

// In steps of 64 bits as soon as both numbers have 64.
fn wide_gcd(a: u128, b: u128) -> u128
    ensures { result ≡ gcd_of a b }
{
    if a <= NARROW {
        mixed_gcd(b, a as u64)
    } else if b <= NARROW {
        mixed_gcd(a, b as u64)
    } else {
        let twos = a.trailing_zeros().min(b.trailing_zeros());
        wide_odd_gcd(wide_odd_part(a), wide_odd_part(b)) << twos
    }
}

// One number has 64 bits: a remainder brings the other to 64 as well.
fn mixed_gcd(a: u128, b: u64) -> u128
    ensures { result ≡ gcd_of a b }
{
    if a <= NARROW {
        u128::from(narrow_gcd(a as u64, b))
    } else if b == 0 {
        a
    } else {
        u128::from(narrow_gcd(b, (a % u128::from(b)) as u64))
    }
}

// Where one number has far more bits than the other, a remainder brings it down sooner than differences do.
fn narrow_gcd(a: u64, b: u64) -> u64
    ensures { result ≡ gcd_of a b }
{
    let large = a.max(b);
    let small = a.min(b);
    if small == 0 {
        large
    } else if large >> FAR <= small {
        close_gcd(large, small)
    } else {
        let rest = large % small;
        if rest == 0 {
            small
        } else {
            close_gcd(small, rest)
        }
    }
}

fn close_gcd(a: u64, b: u64) -> u64
    requires left { 0 < a }
    requires right { 0 < b }
    ensures { result ≡ gcd_of a b }
{
    let twos = a.trailing_zeros().min(b.trailing_zeros());
    narrow_odd_gcd(narrow_odd_part(a), narrow_odd_part(b)) << twos
}

fn wide_odd_gcd(a: u128, b: u128) -> u128
    requires left { a % 2 ≡ 1 }
    requires right { b % 2 ≡ 1 }
    ensures { result ≡ gcd_of a b }
{
    let mut left = a;
    let mut right = b;
    while left > NARROW && right > NARROW {
        if left == right {
            return left;
        }
        let gap = left.abs_diff(right);
        right = left.min(right);
        left = wide_odd_part(gap);
    }
    if left <= NARROW {
        mixed_gcd(right, left as u64)
    } else {
        mixed_gcd(left, right as u64)
    }
}

fn narrow_odd_gcd(a: u64, b: u64) -> u64
    requires left { a % 2 ≡ 1 }
    requires right { b % 2 ≡ 1 }
    ensures { result ≡ gcd_of a b }
{
    let mut left = a;
    let mut right = b;
    while left != right {
        let gap = left.abs_diff(right);
        right = left.min(right);
        left = narrow_odd_part(gap);
    }
    left
}

// n without its factors of 2, which no odd number shares.
fn wide_odd_part(n: u128) -> u128
    requires { 0 < n }
    ensures value { result ≡ n / 2 ^ trailing_zeros w128 n }
    ensures odd { result % 2 ≡ 1 }
    ensures bound { result ≤ n }
    ensures shared { (b : ℕ) → b % 2 ≡ 1 → gcd_of result b ≡ gcd_of n b }
{
    n >> n.trailing_zeros()
}

// The same of a number of 64 bits.
fn narrow_odd_part(n: u64) -> u64
    requires { 0 < n }
    ensures value { result ≡ n / 2 ^ trailing_zeros w64 n }
    ensures odd { result % 2 ≡ 1 }
    ensures bound { result ≤ n }
    ensures shared { (b : ℕ) → b % 2 ≡ 1 → gcd_of result b ≡ gcd_of n b }
{
    n >> n.trailing_zeros()
}
