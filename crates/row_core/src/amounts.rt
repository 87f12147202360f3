//! Numbers that an equation makes of data: exact products, sums and negatives, or none once a number that is
//! formed on the way lies outside the range from `-(2^127 - 1)` to `2^127 - 1`.

ghost use Rattle.std.specs.Prelude.{◌≡◌, pos, negsuc};
ghost use Rattle.row_core.specs.Amounts.{Whole};
ghost use Rattle.row_core.specs.Calculated.{known, number_of, product_of, total_of, negative_of};

use exact_num::{Frac, add, mul};

/// The coefficient 1.
pub fn one() -> Option<Frac>
    ensures { known result ≡ number_of (Whole (pos 1)) }
{
    Some(Frac { num: 1, den: 1 })
}

/// The coefficient -1.
pub fn minus_one() -> Option<Frac>
    ensures { known result ≡ number_of (Whole (negsuc 0)) }
{
    Some(Frac { num: -1, den: 1 })
}

/// The right side 0.
pub fn zero() -> Option<Frac>
    ensures { known result ≡ number_of (Whole (pos 0)) }
{
    Some(Frac { num: 0, den: 1 })
}

/// The product; none where one of the factors is none, or one of the numbers formed doesn't fit.
#[tactic(auto, unfolding(crate::specs::Calculated::product_of))]
pub fn times(a: Option<Frac>, b: Option<Frac>) -> Option<Frac>
    ensures { known result ≡ product_of (known a) (known b) }
{
    let (Some(a), Some(b)) = (a, b) else {
        return None;
    };
    mul(a, b).ok()
}

/// The sum; none where one of the numbers is none, or one of the numbers formed doesn't fit.
#[tactic(auto, unfolding(crate::specs::Calculated::total_of))]
pub fn plus(a: Option<Frac>, b: Option<Frac>) -> Option<Frac>
    ensures { known result ≡ total_of (known a) (known b) }
{
    let (Some(a), Some(b)) = (a, b) else {
        return None;
    };
    add(a, b).ok()
}

/// The negative; none where the number is none.
#[tactic(auto, unfolding(crate::specs::Calculated::negative_of))]
pub fn negative(a: Option<Frac>) -> Option<Frac>
    ensures { known result ≡ negative_of (known a) }
{
    let a = a?;
    Some(Frac {
        num: -a.num,
        den: a.den,
    })
}
