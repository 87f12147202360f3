//! What the first lines of a comparison say, and in what order its records come. Each law is proved as the contract of a function that
//! does nothing.

ghost use Rattle.std.specs.Prelude.{◌≡◌, ℕ, ℤ, neg_ℤ, List, Some};
ghost use Rattle.exact_num.specs.Rational.{Rational};
ghost use Rattle.model_sets.specs.Data.{Data};
ghost use Rattle.plan_compare.specs.declared.change.Change.{Change};
ghost use Rattle.plan_compare.specs.GreatestFirst.{Falls, greatest_first, of_size, size_of_change};
ghost use Rattle.plan_compare.specs.Heads.{at_least, at_most};
ghost use Rattle.plan_compare.specs.LeastCosts.{IsAtLeastDifference, IsAtMostDifference, IsBound, IsCost, IsLeastCost, raised};

/// Where a plan of the first data costs `cost` and none of the second costs less than `bound2`, whatever no plan of the first costs less
/// than, no plan of the second costs less than that and so many millionths as the line tells at first (`raises`). Where none of the first
/// costs less than `bound` and a plan of the second costs `cost2`, whatever no plan of the second costs less than, no plan of the first
/// costs less than that less the second number (`lowers`). So, where both data have a least cost, the second less the first is at least
/// and at most so many (`least`, `most`). Each data have their own places of written factors.
pub fn least_cost_laws()
    ensures raises { (places places2 : ℕ) (d d2 : Data) (cost bound2 bound : Rational) (z : ℤ)
        → IsCost places d cost → IsBound places2 d2 bound2 → at_least cost bound2 ≡ Some z
        → IsBound places d bound → IsBound places2 d2 (raised bound z) }
    ensures lowers { (places places2 : ℕ) (d d2 : Data) (bound cost2 bound2 : Rational) (z : ℤ)
        → IsBound places d bound → IsCost places2 d2 cost2 → at_most bound cost2 ≡ Some z
        → IsBound places2 d2 bound2 → IsBound places d (raised bound2 (neg_ℤ z)) }
    ensures least { (places places2 : ℕ) (d d2 : Data) (cost bound2 least least2 : Rational) (z : ℤ)
        → IsCost places d cost → IsBound places2 d2 bound2
        → IsLeastCost places d least → IsLeastCost places2 d2 least2
        → at_least cost bound2 ≡ Some z → IsAtMostDifference z least least2 }
    ensures most { (places places2 : ℕ) (d d2 : Data) (bound cost2 least least2 : Rational) (z : ℤ)
        → IsBound places d bound → IsCost places2 d2 cost2
        → IsLeastCost places d least → IsLeastCost places2 d2 least2
        → at_most bound cost2 ≡ Some z → IsAtLeastDifference z least least2 }
{}

/// The order of the greatest first: no change is greater than one before it, and those of one size are those that there were, in their
/// order.
pub fn order_laws()
    ensures falls { (changes : List Change) → Falls size_of_change (greatest_first size_of_change changes) }
    ensures same { (n : ℕ) (changes : List Change)
        → of_size size_of_change n (greatest_first size_of_change changes) ≡ of_size size_of_change n changes }
{}
