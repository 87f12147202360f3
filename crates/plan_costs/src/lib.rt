//! What a plan costs, said twice: the sum of TotalDiscountedCost over regions and years, as the named equations have it, and the sum
//! over all variables of what each has in the cost of the rows, as the checker forms it. A law, in `proofs/`: they are the same.
#![tactic(auto)]
