//! The order of subscripts, by their fields as they stand. It is written out, and not derived, since sorting and merging
//! ask for it at every step: a field that differs ends the comparison at once.

ghost use Rattle.std.proofs.Common.{rules};
ghost use Rattle.std.specs.Cmp.{partial_order_from_own_ties, partial_order_from_total};
ghost use Rattle.std.specs.Cmp.Rules.{comparing};
ghost use Rattle.std.specs.Ordering.{as_partial_cmp};
ghost use Rattle.row_core.specs.Order.{index_cmp};
ghost use Rattle.row_core.specs.OrderLaws.{index_cmp_total};

use crate::Index;
use std::cmp::Ordering;

impl Ord for Index {
    ghost cmp = { index_cmp };

    ghost total = { index_cmp_total };

    ghost matches_partial_cmp = { Prim.search (comparing, rules) };

    ghost matches_eq = { Prim.search (comparing, rules) };

    fn cmp(&self, other: &Index) -> Ordering {
        if self.region != other.region {
            return self.region.cmp(&other.region);
        }
        if self.other != other.other {
            return self.other.cmp(&other.other);
        }
        if self.slice != other.slice {
            return self.slice.cmp(&other.slice);
        }
        if self.tech != other.tech {
            return self.tech.cmp(&other.tech);
        }
        if self.fuel != other.fuel {
            return self.fuel.cmp(&other.fuel);
        }
        if self.emission != other.emission {
            return self.emission.cmp(&other.emission);
        }
        if self.mode != other.mode {
            return self.mode.cmp(&other.mode);
        }
        self.year.cmp(&other.year)
    }
}

impl PartialOrd for Index {
    ghost partial_cmp = { as_partial_cmp index_cmp };

    ghost laws = { partial_order_from_own_ties (partial_order_from_total index_cmp_total) (Prim.search (comparing, rules)) };

    fn partial_cmp(&self, other: &Index) -> Option<Ordering> {
        Some(self.cmp(other))
    }
}
