ghost use Rattle.std.proofs.Common.{rules};
ghost use Rattle.std.specs.Cmp.{partial_order_from_own_ties};
ghost use Rattle.std.specs.Cmp.Rules.{comparing};
ghost use Rattle.std.specs.Ordering.{on, int_eq, eq_of_both, as_partial_cmp};
ghost use Rattle.edm_values.specs.Instant.{instant, offset_of, moment_cmp};

use crate::Moment;
use std::cmp::Ordering;

impl PartialEq for Moment {
    ghost eq = { eq_of_both (on instant int_eq) (on offset_of int_eq) };

    ghost laws = { Prim.search (comparing, rules) };

    fn eq(&self, other: &Moment) -> bool {
        self.cmp(other) == Ordering::Equal
    }
}

impl Eq for Moment {
    ghost laws = { Prim.search (comparing, rules) };
}

impl Ord for Moment {
    ghost cmp = { moment_cmp };

    ghost total = { Prim.search (comparing, rules) };

    ghost matches_partial_cmp = { Prim.search (comparing, rules) };

    ghost matches_eq = { Prim.search (comparing, rules) };

    fn cmp(&self, other: &Moment) -> Ordering {
        let by_instant = self.instant_nanos().cmp(&other.instant_nanos());
        by_instant.then(self.offset_minutes().cmp(&other.offset_minutes()))
    }
}

impl PartialOrd for Moment {
    ghost partial_cmp = { as_partial_cmp moment_cmp };

    ghost laws = { partial_order_from_own_ties (Prim.search (comparing, rules))
        (Prim.search (comparing, rules)) };

    fn partial_cmp(&self, other: &Moment) -> Option<Ordering> {
        Some(self.cmp(other))
    }
}
