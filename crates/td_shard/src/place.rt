//! Where records are kept.
ghost use Rattle.std.specs.Prelude.{◌≡◌, refl};
ghost use Rattle.std.specs.Ordering.{as_partial_cmp, eq_by_cmp};
ghost use Rattle.std.specs.Cmp.{partial_equiv_from_equiv, partial_order_from_total};
ghost use Rattle.td_shard.specs.Seen.{place_cmp};
ghost use Rattle.td_shard.specs.ProvedOrders.{place_total, place_equiv};

use std::cmp::Ordering;
use td_stamp::Time;

/// A vertex and a time. Places are ordered by vertex, then by epoch, then by counters as a list from the outermost.
#[derive(Debug, Drop)]
pub(crate) struct Place {
    pub vertex: u8,
    pub time: Time,
}

impl PartialEq for Place {
    ghost eq = { eq_by_cmp place_cmp };

    ghost laws = { partial_equiv_from_equiv place_equiv };

    fn eq(&self, other: &Place) -> bool {
        self.cmp(other).is_eq()
    }
}

impl Eq for Place {
    ghost laws = { place_equiv };
}

impl PartialOrd for Place {
    ghost partial_cmp = { as_partial_cmp place_cmp };

    ghost laws = { partial_order_from_total place_total };

    fn partial_cmp(&self, other: &Place) -> Option<Ordering> {
        Some(self.cmp(other))
    }
}

impl Ord for Place {
    ghost cmp = { place_cmp };

    ghost total = { place_total };

    ghost matches_partial_cmp = { λ p q. refl };

    ghost matches_eq = { λ p q. refl };

    fn cmp(&self, other: &Place) -> Ordering {
        let vertices = self.vertex.cmp(&other.vertex);
        vertices.then(self.time.total_cmp(&other.time))
    }
}
