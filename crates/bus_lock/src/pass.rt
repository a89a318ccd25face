// What a thread carries.
use crate::View;
use atomic_table::Badge;
use std::marker::Model;

/// A right to take turns with a lock's host, and what its holder knows of the history. It has no bytes, and may move to
/// another thread.
///
/// Contracts see its `view`: its `share` of the 1,024 that there are, the numbers of its `own` entries, the history as
/// far as it is `known`, and the greatest length of it that was `reached`.
#[derive(Drop)]
pub struct Pass {
    pub(crate) badge: Badge<View>,
}

impl Model for Pass {
    ghost use Rattle.std.specs.Prelude.{◌≡◌, ◌<◌, [], ◌∷◌, None};
    ghost use Rattle.bus_lock.specs.Carried.{Carried, view_in};

    ghost Value = { Carried };

    ghost view = { λ p. record { table = p.badge.table_id; id = p.badge.id; view = view_in p.badge.views } };

    ghost invariant = { λ p.
        (p.badge.views ≡ view_in p.badge.views ∷ [])
        × ((view_in p.badge.views).held ≡ None) × (0 < (view_in p.badge.views).share) };
}
