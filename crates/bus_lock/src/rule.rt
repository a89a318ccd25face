// The rule of the lock's table.
use crate::View;
use atomic_table::{Seat, Shared, Table, TableRule};
use host_events::Host;
use std::alloc::Global;
use std::snapshot::Snapshot;

/// The rule over the history that the host tells, and over what each pass knows of it.
pub struct Law;

impl<H: Host> TableRule<Option<H>, View, Snapshot<H>> for Law {
    ghost use Rattle.bus_lock.specs.Rule.{Kept, input_of};
    ghost use Rattle.bus_lock.specs.Views.{first_view};

    ghost holds = { λ key. Kept H.told (H.told key.value).vcpus (input_of (H.told key.value).devices) };

    ghost first = { λ key. first_view (H.told key.value).vcpus (input_of (H.told key.value).devices) };
}

/// The table: two words, and the slot with the host.
pub type Board<H> = Table<Option<H>, View, Snapshot<H>, Law, Global>;

/// The table as its seats see it.
pub type Top<H> = Shared<Option<H>, View, Snapshot<H>, Law>;

/// A seat at the table.
pub type Place<H> = Seat<Option<H>, View>;

/// The word with the length of the history.
pub const COUNT: usize = 0;

/// The word that says where the host is: `HOME` or `OUT`.
pub const LOCK: usize = 1;

/// The host is in its slot.
pub const HOME: u64 = 0;

/// A turn has the host.
pub const OUT: u64 = 1;

/// The slot with the host.
pub const HOST: usize = 0;
