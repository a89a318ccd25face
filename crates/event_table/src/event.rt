// What a guest shows the host in one exit.
ghost use Rattle.std.specs.Prelude.{◌≡◌};
ghost use Rattle.event_table.specs.Lawful.{count_of};
ghost use Rattle.event_table.specs.declared.event.Event.TheVariants as event;

use crate::{Access, Block};

/// What one exit asks for: an access, or a block of them. It is lawful where its access or its block is.
#[derive(Drop)]
pub enum Event {
    One(Access),
    Many(Block),
}

impl Event {
    /// How many accesses it is.
    pub fn count(&self) -> u16
        ensures count { result ≡ count_of self.now }
    {
        match self {
            Event::One(_) => 1,
            Event::Many(block) => block.count,
        }
    }

    /// Puts an access in its place. After an event of one access only the access is written, and no room
    /// for a block's bytes.
    #[inline(always)]
    pub fn set_access(&mut self, access: Access)
        ensures value { self.new ≡ event.One access }
    {
        match self {
            Event::One(kept) => *kept = access,
            Event::Many(_) => *self = Event::One(access),
        }
    }
}
