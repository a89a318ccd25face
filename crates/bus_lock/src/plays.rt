// What each step at the table tells, and how views are cut and put together.
ghost use Rattle.bus_lock.specs.Plays.{Counts, Gives, Meets, Settles, Takes};
ghost use Rattle.bus_lock.specs.Views.{both, fresh, one_less, spent};

use crate::View;
use atomic_table::{Join, Play, Split};
use host_events::Host;

/// The host is taken, where it is home.
pub struct Take;

impl<H: Host> Play<Option<H>, View> for Take {
    ghost then = { Takes H.told };
}

/// The entry that the host in the slot has gained is counted.
pub struct Count;

impl<H: Host> Play<Option<H>, View> for Count {
    ghost then = { Counts H.told };
}

/// The host is given back.
pub struct Give;

impl<S> Play<S, View> for Give {
    ghost then = { Gives };
}

/// The count is met.
pub struct Meet;

impl<S> Play<S, View> for Meet {
    ghost then = { Meets };
}

/// After a join: one history begins the other.
pub struct Settle;

impl<S> Play<S, View> for Settle {
    ghost then = { Settles };
}

/// One share goes to a new pass.
pub struct Halve;

impl Split<View> for Halve {
    ghost left = { one_less };

    ghost right = { fresh };
}

/// Two passes become one.
pub struct Glue;

impl Join<View> for Glue {
    ghost both = { both };

    ghost spent = { spent };
}
