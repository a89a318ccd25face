// What holds at the lock's table between any two steps.
ghost use Rattle.bus_lock.specs.Parts.{EachNumberOnce, HoldsWhileOut, Implies, LegalWhileHome};
ghost use Rattle.bus_lock.specs.Parts.{NumbersAreKnown, OneBegins, ReachesBetween, SharesAddUp};
ghost use Rattle.std.specs.Prelude.{ℕ, List};

use host_events::Host;

/// The rule of the table has these seven parts.
pub fn rule_has_its_parts<H: Host>()
    ensures beginnings { Implies H.told (λ vcpus input. OneBegins) }
    ensures reached { Implies H.told (λ vcpus input. ReachesBetween) }
    ensures shares { Implies H.told (λ vcpus input. SharesAddUp) }
    ensures numbers { Implies H.told (λ vcpus input. EachNumberOnce) }
    ensures own { Implies H.told (λ vcpus input. NumbersAreKnown) }
    ensures out { Implies H.told (λ vcpus input. HoldsWhileOut) }
    ensures home { Implies H.told (LegalWhileHome H.told) }
{}
