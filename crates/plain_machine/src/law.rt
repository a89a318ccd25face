// Laws of the plain machine.
ghost use Rattle.plain_machine.specs.Ends.{RunsUnterminated};
ghost use Rattle.plain_machine.specs.Plain.{RoundsRun};
ghost use Rattle.plain_machine.specs.Single.{EventsAreSingles};

/// An event done at once, as the two ends of a page do it, is its accesses one after another.
pub fn events_are_singles()
    ensures law { EventsAreSingles }
{}

/// The order of rounds has a plain run, and its history is legal.
pub fn rounds_run()
    ensures law { RoundsRun }
{}

/// No vCPU of a plain run ends by a termination of its communication with a host, along any order.
pub fn runs_unterminated()
    ensures law { RunsUnterminated }
{}
