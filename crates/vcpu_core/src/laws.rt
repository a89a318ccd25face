// How much room an event needs.
ghost use Rattle.vcpu_core.specs.Few.{FewItems};

/// One event makes fewer than 320 items: its wire form, the loads of its reply and a termination's exit
/// together.
pub fn few_items()
    ensures law { FewItems }
{}
