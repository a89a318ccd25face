// The host as the runners see it.
ghost use Rattle.std.specs.Prelude.{◌≡◌, ◌^◌, ◌<◌, ◌≤◌, IfSome, OnOk, OnErr, map, length, slice_get};
ghost use Rattle.image_file.specs.Format.{most_vcpus};
ghost use Rattle.host_events.specs.Hosting.{Hosting, started, after_serve, Leaves};
ghost use Rattle.event_table.specs.Turns.{turn_of};

use event_table::Turn;
use page_words::Words;
use std::alloc::AllocError as OutOfMemory;

/// A hypervisor that serves the pages of its vCPUs.
///
/// What a host tells of itself beside its number of vCPUs is optional, meaning by meaning: a meaning
/// that is told stays told, and one that isn't told stays untold.
pub trait Host: Drop {
    /// The number of vCPUs, the devices, the history, and the pages that were served.
    ghost told: { Self → Hosting };

    /// Starts anew for `count` vCPUs over an input: opened devices, an empty history and no pages.
    /// Refused, all is as before, and the input is dropped.
    fn start(&mut self, count: u16, input: Vec<u8>) -> Result<(), OutOfMemory>
        requires some { 1 ≤ count }
        requires few { count ≤ most_vcpus }
        ensures ok { OnOk result (told self.new ≡ started count input.items (told self.old)) }
        ensures err { OnErr result (told self.new ≡ told self.old) };

    /// Serves the page of a vCPU. Refused, the host and the page are as before.
    fn serve(&mut self, vcpu: u16, page: &mut Words) -> Result<(), OutOfMemory>
        requires known { vcpu < (told self.old).vcpus }
        ensures ok { OnOk result (told self.new ≡ after_serve vcpu page.old (told self.old)) }
        ensures page { OnOk result (Leaves vcpu page.old page.new (told self.old)) }
        ensures err { OnErr result (told self.new ≡ told self.old) }
        ensures err_page { OnErr result (page.new ≡ page.old) };

    /// What was put out so far.
    fn console(&self) -> &[u8]
        ensures bytes { IfSome (told self.now).devices (λ devices. result.now ≡ devices.console) };

    /// How many events were served: fewer than 2^63.
    fn turns(&self) -> u64
        ensures count { IfSome (told self.now).history (λ entries. result ≡ length entries) }
        ensures few { IfSome (told self.now).history (λ entries. length entries < 2 ^ 63) };

    /// The vCPU and the count of an event that was served; none exactly where the index isn't below `turns`.
    fn turn_at(&self, index: u64) -> Option<Turn>
        ensures turn { IfSome (told self.now).history (λ entries. result ≡ slice_get (map turn_of entries) index) };
}
