// A host that keeps the pages that it was given.
ghost use Rattle.std.specs.Prelude.{◌≡◌, [], map};
ghost use Rattle.host_events.specs.Watched.{given_of};

use crate::Host;
use event_table::Turn;
use page_words::Words;
use std::alloc::{AllocError as OutOfMemory, Global};
use std::marker::Model;

/// A host that is watched. Each call is passed on, and each page that was served is kept as it was handed
/// in, with the number of its vCPU. It tells what its host tells, and the pages beside.
#[derive(Drop)]
pub struct Watch<H: Host> {
    host: H,
    pages: Vec<(u16, Words)>,
}

impl<H: Host> Model for Watch<H> {
    ghost use Rattle.std.specs.Prelude.{map};
    ghost use Rattle.host_events.specs.Watched.{Watched, given_of};

    ghost Value = { Watched H };

    ghost view = { λ w. record { host = w.host; pages = map given_of w.pages.items } };
}

impl<H: Host> Watch<H> {
    /// Watches a host from now on.
    pub fn new(alloc: Global, host: H) -> Watch<H>
        ensures watched { result ≡ record { host = host; pages = [] } }
    {
        Watch {
            host,
            pages: Vec::new(alloc),
        }
    }

    /// The pages that were served since the last start, each with the number of its vCPU.
    pub fn pages(&self) -> &[(u16, Words)]
        ensures pages { map given_of result.now ≡ self.now.pages }
    {
        &self.pages
    }
}

impl<H: Host> Host for Watch<H> {
    ghost use Rattle.host_events.specs.Watched.{watching};

    ghost told = { watching H.told };

    fn start(&mut self, count: u16, input: Vec<u8>) -> Result<(), OutOfMemory> {
        self.host.start(count, input)?;
        self.pages.clear();
        Ok(())
    }

    fn serve(&mut self, vcpu: u16, page: &mut Words) -> Result<(), OutOfMemory> {
        // The memory is taken first: refused, the host wasn't asked.
        self.pages.reserve(1)?;
        let given = page.clone()?;
        self.host.serve(vcpu, page)?;
        self.pages.push_reserved((vcpu, given));
        Ok(())
    }

    fn console(&self) -> &[u8] {
        self.host.console()
    }

    fn turns(&self) -> u64 {
        self.host.turns()
    }

    fn turn_at(&self, index: u64) -> Option<Turn> {
        self.host.turn_at(index)
    }
}

#[cfg(test)]
mod tests {
    use super::*;
    use crate::Hypervisor;
    use std::test::Fail;

    /// The question for the versions, and what answers it.
    const QUESTION: u64 = 0x002;

    const VERSIONS: u64 = 0x0001_0001_3300_0001;

    #[test]
    fn each_page_is_kept_as_it_was_handed_in(rt: HostRuntime) -> Result<(), Fail> {
        let mut watch = Watch::new(rt.alloc(), Hypervisor::new(rt.alloc()));
        assert!(rt; watch.pages().is_empty());
        watch.start(2, Vec::new(rt.alloc()))?;
        let mut first = Words::new();
        first.set_msr(QUESTION);
        watch.serve(1, &mut first)?;
        let mut second = Words::new();
        second.set_msr(QUESTION);
        watch.serve(0, &mut second)?;
        assert_eq!(rt; (first.msr_word(), second.msr_word()), (VERSIONS, VERSIONS));
        let pages = watch.pages();
        assert_eq!(rt; pages.len(), 2);
        assert_eq!(rt; (pages[0].0, pages[0].1.msr_word()), (1, QUESTION));
        assert_eq!(rt; (pages[1].0, pages[1].1.msr_word()), (0, QUESTION));
        // No event was asked for.
        assert_eq!(rt; watch.turns(), 0);
        watch.start(1, Vec::new(rt.alloc()))?;
        assert!(rt; watch.pages().is_empty());
        Ok(())
    }

    fn crosses<T: Send>(value: T) -> T
        ensures { result ≡ value }
    {
        value
    }

    fn is_shared<T: Sync>(_: &T) {}

    #[test]
    fn hosts_go_to_another_thread(rt: HostRuntime) {
        let host = crosses(Hypervisor::new(rt.alloc()));
        is_shared(&host);
        let watch = crosses(Watch::new(rt.alloc(), host));
        is_shared(&watch);
        assert!(rt; watch.pages().is_empty());
    }
}
