// A host that is moved in few bytes.
ghost use Rattle.std.specs.Prelude.{◌≡◌, IfOk, IfErr};

use event_table::Turn;
use host_events::Host;
use page_words::Words;
use std::alloc::{AllocError as OutOfMemory, AllocFailed, Global};

/// A host in a box. A turn moves the host out of its slot and back, and so moves a pointer in place of all its devices.
#[derive(Drop)]
pub struct Boxed<H: Host> {
    pub host: Box<H>,
}

impl<H: Host> Boxed<H> {
    /// Puts a host into a box. Out of memory, it comes back.
    pub fn new(alloc: Global, host: H) -> Result<Boxed<H>, H>
        ensures ok { IfOk result (λ boxed. boxed.host.value ≡ host) }
        ensures err { IfErr result (λ h. h ≡ host) }
    {
        match Box::new(alloc, host) {
            Ok(host) => Ok(Boxed { host }),
            Err(failed) => {
                let AllocFailed { value } = failed;
                Err(value)
            }
        }
    }

    /// Takes the host out of its box.
    pub fn into_host(self) -> H
        ensures host { result ≡ self.host.value }
    {
        let Boxed { host } = self;
        Box::into_inner(host)
    }
}

impl<H: Host> Host for Boxed<H> {
    ghost told = { λ b. H.told b.host.value };

    fn start(&mut self, count: u16, input: Vec<u8>) -> Result<(), OutOfMemory> {
        self.host.start(count, input)
    }

    fn serve(&mut self, vcpu: u16, page: &mut Words) -> Result<(), OutOfMemory> {
        self.host.serve(vcpu, page)
    }

    fn console(&self) -> &[u8] {
        self.host.console()
    }

    fn turns(&self) -> u64 {
        self.host.turns()
    }

    fn turn_at(&self, index: u64) -> Option<Turn> {
        self.host.turn_at(index)
    }
}
