// A host that keeps its devices and its history.
ghost use Rattle.std.specs.Prelude.{◌≡◌, ◌<◌, ◌⊎◌, [], OnOk, OnErr};
ghost use Rattle.page_words.specs.Told.{kept_after_all};
ghost use Rattle.event_table.specs.Lawful.{IsKind, IsOfRegisters};
ghost use Rattle.device_bus.specs.Devices.{opening};
ghost use Rattle.host_events.specs.Hypervised.{after_asked, telling};
ghost use Rattle.host_events.specs.Reading.{IsMmio, IsString, event_in, word_in};
ghost use Rattle.host_events.specs.Served.{reply};

use crate::event::{access_in, block_in, is_string};
use crate::history::History;
use crate::reading::read_request;
use crate::reply::{cpuid_response, sev_info, store_buffer_reply, store_refusal, store_reply};
use crate::{Host, Request};
use device_bus::{Bus, block_bytes};
use event_table::{Kind, Turn};
use page_words::Words;
use std::alloc::{AllocError as OutOfMemory, Global};
use std::marker::Model;

/// A hypervisor over a bus of devices. It tells its devices and its history, and not the pages.
#[derive(Drop)]
pub struct Hypervisor {
    vcpus: u16,
    bus: Bus,
    history: History,
}

impl Model for Hypervisor {
    ghost use Rattle.std.specs.Prelude.{◌≡◌, ◌≤◌};
    ghost use Rattle.image_file.specs.Format.{most_vcpus};
    ghost use Rattle.host_events.specs.Hypervised.{Hypervised};

    ghost Value = { Hypervised };

    ghost view = { λ h. record { vcpus = h.vcpus; devices = h.bus.devices; history = h.history } };

    ghost invariant = { λ h. (h.vcpus ≤ most_vcpus) × (h.bus.devices.vcpus ≡ h.vcpus) };
}

impl Hypervisor {
    /// A hypervisor of no vCPU: none can be served until it is started.
    pub fn new(alloc: Global) -> Hypervisor
        ensures idle { result ≡ record { vcpus = 0; devices = opening 0 []; history = [] } }
    {
        Hypervisor {
            vcpus: 0,
            bus: Bus::new(alloc),
            history: History::new(alloc),
        }
    }

    /// Serves a page that asks for an access. The memory is taken before anything changes.
    fn serve_access(&mut self, vcpu: u16, kind: &Kind, page: &mut Words) -> Result<(), OutOfMemory>
        requires known { vcpu < self.old.vcpus }
        requires lawful { IsKind kind.now }
        requires access { IsOfRegisters kind.now ⊎ IsMmio kind.now }
        ensures ok { OnOk result (self.new ≡ after_asked vcpu (event_in (word_in page.old) kind.now) self.old) }
        ensures page { let event = event_in (word_in page.old) kind.now in
            OnOk result (page.new ≡ kept_after_all page.old (reply self.old.devices vcpu event)) }
        ensures err { OnErr result (self.new ≡ self.old) }
        ensures err_page { OnErr result (page.new ≡ page.old) }
    {
        let access = access_in(page, kind);
        self.bus.reserve(1)?;
        self.history.push_access(vcpu, &access)?;
        let answer = self.bus.access(vcpu, &access);
        store_reply(&access, &answer, page);
        Ok(())
    }

    /// Serves a page that asks for a block. The memory is taken before anything changes.
    #[inline(never)]
    fn serve_block(&mut self, vcpu: u16, kind: Kind, page: &mut Words) -> Result<(), OutOfMemory>
        requires known { vcpu < self.old.vcpus }
        requires lawful { IsKind kind }
        requires string { IsString kind }
        ensures ok { OnOk result (self.new ≡ after_asked vcpu (event_in (word_in page.old) kind) self.old) }
        ensures page { let event = event_in (word_in page.old) kind in
            OnOk result (page.new ≡ kept_after_all page.old (reply self.old.devices vcpu event)) }
        ensures err { OnErr result (self.new ≡ self.old) }
        ensures err_page { OnErr result (page.new ≡ page.old) }
    {
        let block = block_in(page, &kind);
        self.bus.reserve(usize::from(block.count))?;
        self.history.push_block(vcpu, &block)?;
        let bytes = block_bytes(&mut self.bus, vcpu, &block);
        store_buffer_reply(bytes.as_slice(), page);
        Ok(())
    }
}

impl Host for Hypervisor {
    ghost told = { telling };

    fn start(&mut self, count: u16, input: Vec<u8>) -> Result<(), OutOfMemory> {
        self.bus.start(count, input)?;
        self.vcpus = count;
        self.history.clear();
        Ok(())
    }

    fn serve(&mut self, vcpu: u16, page: &mut Words) -> Result<(), OutOfMemory> {
        // By the invariant there are few vCPUs.
        let _ = &self.vcpus;
        match read_request(vcpu, page) {
            Request::Nothing => {}
            Request::SevInfo => page.set_msr(sev_info()),
            Request::Cpuid { function, register } => {
                page.set_msr(cpuid_response(vcpu, function, register));
            }
            Request::Malformed(_) => store_refusal(page),
            Request::Asked(kind) if is_string(&kind) => self.serve_block(vcpu, kind, page)?,
            Request::Asked(kind) => self.serve_access(vcpu, &kind, page)?,
        }
        Ok(())
    }

    fn console(&self) -> &[u8] {
        self.bus.console()
    }

    fn turns(&self) -> u64 {
        self.history.len()
    }

    fn turn_at(&self, index: u64) -> Option<Turn> {
        self.history.turn(index)
    }
}
