// What the lines have said so far.
ghost use Rattle.std.specs.Prelude.{◌<◌, ◌≤◌};
ghost use Rattle.image_file.specs.Format.{most_vcpus};

use crate::served::Served;
use both_ends::exchange;
use event_table::{Access, Event, Outcome, Values};
use host_events::{Host, Hypervisor, Request, event_in, read_request};
use image_file::MOST_VCPUS;
use page_words::{Page, Words};
use show_text::{page_from_hex, word_from_hex};
use std::alloc::{AllocError, Global};

/// A page, its MSR word, and over what it is to be served.
#[derive(Drop)]
pub struct Desk {
    vcpus: u16,
    input: Vec<u8>,
    page: Words,
}

impl Desk {
    /// A page of zeros, for one vCPU without input.
    pub fn new(alloc: Global) -> Desk {
        Desk {
            vcpus: 1,
            input: Vec::new(alloc),
            page: Words::new(),
        }
    }

    /// What a line is answered: the text of a served page, nothing, or that the line can't be read.
    pub fn answer(&mut self, alloc: Global, line: &str) -> Result<String, AllocError> {
        let (name, value) = line.split_once(' ').unwrap_or((line, ""));
        let is_read = match name {
            "vcpus" => self.read_vcpus(value),
            "input" => self.read_input(alloc, value),
            "page" => self.read_page(value),
            "msr" => self.read_msr(value),
            "vcpu" => {
                return match value.parse::<u16>() {
                    Ok(vcpu) if vcpu < self.vcpus && self.vcpus <= MOST_VCPUS => self.serve(
                        alloc, vcpu,
                    ),
                    _ => String::from_str(alloc, "bad line\n"),
                };
            }
            _ => false,
        };
        String::from_str(alloc, if is_read { "" } else { "bad line\n" })
    }

    /// Reads the number of vCPUs; whether it is one.
    fn read_vcpus(&mut self, value: &str) -> bool {
        match value.parse::<u16>() {
            Ok(vcpus) => {
                self.vcpus = vcpus;
                true
            }
            Err(_) => false,
        }
    }

    /// Reads the input's bytes; whether they are bytes.
    fn read_input(&mut self, alloc: Global, value: &str) -> bool {
        match hex::decode(alloc, value) {
            Ok(input) => {
                self.input = input;
                true
            }
            Err(_) => false,
        }
    }

    /// Reads the page; its MSR word stays.
    fn read_page(&mut self, value: &str) -> bool {
        match page_from_hex(value.as_bytes()) {
            Some(mut page) => {
                page.set_msr(self.page.msr_word());
                self.page = page;
                true
            }
            None => false,
        }
    }

    /// Reads the MSR word; whether it is one.
    fn read_msr(&mut self, value: &str) -> bool {
        match word_from_hex(value.as_bytes()) {
            Some(word) => {
                self.page.set_msr(word);
                true
            }
            None => false,
        }
    }

    /// Serves the page for a vCPU over opened devices: the text of what became of it.
    fn serve(&mut self, alloc: Global, vcpu: u16) -> Result<String, AllocError>
        requires known { vcpu < self.old.vcpus }
        requires few { self.old.vcpus ≤ most_vcpus }
    {
        let mut host = Hypervisor::new(alloc);
        host.start(self.vcpus, self.input.clone()?)?;
        let before = self.page.clone()?;
        host.serve(vcpu, &mut self.page)?;
        let event = match read_request(vcpu, &before) {
            Request::Asked(kind) => Some(event_in(&before, &kind)),
            _ => None,
        };
        let entry = match (host.turn_at(0), &event) {
            (Some(turn), Some(event)) => Some((turn.vcpu, event)),
            _ => None,
        };
        let accesses = accesses(vcpu, &mut host)?;
        let served = Served {
            before: &before,
            left: &self.page,
            entry,
            accesses,
            console: host.console(),
        };
        format!(in alloc; "{served}")
    }
}

/// How many accesses a host has served, which the vCPU asks of performance counter 0 over a page of its own.
fn accesses(vcpu: u16, host: &mut Hypervisor) -> Result<u64, AllocError>
    requires known { vcpu < host.old.vcpus }
    requires few { vcpu < most_vcpus }
{
    let event = Event::One(Access::Rdpmc { index: 0 });
    Ok(match exchange(vcpu, &event, &mut Words::new(), host)? {
        Outcome::Done(reply) => whole(&reply.values),
        _ => 0,
    })
}

/// The number whose halves stand in RAX and RDX.
fn whole(values: &Values) -> u64 {
    values.d << 32 | values.a
}
