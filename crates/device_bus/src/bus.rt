// The devices.
ghost use Rattle.std.specs.Prelude.{◌≡◌, ◌≤◌, ◌<◌, ◌*◌, ◌^◌, [], length, OnOk, OnErr};
ghost use Rattle.std.specs.List.{range_with_len};
ghost use Rattle.image_file.specs.Format.{most_vcpus};
ghost use Rattle.event_table.specs.Lawful.{IsInPage, IsLawfulAccess, IsSize};
ghost use Rattle.device_bus.specs.Devices.{blank, page_number, with_page_number};
ghost use Rattle.device_bus.specs.Devices.{after_access, answer as answer_of, hypercall as hypercall_of, in_reply, next_byte, opening, out_reply, rdmsr_answer, rdpmc_answer, device_reply as reply_of, console_status as status_of, without_next_byte, wrmsr_reply};

use crate::answer::{Answer, in_edx_eax, in_rax, no_result, raise_gp};
use crate::cpuid::cpuid;
use crate::msr::{TSC, TSC_AUX, clock, is_scratch_msr, scratch_place};
use crate::port::{all_ones, is_data, is_mailbox, is_status, mailbox};
use event_table::{Access, PAGE_START};
use image_file::{MOST_VCPUS, read_number, write_number};
use std::alloc::{AllocError as OutOfMemory, Global};
use std::marker::Model;

/// The most vCPUs that the devices can have.
const VCPUS: usize = MOST_VCPUS as usize;

/// The four words of each vCPU.
const SCRATCH: usize = 4 * VCPUS;

/// How many bytes the page of devices has.
const PAGE_SIZE: usize = 4096;

/// A console with an input, a clock that counts accesses, eight mailboxes and a page of bytes that all
/// vCPUs share, and for each vCPU TSC_AUX and four words.
#[derive(Drop)]
pub struct Bus {
    vcpus: u16,
    console: Vec<u8>,
    input: Vec<u8>,
    taken: usize,
    time: u64,
    mailboxes: [u32; 8],
    tsc_aux: [u32; VCPUS],
    scratch: [u64; SCRATCH],
    page: [u8; PAGE_SIZE],
    spare: usize,
}

impl Model for Bus {
    ghost use Rattle.std.specs.Prelude.{◌+◌, ◌≤◌, drop, vec_len, vec_capacity};
    ghost use Rattle.image_file.specs.Format.{most_vcpus};
    ghost use Rattle.device_bus.specs.Devices.{Bussed};

    ghost Value = { Bussed };

    ghost view = { λ b. record {
      devices = record {
        vcpus = b.vcpus;
        console = b.console.items;
        input = drop b.taken b.input.items;
        time = b.time;
        mailboxes = b.mailboxes;
        tsc_aux = b.tsc_aux;
        scratch = b.scratch;
        page = b.page;
      };
      spare = b.spare;
    } };

    ghost invariant = { λ b. (b.vcpus ≤ most_vcpus) × (b.taken ≤ vec_len b.input) ×
        (b.spare + vec_len b.console ≤ vec_capacity b.console) };
}

/// TSC_AUX of each vCPU as it opens: the vCPU's number.
fn numbers() -> [u32; VCPUS]
    ensures value { result ≡ range_with_len 0 most_vcpus }
{
    let mut numbers = [0; VCPUS];
    for (vcpu, number) in numbers.iter_mut().enumerate() {
        *number = vcpu as u32;
    }
    numbers
}

/// The number in the bytes of the page from an address on, the lowest first.
fn read_page(page: &[u8], at: u64, len: u8) -> u64
    requires lawful { IsInPage at len }
    requires whole { length page.now ≡ 4096 }
    ensures value { result ≡ page_number page.now at len }
{
    read_number(page, (at - PAGE_START) as usize, len)
}

/// A page of zeros.
fn blank_page() -> [u8; PAGE_SIZE]
    ensures value { result ≡ blank }
{
    [0; PAGE_SIZE]
}

impl Bus {
    ghost use Rattle.std.specs.Prelude.{◌+◌};

    /// Devices of no vCPU, with nothing read or written, and room for no access.
    pub fn new(alloc: Global) -> Bus
        ensures opening { result ≡ record { devices = opening 0 []; spare = 0 } }
    {
        Bus {
            vcpus: 0,
            console: Vec::new(alloc),
            input: Vec::new(alloc),
            taken: 0,
            time: 0,
            mailboxes: [0; 8],
            tsc_aux: numbers(),
            scratch: [0; SCRATCH],
            page: blank_page(),
            spare: 0,
        }
    }

    /// Opens the devices for so many vCPUs over this input. Refused, all is as before, and the input is dropped.
    pub fn start(&mut self, count: u16, input: Vec<u8>) -> Result<(), OutOfMemory>
        requires some { 1 ≤ count }
        requires few { count ≤ most_vcpus }
        ensures ok { OnOk result (self.new ≡ record { devices = opening count input.items; spare = 0 }) }
        ensures err { OnErr result (self.new ≡ self.old) }
    {
        self.spare = 0;
        self.console.clear();
        self.vcpus = count;
        self.taken = 0;
        self.input = input;
        self.time = 0;
        self.mailboxes = [0; 8];
        self.tsc_aux = numbers();
        self.scratch = [0; SCRATCH];
        self.page = blank_page();
        Ok(())
    }

    /// Makes room for so many accesses, of which each puts out a byte at most. Refused, all is as before.
    pub fn reserve(&mut self, bytes: usize) -> Result<(), OutOfMemory>
        ensures ok { OnOk result (bytes ≤ self.new.spare) }
        ensures devices { self.new.devices ≡ self.old.devices }
        ensures err { OnErr result (self.new ≡ self.old) }
    {
        self.console.reserve(bytes)?;
        if self.spare < bytes {
            self.spare = bytes;
        }
        Ok(())
    }

    /// Takes the next byte of the input; 0 where none is left.
    fn take(&mut self) -> u64
        ensures value { result ≡ next_byte self.old.devices.input }
        ensures after { self.new ≡ record self.old { devices = without_next_byte self.old.devices } }
    {
        if self.taken < self.input.len() {
            let byte = self.input[self.taken];
            self.taken += 1;
            u64::from(byte)
        } else {
            0
        }
    }

    /// The console's status.
    fn status(&self) -> u64
        ensures value { result ≡ status_of self.now.devices.input }
    {
        if self.taken == self.input.len() {
            0x60
        } else {
            0x61
        }
    }

    /// Where there is no device, the value is lost.
    #[inline(always)]
    fn out(&mut self, port: u16, size: u8, value: u32) -> Answer
        requires fits { value < 2 ^ (8 * size) }
        requires room { 1 ≤ self.old.spare }
        ensures answer { result ≡ (out_reply self.old.devices port size value).0 }
        ensures devices { self.new.devices ≡ (out_reply self.old.devices port size value).1 }
        ensures room { self.old.spare ≤ self.new.spare + 1 }
    {
        if is_data(port, size) {
            self.console.push_reserved(value as u8);
            self.spare -= 1;
        } else if is_mailbox(port, size) {
            self.mailboxes[mailbox(port)] = value;
        }
        no_result()
    }

    /// Where there is no device, all ones are read.
    fn input(&mut self, port: u16, size: u8) -> Answer
        requires size { IsSize size }
        ensures answer { result ≡ (in_reply self.old.devices port size).0 }
        ensures after { self.new ≡ record self.old { devices = (in_reply self.old.devices port size).1 } }
    {
        in_rax(if is_data(port, size) {
            self.take()
        } else if is_status(port, size) {
            self.status()
        } else if is_mailbox(port, size) {
            u64::from(self.mailboxes[mailbox(port)])
        } else {
            all_ones(size)
        })
    }

    /// RDMSR.
    fn rdmsr(&self, vcpu: u16, msr: u32) -> Answer
        requires few { vcpu < most_vcpus }
        ensures answer { result ≡ rdmsr_answer self.now.devices vcpu msr }
    {
        if msr == TSC {
            in_edx_eax(clock(self.time), 0)
        } else if msr == TSC_AUX {
            in_rax(u64::from(self.tsc_aux[usize::from(vcpu)]))
        } else if is_scratch_msr(msr) {
            in_edx_eax(self.scratch[scratch_place(vcpu, msr)], 0)
        } else {
            raise_gp()
        }
    }

    /// WRMSR.
    fn wrmsr(&mut self, vcpu: u16, msr: u32, low: u32, high: u32) -> Answer
        requires few { vcpu < most_vcpus }
        ensures answer { result ≡ (wrmsr_reply self.old.devices vcpu msr low high).0 }
        ensures after { self.new ≡ record self.old { devices = (wrmsr_reply self.old.devices vcpu msr low high).1 } }
    {
        if msr == TSC_AUX && high == 0 {
            self.tsc_aux[usize::from(vcpu)] = low;
            no_result()
        } else if is_scratch_msr(msr) {
            self.scratch[scratch_place(vcpu, msr)] = u64::from(high) << 32 | u64::from(low);
            no_result()
        } else {
            raise_gp()
        }
    }

    /// RDPMC: counter 0 counts accesses, and there is no other.
    fn rdpmc(&self, index: u32) -> Answer
        ensures answer { result ≡ rdpmc_answer self.now.devices index }
    {
        if index == 0 {
            in_edx_eax(self.time, 0)
        } else {
            raise_gp()
        }
    }

    /// What VMMCALL reads: 0 asks for the number of vCPUs, 1 for the caller's own number.
    fn hypercall(&self, vcpu: u16, rax: u64) -> u64
        ensures value { result ≡ hypercall_of self.now.devices vcpu rax }
    {
        match rax {
            0 => u64::from(self.vcpus),
            1 => u64::from(vcpu),
            _ => u64::MAX,
        }
    }

    /// Writes the low bytes of a value to the page, the lowest first.
    fn write_page(&mut self, at: u64, len: u8, value: u64)
        requires lawful { IsInPage at len }
        ensures after { self.new ≡ record self.old { devices = with_page_number self.old.devices at len value } }
    {
        write_number(&mut self.page, (at - PAGE_START) as usize, len, value);
    }

    /// One access, but the clock stands.
    #[inline(always)]
    fn reply(&mut self, vcpu: u16, access: &Access) -> Answer
        requires few { vcpu < most_vcpus }
        requires lawful { IsLawfulAccess access.now }
        requires room { 1 ≤ self.old.spare }
        ensures answer { result ≡ (reply_of self.old.devices vcpu access.now).0 }
        ensures devices { self.new.devices ≡ (reply_of self.old.devices vcpu access.now).1 }
        ensures room { self.old.spare ≤ self.new.spare + 1 }
    {
        match *access {
            Access::Out { port, size, value } => self.out(port, size, value),
            Access::In { port, size } => self.input(port, size),
            Access::Rdtsc => in_edx_eax(clock(self.time), 0),
            Access::Rdtscp => in_edx_eax(
                clock(self.time),
                u64::from(self.tsc_aux[usize::from(vcpu)]),
            ),
            Access::Rdmsr { msr } => self.rdmsr(vcpu, msr),
            Access::Wrmsr { msr, low, high } => self.wrmsr(vcpu, msr, low, high),
            Access::Rdpmc { index } => self.rdpmc(index),
            Access::Cpuid { leaf, sub } => Answer::Done(cpuid(vcpu, leaf, sub)),
            Access::Vmmcall { rax } => in_rax(self.hypercall(vcpu, rax)),
            Access::Wbinvd => no_result(),
            Access::MmioRead { at, len } => in_rax(read_page(&self.page, at, len)),
            Access::MmioWrite { at, len, value } => {
                self.write_page(at, len, value);
                no_result()
            }
        }
    }

    /// One access of a vCPU. It takes no memory, and at most one of the room.
    #[inline(always)]
    pub fn access(&mut self, vcpu: u16, access: &Access) -> Answer
        requires vcpu { vcpu < self.old.devices.vcpus }
        requires lawful { IsLawfulAccess access.now }
        requires room { 1 ≤ self.old.spare }
        ensures answer { result ≡ answer_of self.old.devices vcpu access.now }
        ensures devices { self.new.devices ≡ after_access self.old.devices vcpu access.now }
        ensures vcpus { self.new.devices.vcpus ≡ self.old.devices.vcpus }
        ensures room { self.old.spare ≤ self.new.spare + 1 }
    {
        // By the invariant there are few vCPUs.
        let _ = &self.vcpus;
        let answer = self.reply(vcpu, access);
        self.time = self.time.wrapping_add(1);
        answer
    }

    /// What was put out so far.
    pub fn console(&self) -> &[u8]
        ensures bytes { result.now ≡ self.now.devices.console }
    {
        &self.console
    }
}
