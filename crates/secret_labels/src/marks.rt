// The labels of a vCPU: one for each register, one for the status flags, and one for each byte of RAM.
ghost use Rattle.std.specs.Prelude.{IfOk, ◌≡◌, ◌+◌, get_or, set, false};
ghost use Rattle.image_file.specs.Image.{opening_ram};
ghost use Rattle.event_table.specs.Plan.{address_places, register_place};
ghost use Rattle.secret_labels.specs.Following.{secret_of};
ghost use Rattle.secret_labels.specs.Labels.{any, any_byte as any_labelled, is_labelled, mark, set_bytes as bytes_set};

use event_table::Place;
use image_file::{Image, Ram};
use std::alloc::{AllocError as OutOfMemory, Global};
use std::marker::Model;
use x86_base::{Operand, Reg, Width};

/// Whether there is a label `k` bytes after an address.
fn is_at(marks: &[bool], at: u64, k: u64) -> bool
    ensures value { result ≡ get_or marks.now (at + k) false }
{
    let size = marks.len() as u64;
    if at < size && k < size - at {
        marks[(at + k) as usize]
    } else {
        false
    }
}

/// Writes a label `k` bytes after an address, where that is in RAM.
fn put_at(marks: &mut [bool], at: u64, k: u64, label: bool)
    ensures change { marks.new ≡ set marks.old (at + k) label }
{
    let size = marks.len() as u64;
    if at < size && k < size - at {
        marks[(at + k) as usize] = label;
    }
}

/// Whether one of `n` bytes from an address on has a label.
fn any_of(marks: &[bool], at: u64, n: u64) -> bool
    ensures value { result ≡ any_labelled n at marks.now }
{
    for k in 0..n {
        if is_at(marks, at, k) {
            return true;
        }
    }
    false
}

/// Writes a label to `n` bytes from an address on.
fn set_all(marks: &mut [bool], at: u64, n: u64, label: bool)
    ensures change { marks.new ≡ bytes_set n at label marks.old }
{
    for k in 0..n {
        put_at(marks, at, k, label);
    }
}

/// Which registers, whether the status flags, and which bytes of RAM have a label.
#[derive(Drop)]
pub struct Marks {
    gpr: [bool; 16],
    status: bool,
    ram: Vec<bool>,
}

impl Model for Marks {
    ghost use Rattle.secret_labels.specs.Labels.{Labels};

    ghost Value = { Labels };

    ghost view = { λ m. record { gpr = m.gpr; status = m.status; ram = m.ram.items } };
}

impl Marks {
    /// The labels of a vCPU as it starts, over this RAM: on the bytes of the image's secret alone.
    pub fn secret(alloc: Global, image: &Image, ram: &Ram) -> Result<Marks, OutOfMemory>
        requires opening { ram.now ≡ opening_ram image.now }
        ensures start { IfOk result (λ marks. marks ≡ secret_of image.now) }
    {
        let size = ram.size() as usize;
        let mut labels = Vec::with_capacity(alloc, size)?;
        labels.resize(size, false)?;
        let (start, len) = image.secret();
        set_all(
            labels.as_mut_slice(),
            u64::from(start),
            u64::from(len),
            true,
        );
        Ok(Marks {
            gpr: [false; 16],
            status: false,
            ram: labels,
        })
    }

    /// Whether a label stands on a place.
    pub fn is_on(&self, place: Place) -> bool
        ensures value { result ≡ is_labelled self.now place }
    {
        match place {
            Place::Fixed(_) => false,
            Place::Low(reg, _) | Place::High(reg) => self.gpr[reg as usize],
            Place::Status | Place::StatusButCarry | Place::Carry => self.status,
            Place::Bytes(at, width) => any_of(&self.ram, at, u64::from(width.bytes())),
        }
    }

    /// A value with a label, or without one, is written to a place.
    pub fn put(&mut self, label: bool, place: Place)
        ensures change { self.new ≡ mark label place self.old }
    {
        match place {
            Place::Fixed(_) => {}
            Place::Low(reg, Width::B32 | Width::B64) => self.gpr[reg as usize] = label,
            Place::Low(reg, _) | Place::High(reg) => {
                self.gpr[reg as usize] = label || self.gpr[reg as usize];
            }
            Place::Status => self.status = label,
            Place::StatusButCarry | Place::Carry => self.status = label || self.status,
            Place::Bytes(at, width) => {
                set_all(self.ram.as_mut_slice(), at, u64::from(width.bytes()), label);
            }
        }
    }

    /// Whether one stands on a register of an address.
    fn is_on_part(&self, reg: Option<Reg>) -> bool
        ensures value { result ≡ is_labelled self.now (register_place reg) }
    {
        match reg {
            Some(reg) => self.gpr[reg as usize],
            None => false,
        }
    }

    /// Whether one stands on the base or the index of an operand's address.
    pub fn is_on_address(&self, operand: &Operand) -> bool
        ensures value { result ≡ any self.now (address_places operand.now) }
    {
        match operand {
            Operand::Memory(mem) => self.is_on_part(mem.index) || self.is_on_part(mem.base),
            _ => false,
        }
    }
}
