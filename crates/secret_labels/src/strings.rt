// What string I/O does to the labels (APM volume 3, INS and OUTS; AMD 56421, section 4, IOIO_PROT).
ghost use Rattle.std.specs.Prelude.{◌≡◌, ◌/◌, [], ◌∷◌, min};
ghost use Rattle.x86_base.specs.Widths.{size_of};
ghost use Rattle.event_table.specs.Elements as elements;
ghost use Rattle.event_table.specs.Places.{vcpu};
ghost use Rattle.event_table.specs.Plan.{setting};
ghost use Rattle.event_table.specs.declared.places.Place.TheVariants.{Bytes};
ghost use Rattle.secret_labels.specs.Cleared.{cleared};
ghost use Rattle.secret_labels.specs.Labels.{any, noted, noted_after};
ghost use Rattle.secret_labels.specs.Notes.{as_noted};

use crate::marks::Marks;
use crate::verdict::What;
use event_table::{Place, Reply, is_input, left, next_address, pointer, port_size};
use image_file::Ram;
use x86_base::{Insn, Reg, Regs, Width};

/// The width of an element.
fn element_width(insn: &Insn) -> Width
    ensures value { result ≡ elements.element_width insn.now }
{
    match insn.width {
        Width::B8 => Width::B8,
        Width::B16 => Width::B16,
        _ => Width::B32,
    }
}

/// The place of the count of elements that are left: RCX with REP, and else 1.
fn counter(insn: &Insn) -> Place
    ensures place { result ≡ elements.counter insn.now.rep }
{
    if insn.rep {
        Place::Low(Reg::Rcx, Width::B64)
    } else {
        Place::Fixed(1)
    }
}

/// Whether a label stands on the count of elements that are left.
fn is_on_counter(marks: &Marks, insn: &Insn) -> bool
    ensures value { result ≡ any marks.now (elements.counter insn.now.rep ∷ []) }
{
    marks.is_on(counter(insn))
}

/// Whether a label stands on the pointer to the elements.
fn is_on_pointer(marks: &Marks, insn: &Insn) -> bool
    ensures value { let pointer = elements.pointer (elements.is_input insn.now.op) in
        result ≡ any marks.now (Place.Low pointer Width.B64 ∷ []) }
{
    marks.is_on(Place::Low(pointer(insn), Width::B64))
}

/// Whether the element at an address can be moved.
fn can_move(_regs: &Regs, ram: &Ram, insn: &Insn, at: u64) -> bool
    ensures value { let s = setting (vcpu _regs.now ram.now) insn.now.len in
        result ≡ elements.can_move (elements.is_input insn.now.op) s (Bytes at (elements.element_width insn.now)) }
{
    let size = port_size(insn.width);
    if is_input(insn) {
        ram.can_write(at, size)
    } else {
        ram.has(at, size)
    }
}

/// Whether one of the elements from an address on that can be moved, at most so many, has a labelled byte.
fn is_on_elements(marks: &Marks, regs: &Regs, ram: &Ram, insn: &Insn, most: u64, at: u64) -> bool
    ensures value { let s = setting (vcpu regs.now ram.now) insn.now.len in
        let here = elements.movable (elements.is_input insn.now.op) (elements.element_width insn.now) s most at in
        result ≡ any marks.now here }
{
    let width = element_width(insn);
    let size = u64::from(port_size(insn.width));
    let mut element = at;
    for _ in 0..most {
        if !can_move(regs, ram, insn, element) {
            return false;
        }
        if marks.is_on(Place::Bytes(element, width)) {
            return true;
        }
        element = next_address(regs.flags.df, size, element);
    }
    false
}

/// How many elements a block has at most.
fn most(left: u64, insn: &Insn) -> u64
    ensures value { result ≡ min left (2032 / size_of (elements.element_width insn.now)) }
{
    let room = match insn.width {
        Width::B8 => 2032,
        Width::B16 => 1016,
        _ => 508,
    };
    left.min(room)
}

/// Whether a block shows a label: DX is its port, and an output's elements are its data.
fn is_on_block(marks: &Marks, regs: &Regs, ram: &Ram, insn: &Insn, left: u64, at: u64) -> bool
    ensures value { let s = setting (vcpu regs.now ram.now) insn.now.len in
        let shown = elements.shown_of insn.now (elements.elements insn.now s at left) in
        result ≡ any marks.now (Place.Low Reg.Rdx Width.B16 ∷ shown) }
{
    let data = !is_input(insn) && is_on_elements(marks, regs, ram, insn, most(left, insn), at);
    data || marks.is_on(Place::Low(Reg::Rdx, Width::B16))
}

/// String I/O: the count goes into addresses, and where it isn't 0 the pointer does, also where no element can be
/// moved; a block that is asked is shown.
pub fn note_string(marks: &Marks, regs: &Regs, ram: &Ram, insn: &Insn) -> Option<What>
    ensures noted { let v = vcpu regs.now ram.now in as_noted result marks.now ≡
        noted marks.now v (elements.string_of insn.now (setting v insn.now.len)) }
{
    if is_on_counter(marks, insn) {
        return Some(What::Address);
    }
    let left = left(regs, insn);
    if left == 0 {
        return None;
    }
    if is_on_pointer(marks, insn) {
        return Some(What::Address);
    }
    let at = regs.get(pointer(insn));
    if !can_move(regs, ram, insn, at) {
        return None;
    }
    if is_on_block(marks, regs, ram, insn, left, at) {
        return Some(What::Named);
    }
    None
}

/// The labels after one element: the bytes that an input wrote have none.
fn note_element(marks: &mut Marks, insn: &Insn, at: u64)
    ensures change { marks.new ≡ cleared insn.now (Bytes at (elements.element_width insn.now) ∷ []) marks.old }
{
    if is_input(insn) {
        marks.put(false, Place::Bytes(at, element_width(insn)));
    }
    marks.put(false, Place::Low(pointer(insn), Width::B64));
    marks.put(false, counter(insn));
}

/// The labels after the elements from an address on that can be moved, at most so many.
fn note_elements(marks: &mut Marks, regs: &Regs, ram: &Ram, insn: &Insn, most: u64, at: u64)
    ensures change { let s = setting (vcpu regs.now ram.now) insn.now.len in
        let here = elements.movable (elements.is_input insn.now.op) (elements.element_width insn.now) s most at in
        marks.new ≡ cleared insn.now here marks.old }
{
    let size = u64::from(port_size(insn.width));
    let mut element = at;
    for _ in 0..most {
        if !can_move(regs, ram, insn, element) {
            return;
        }
        note_element(marks, insn, element);
        element = next_address(regs.flags.df, size, element);
    }
}

/// The labels after the reply to the block that was asked.
pub fn note_string_reply(
    marks: &mut Marks,
    regs: &Regs,
    ram: &Ram,
    insn: &Insn,
    _reply: &Reply,
) -> Option<What>
    ensures noted { let v = vcpu regs.now ram.now in as_noted result marks.new ≡
        noted_after _reply.now marks.old v (elements.string_of insn.now (setting v insn.now.len)) }
{
    if is_on_counter(marks, insn) {
        return Some(What::Address);
    }
    let left = left(regs, insn);
    if left == 0 {
        return None;
    }
    if is_on_pointer(marks, insn) {
        return Some(What::Address);
    }
    let at = regs.get(pointer(insn));
    if !can_move(regs, ram, insn, at) {
        return None;
    }
    if is_on_block(marks, regs, ram, insn, left, at) {
        return Some(What::Named);
    }
    note_elements(marks, regs, ram, insn, most(left, insn), at);
    None
}
