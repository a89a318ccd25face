// What the delivery of an exception does to the labels (APM volume 2, section 8.9).
ghost use Rattle.std.specs.Prelude.{◌≡◌};
ghost use Rattle.event_table.specs.Places.{vcpu};
ghost use Rattle.event_table.specs.Plan.{setting};
ghost use Rattle.event_table.specs.Raising.{IsRaisable, handler_of, raise_of};
ghost use Rattle.secret_labels.specs.Labels.{noted};
ghost use Rattle.secret_labels.specs.Notes.{as_noted};

use crate::marks::Marks;
use crate::verdict::What;
use event_table::Place;
use image_file::{Image, Ram};
use x86_base::{Reg, Regs, Width};

/// The address of the image's handler of #GP (13), or else of #UD (6); 0 where it has none.
fn handler(image: &Image, vector: u8) -> u64
    ensures value { result ≡ handler_of image.now.header vector }
{
    if vector == 13 {
        u64::from(image.vector_gp())
    } else {
        u64::from(image.vector_ud())
    }
}

/// An exception's delivery: RSP goes into an address, the flags' label goes to the flags word that is
/// pushed, and whatever else is pushed has none.
pub fn note_raise(
    marks: &mut Marks,
    regs: &Regs,
    ram: &Ram,
    image: &Image,
    vector: u8,
    _code: u32,
) -> Option<What>
    requires vector { IsRaisable vector }
    ensures noted { let v = vcpu regs.now ram.now in as_noted result marks.new ≡
        noted marks.old v (raise_of image.now.header (setting v 0) vector _code) }
{
    if handler(image, vector) == 0 {
        return None;
    }
    if marks.is_on(Place::Low(Reg::Rsp, Width::B64)) {
        return Some(What::Address);
    }
    let bottom = regs.get(Reg::Rsp) / 16 * 16;
    let size: u8 = if vector == 13 { 48 } else { 40 };
    if !ram.can_write(bottom.wrapping_sub(u64::from(size)), size) {
        return None;
    }
    let label = marks.is_on(Place::Status);
    marks.put(false, Place::Bytes(bottom - 8, Width::B64));
    marks.put(false, Place::Bytes(bottom - 16, Width::B64));
    marks.put(false, Place::Bytes(bottom - 32, Width::B64));
    marks.put(false, Place::Bytes(bottom - 40, Width::B64));
    if vector == 13 {
        marks.put(false, Place::Bytes(bottom - 48, Width::B64));
    }
    marks.put(false, Place::Low(Reg::Rsp, Width::B64));
    marks.put(label, Place::Bytes(bottom - 24, Width::B64));
    None
}
