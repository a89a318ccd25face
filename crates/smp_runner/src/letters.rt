// An image for tests: two vCPUs put out a letter each, pass it on through a mailbox, and put out the other's and their
// number's.
use event_table::Turn;
use image_file::{Image, ImageError};
use std::alloc::Global;

/// LEA EAX, [RDI + 41h]; WRMSR to 40001000h; OUT to 3F8h; OUT EAX to the mailbox of the own number, at 500h or 504h; IN
/// from the other; OUT to 3F8h; RDMSR of 40001000h; OUT to 3F8h; HLT.
const LETTERS: [u8; 45] = [
    0x8D, 0x47, 0x41, 0x31, 0xD2, 0xB9, 0, 0x10, 0, 0x40, 0x0F, 0x30, 0xBA, 0xF8, 3, 0, 0, 0xEE,
    0x8D, 0x14, 0xBD, 0, 5, 0, 0, 0xEF, 0x83, 0xF2, 4, 0xED, 0xBA, 0xF8, 3, 0, 0, 0xEE, 0x0F, 0x32,
    0xBA, 0xF8, 3, 0, 0, 0xEE, 0xF4,
];

/// The image, for two vCPUs.
pub fn letters_image(alloc: Global) -> Result<Image, ImageError> {
    let mut file = [0; 109];
    file[..8].copy_from_slice(b"GHCBIMG1");
    file[8] = 2;
    file[13] = 0x10;
    file[16] = 45;
    file[64..].copy_from_slice(&LETTERS);
    Image::read(alloc, &file)
}

/// The letter of a vCPU.
fn letter(vcpu: u16) -> u8 {
    if vcpu == 0 { b'A' } else { b'B' }
}

/// What one vCPU has done so far: how many events, and whether its letter is in its mailbox.
#[derive(Clone, Copy, Default)]
struct Done {
    events: u8,
    passed: bool,
    got: u8,
}

impl Done {
    /// Does the next event of a vCPU, with the other as it is, and gives the byte that this puts out.
    fn next(&mut self, vcpu: u16, other: Done) -> Option<u8> {
        let event = self.events;
        self.events = event.wrapping_add(1);
        match event {
            2 => self.passed = true,
            3 => self.got = if other.passed {
                letter(1 - vcpu % 2)
            } else {
                0
            },
            _ => {}
        }
        match event {
            1 | 6 => Some(letter(vcpu)),
            4 => Some(self.got),
            _ => None,
        }
    }
}

/// Whether a console is what the devices put out along an order.
pub fn is_along(order: &[Turn], console: &[u8]) -> bool {
    let (mut zero, mut one) = (Done::default(), Done::default());
    let mut left = console.iter();
    for turn in order {
        let out = match turn.vcpu {
            0 => zero.next(0, one),
            _ => one.next(1, zero),
        };
        if turn.count != 1 {
            return false;
        }
        if let Some(byte) = out
            && left.next() != Some(&byte)
        {
            return false;
        }
    }
    zero.events == 7 && one.events == 7 && left.next().is_none()
}
