// A page that another thread changes: what a change and an exit leave, and a guest over it. No clause says what the
// words of such a page hold, so these tests show it.
ghost use Rattle.std.specs.Prelude.{◌≡◌, None};

use crate::{Live, LiveEnd, hostile_run};
use event_table::End;
use image_samples::sample_image;
use page_words::{Item, Page, Recorded, Word};
use std::alloc::Global;
use std::test::Fail;
use x86_base::Reg;

/// The host offers version 1.
const VERSION_1: u64 = 0x0001_0001_3300_0001;

/// What the last of the stores of seed 1 at word 63 leaves there.
const LAST_AT_63: u64 = 0x715C_987E_9519_1C6D;

fn is_shared<T: Sync>(_: &T) {}

fn crosses<T: Send>(_: &T) {}

#[test]
fn threads_share_a_page() {
    let live = Live::new();
    is_shared(&live);
    crosses(&live);
    crosses(&live.end());
}

/// What a page gives after an exit: the status, the valid bitmap and the MSR word.
fn heard_after<P: Page>(page: &mut P, msr: u64) -> [u64; 4]
    requires unbounded { (P.told page.old).spare ≡ None }
{
    page.exit(msr);
    let status = page.load(Word::new(115).unwrap());
    let low = page.load(Word::BITMAP_LOW);
    let high = page.load(Word::BITMAP_HIGH);
    [status, low, high, page.msr()]
}

#[test]
fn an_exit_with_an_event_alone_is_answered(rt: HostRuntime) {
    let live = Live::new();
    let mut end = live.end();
    end.store(Word::new(115).unwrap(), 1);
    assert_eq!(rt; heard_after(&mut end, 0x8000_0002), [1, 0, 0, VERSION_1]);
    assert_eq!(rt;
        heard_after(&mut end, 0x8000_0000),
        [0, u64::MAX, u64::MAX, VERSION_1]
    );
    assert_eq!(rt;
        heard_after(&mut live.end(), 2),
        [0, u64::MAX, u64::MAX, VERSION_1]
    );
}

#[test]
fn a_change_leaves_its_last_stores(rt: HostRuntime) {
    let live = Live::new();
    live.change(1);
    let mut end = live.end();
    assert_eq!(rt; end.load(Word::new(0).unwrap()), 0x82D6_E800_84D4_469A);
    assert_eq!(rt; end.load(Word::new(63).unwrap()), LAST_AT_63);
    assert_eq!(rt;
        heard_after(&mut end, 2),
        [1, u64::MAX, u64::MAX, VERSION_1]
    );
    assert_eq!(rt; end.load(Word::new(116).unwrap()), 0x8000_0B0D);
}

/// The values that were heard in items.
fn values(alloc: Global, items: &[Item]) -> Result<Vec<u64>, Fail> {
    let mut values = Vec::new(alloc);
    for item in items {
        if let Item::Load(_, value) | Item::Msr(value) = item {
            values.push(*value)?;
        }
    }
    Ok(values)
}

#[test]
fn a_guest_hears_the_words_that_a_change_left(rt: HostRuntime) -> Result<(), Fail> {
    let alloc = rt.alloc();
    let live = Live::new();
    live.change(1);
    // MOV EDX, 3F8h; IN EAX, DX; HLT
    let image = sample_image(alloc, &[0xBA, 0xF8, 3, 0, 0, 0xED, 0xF4], 0, 0)?;
    let mut page: Recorded<LiveEnd> = Recorded::new(alloc, live.end());
    let vcpu = hostile_run(alloc, &image, 100, &mut page)?;
    let heard = values(alloc, page.items())?;
    assert!(rt; heard.as_slice() == [VERSION_1, 0, u64::MAX, LAST_AT_63].as_slice());
    assert_eq!(rt; vcpu.regs().get(Reg::Rax), LAST_AT_63 & 0xFFFF_FFFF);
    assert_eq!(rt; vcpu.end(), Some(End::Halted));
    assert_eq!(rt; vcpu.steps(), 3);
    Ok(())
}
