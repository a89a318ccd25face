// The program with a worker for each vCPU, over files, a sink and a hypervisor in memory.
use crate::fixture::{turns_of, words_of};
use crate::rounds_tests::{HELLO, LETTERS, folder};
use crate::{Done, Refused, smp_main};
use event_table::{End, Turn};
use host_events::{Host, Hypervisor};
use image_file::ImageFault;
use image_samples::sample_file;
use run_io::{MemFiles, MemSink};
use smp_runner::{Gate, Open};
use std::alloc::Global;
use std::sync::Wait;
use std::sync::atomic::{AtomicBool, AtomicU64, Ordering};
use std::test::Fail;
use std::thread::Threads;

const WORDS: [&str; 3] = ["image", "input", "100"];

/// What comes of a call by these words over a hypervisor: the host comes back exactly at status 0.
fn call<R: Threads + Wait + Sync, G: Gate + Sync>(
    rt: &R,
    alloc: Global,
    words: &[&str],
    files: &mut MemFiles,
    out: &mut MemSink,
    gate: &G,
) -> Result<(Done, Option<Hypervisor>), Fail> {
    let words = words_of(alloc, words)?;
    Ok(smp_main(rt, alloc, &words, files, out, Hypervisor::new(alloc), gate))
}

/// Whether a call by these words ends with this status and this refusal, hands no host back, and writes this.
fn fails<R: Threads + Wait + Sync>(
    rt: &R,
    alloc: Global,
    words: &[&str],
    files: &mut MemFiles,
    out: &mut MemSink,
    (status, refused, text): (u8, Option<Refused>, &[u8]),
) -> Result<bool, Fail> {
    let (done, host) = call(rt, alloc, words, files, out, &Open)?;
    let lists_are_empty = done.order.is_empty() && done.steps.is_empty() && done.ends.is_empty();
    let is_told = (done.status, done.refused) == (status, refused) && out.written() == text;
    Ok(is_told && lists_are_empty && host.is_none())
}

/// Whether a call ended with status 0 and handed a host back, which keeps the turns of the order, and has put out what
/// was written.
fn came_back(
    alloc: Global,
    done: &Done,
    host: Option<Hypervisor>,
    written: &[u8],
) -> Result<bool, Fail> {
    let Some(host) = host else {
        return Ok(false);
    };
    let turns = turns_of(alloc, &host)?;
    Ok(done.status == 0 && host.console() == written && turns.as_slice() == done.order.as_slice())
}

#[test]
fn one_byte_goes_from_two_files_to_the_console(rt: HostRuntime) -> Result<(), Fail> {
    let alloc = rt.alloc();
    let mut files = folder(alloc, 1, &HELLO, &[], b"")?;
    let mut out = MemSink::new(alloc, 100)?;
    let (done, host) = call(&rt, alloc, &WORDS, &mut files, &mut out, &Open)?;
    assert!(rt; came_back(alloc, &done, host, out.written())?);
    assert_eq!(rt; out.written(), b"H".as_slice());
    assert_eq!(rt;
        done.order.as_slice(),
        [Turn { vcpu: 0, count: 1 }].as_slice()
    );
    assert_eq!(rt; done.steps.as_slice(), [4].as_slice());
    assert_eq!(rt; done.ends.as_slice(), [End::Halted].as_slice());
    Ok(())
}

/// What a vCPU of the letters' guest put out along an order: its second, fifth and seventh event put out a byte each.
fn letters_of(alloc: Global, order: &[Turn], written: &[u8], vcpu: u16) -> Result<Vec<u8>, Fail> {
    let (mut zero, mut one, mut at) = (0u8, 0u8, 0usize);
    let mut letters = Vec::new(alloc);
    for turn in order {
        let event = if turn.vcpu == 0 {
            zero = zero.wrapping_add(1);
            zero
        } else {
            one = one.wrapping_add(1);
            one
        };
        if !matches!(event, 2 | 5 | 7) {
            continue;
        }
        if let Some(letter) = written.get(at)
            && turn.vcpu == vcpu
        {
            letters.push(*letter)?;
        }
        at = at.wrapping_add(1);
    }
    Ok(letters)
}

/// Whether a call on the letters' guest ended as its order tells: each vCPU took seven turns, and put out its letter
/// first and last.
fn has_passed_letters(alloc: Global, done: &Done, written: &[u8]) -> Result<bool, Fail> {
    let order = done.order.as_slice();
    let zero = letters_of(alloc, order, written, 0)?;
    let one = letters_of(alloc, order, written, 1)?;
    Ok(
        (order.len(), written.len()) == (14, 6)
            && matches!(zero.as_slice(), [b'A', _, b'A'])
            && matches!(one.as_slice(), [b'B', _, b'B'])
            && done.steps.as_slice() == [16, 16].as_slice()
            && done.ends.as_slice() == [End::Halted; 2].as_slice(),
    )
}

#[test]
fn two_vcpus_put_out_what_their_order_says(rt: HostRuntime) -> Result<(), Fail> {
    let alloc = rt.alloc();
    let mut files = folder(alloc, 2, &LETTERS, &[], b"")?;
    let mut out = MemSink::new(alloc, 100)?;
    let (done, host) = call(&rt, alloc, &WORDS, &mut files, &mut out, &Open)?;
    assert!(rt; came_back(alloc, &done, host, out.written())?);
    assert!(rt; has_passed_letters(alloc, &done, out.written())?);
    Ok(())
}

/// How often a count is looked at before the gate gives up.
const POLLS: u64 = 100_000_000;

/// A gate that counts how often each of two vCPUs entered and left. They meet at their first turn and at their second,
/// and one comes late to its second: there it waits until the other has had its third.
#[derive(Drop)]
struct Meeting {
    entered: [AtomicU64; 2],
    left: [AtomicU64; 2],
    late: u16,
    gave_up: AtomicBool,
}

/// Counts a call of a vCPU, and says how many there were before.
fn count(calls: &[AtomicU64], vcpu: u16) -> u64 {
    match calls.get(usize::from(vcpu)) {
        Some(calls) => calls.fetch_add(1, Ordering::SeqCst),
        None => u64::MAX,
    }
}

impl Meeting {
    fn new(late: u16) -> Meeting {
        Meeting {
            entered: [AtomicU64::new(0), AtomicU64::new(0)],
            left: [AtomicU64::new(0), AtomicU64::new(0)],
            late,
            gave_up: AtomicBool::new(false),
        }
    }

    /// Waits until the other vCPU has made so many calls, or gives up.
    fn wait_for(&self, calls: &[AtomicU64], vcpu: u16, least: u64) {
        let Some(others) = calls.get(usize::from(1 - vcpu % 2)) else {
            return;
        };
        for _ in 0..POLLS {
            if others.load(Ordering::SeqCst) >= least {
                return;
            }
        }
        self.gave_up.store(true, Ordering::SeqCst);
    }
}

impl Gate for Meeting {
    fn enter(&self, vcpu: u16) {
        match count(&self.entered, vcpu) {
            0 => self.wait_for(&self.entered, vcpu, 1),
            1 => {
                self.wait_for(&self.left, vcpu, 1);
                if vcpu == self.late {
                    self.wait_for(&self.left, vcpu, 3);
                }
            }
            _ => {}
        }
    }

    fn leave(&self, vcpu: u16) {
        count(&self.left, vcpu);
    }
}

// That the vCPUs of a call run beside each other is shown here alone.
#[test]
fn the_late_vcpu_comes_after_two_items_of_the_other(rt: HostRuntime) -> Result<(), Fail> {
    let alloc = rt.alloc();
    for late in 0..2 {
        let mut files = folder(alloc, 2, &LETTERS, &[], b"")?;
        let mut out = MemSink::new(alloc, 100)?;
        let gate = Meeting::new(late);
        let (done, host) = call(&rt, alloc, &WORDS, &mut files, &mut out, &gate)?;
        assert!(rt; !gate.gave_up.load(Ordering::SeqCst));
        assert!(rt; came_back(alloc, &done, host, out.written())?);
        assert!(rt; has_passed_letters(alloc, &done, out.written())?);
        let first = Turn {
            vcpu: 1 - late,
            count: 1,
        };
        assert!(rt; done.order.starts_with(&[first, first]));
    }
    Ok(())
}

/// Words outside the grammar, where `-` stands for a word of no letters.
const OUTSIDE: &str = "a b 0
a b 2097153
a b 01
a b 1x
a b -
- b 1
a - 1
a b
a
run a b 1
a b 1 report";

/// Whether a call by the words of a line writes the usage line alone.
fn misuses<R: Threads + Wait + Sync>(rt: &R, alloc: Global, line: &str) -> Result<bool, Fail> {
    let mut words: Vec<&str> = Vec::new(alloc);
    for word in line.split_whitespace() {
        words.push(if word == "-" { "" } else { word })?;
    }
    let mut files = folder(alloc, 1, &HELLO, &[], b"")?;
    let mut out = MemSink::new(alloc, 100)?;
    let told = (2, None, b"usage: ghcb_smp IMAGE INPUT STEPS\n".as_slice());
    fails(rt, alloc, words.as_slice(), &mut files, &mut out, told)
}

#[test]
fn words_outside_the_grammar_get_the_usage_line(rt: HostRuntime) -> Result<(), Fail> {
    for line in OUTSIDE.lines() {
        assert!(rt; misuses(&rt, rt.alloc(), line)?, "{line}");
    }
    assert!(rt; misuses(&rt, rt.alloc(), "")?);
    Ok(())
}

/// An offset in an image's file and the byte that is put there, the file's length, and what is told.
type Broken<'a> = (usize, u8, usize, ImageFault, &'a [u8]);

const BROKEN: [Broken; 6] = [
    (0, 0x48, 73, ImageFault::BadMagic, b"refused image 2\n"),
    (8, 0, 73, ImageFault::BadCount, b"refused image 3\n"),
    (0, 0x47, 63, ImageFault::Truncated, b"refused image 1\n"),
    (12, 1, 73, ImageFault::BadRam, b"refused image 4\n"),
    (0, 0x47, 72, ImageFault::Truncated, b"refused image 1\n"),
    (0, 0x47, 74, ImageFault::TooLong, b"refused image 11\n"),
];

#[test]
fn images_that_break_a_rule_are_refused(rt: HostRuntime) -> Result<(), Fail> {
    let alloc = rt.alloc();
    for (at, byte, len, fault, line) in BROKEN {
        let mut image = sample_file(alloc, &HELLO, 0, 0)?;
        if let Some(slot) = image.get_mut(at) {
            *slot = byte;
        }
        image.resize(len, 0)?;
        let mut files = MemFiles::new(alloc);
        files.add("image", &image)?;
        let mut out = MemSink::new(alloc, 100)?;
        let told = (3, Some(Refused::Image(fault)), line);
        assert!(rt; fails(&rt, alloc, &WORDS, &mut files, &mut out, told)?);
    }
    Ok(())
}

#[test]
fn an_input_has_a_limit(rt: HostRuntime) -> Result<(), Fail> {
    let alloc = rt.alloc();
    let longest = vec![in alloc; 0u8; 16_777_216]?;
    let mut files = folder(alloc, 1, &HELLO, &[], &longest)?;
    let mut out = MemSink::new(alloc, 100)?;
    let (done, _) = call(&rt, alloc, &WORDS, &mut files, &mut out, &Open)?;
    assert_eq!(rt; (done.status, out.written()), (0, b"H".as_slice()));
    let longer = vec![in alloc; 0u8; 16_777_217]?;
    let mut files = folder(alloc, 1, &HELLO, &[], &longer)?;
    let mut out = MemSink::new(alloc, 100)?;
    let told = (
        3,
        Some(Refused::InputLimit),
        b"refused input limit\n".as_slice(),
    );
    assert!(rt; fails(&rt, alloc, &WORDS, &mut files, &mut out, told)?);
    Ok(())
}

#[test]
fn each_read_may_fail(rt: HostRuntime) -> Result<(), Fail> {
    let alloc = rt.alloc();
    let mut absent = MemFiles::new(alloc);
    let mut out = MemSink::new(alloc, 100)?;
    assert!(rt; fails(&rt, alloc, &WORDS, &mut absent, &mut out, (4, None, b""))?);
    // 73 bytes and the end of the image, and the end of the input: there is no further call.
    for number in 1..76 {
        let mut files = folder(alloc, 1, &HELLO, &[], b"")?;
        files.set_piece(1);
        files.fail(number)?;
        let mut out = MemSink::new(alloc, 100)?;
        assert!(rt; fails(&rt, alloc, &WORDS, &mut files, &mut out, (4, None, b""))?);
    }
    Ok(())
}

#[test]
fn each_write_may_fail(rt: HostRuntime) -> Result<(), Fail> {
    let alloc = rt.alloc();
    for (words, first, written) in [
        (&WORDS[..], 0, &b""[..]),
        (&WORDS, 3, b"H"),
        (&WORDS[..2], 3, b"usa"),
    ] {
        let mut files = folder(alloc, 1, &HELLO, &[], b"")?;
        let mut out = MemSink::new(alloc, 100)?;
        out.fail(1, first)?;
        assert!(rt; fails(&rt, alloc, words, &mut files, &mut out, (5, None, written))?);
    }
    let mut files = MemFiles::new(alloc);
    files.add("image", b"no image")?;
    let mut out = MemSink::new(alloc, 100)?;
    out.fail(1, 4)?;
    assert!(rt; fails(&rt, alloc, &WORDS, &mut files, &mut out, (5, None, b"refu"))?);
    Ok(())
}
