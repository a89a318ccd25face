// A vCPU over a page in memory, with the host's side done by hand.
use crate::{Progress, Vcpu};
use event_table::{End, Reason};
use hex_rows::Row;
use image_file::Image;
use image_samples::sample_image;
use page_words::{Page, Word, Words};
use std::alloc::Global;
use std::test::Fail;
use x86_base::Reg;

/// The host's answer on its versions: 1 at least and at most.
pub const VERSION_1: u64 = 0x0001_0001_0000_0001;

/// MOV EDX, 3F8h; IN AL, DX; RDMSR; at 8 OUT DX, AL; HLT. The handler of #UD is at 8.
fn image(alloc: Global) -> Result<Image, Fail> {
    let code = [0xBA, 0xF8, 3, 0, 0, 0xEC, 0x0F, 0x32, 0xEE, 0xF4];
    Ok(sample_image(alloc, &code, 8, 0)?)
}

/// A vCPU over a page, once it has asked for the versions and heard this word.
pub fn met(alloc: Global, image: &Image, answer: u64) -> Result<(Vcpu, Words), Fail> {
    let mut vcpu = Vcpu::new(image, 0, image.ram(alloc)?);
    let mut page = Words::new();
    vcpu.run_to_exit(image, &mut page, 100);
    page.set_msr(answer);
    vcpu.resume(image, &mut page);
    Ok((vcpu, page))
}

/// Stores words of a reply, as the host does.
pub fn reply(page: &mut Words, words: &[(u16, u64)]) {
    for (number, value) in words {
        if let Some(word) = Word::new(*number) {
            page.store(word, *value);
        }
    }
}

/// What a word of a page is.
fn word(page: &Words, number: u16) -> Option<u64> {
    Some(page.word(Word::new(number)?))
}

#[test]
fn the_versions_are_asked_first(rt: HostRuntime) -> Result<(), Fail> {
    let image = image(rt.alloc())?;
    let mut vcpu = Vcpu::new(&image, 0, image.ram(rt.alloc())?);
    let mut page = Words::new();
    assert!(rt; !vcpu.waiting());
    assert_eq!(rt; vcpu.regs().get(Reg::Rsp), 0x1000);
    assert_eq!(rt; vcpu.run_to_exit(&image, &mut page, 100), Progress::Exited);
    assert_eq!(rt; page.msr_word(), 0x002);
    assert!(rt; vcpu.waiting());
    assert_eq!(rt; vcpu.pending(), 0);
    page.set_msr(VERSION_1);
    vcpu.resume(&image, &mut page);
    assert!(rt; !vcpu.waiting());
    assert_eq!(rt; vcpu.end(), None);
    assert_eq!(rt; vcpu.steps(), 0);
    Ok(())
}

#[test]
fn no_version_fits(rt: HostRuntime) -> Result<(), Fail> {
    let image = image(rt.alloc())?;
    for answer in [0x002, 0x0002_0002_0000_0001, 0x0001_0001_0000_0101] {
        let (mut vcpu, mut page) = met(rt.alloc(), &image, answer)?;
        let end = Some(End::Terminated(Reason::NoProtocol(answer)));
        assert_eq!(rt; page.msr_word(), 0x10100);
        assert_eq!(rt; vcpu.end(), end);
        assert_eq!(rt; vcpu.run_to_exit(&image, &mut page, 100), Progress::Ended);
        assert_eq!(rt; page.msr_word(), 0x10100);
        assert_eq!(rt; vcpu.steps(), 0);
    }
    Ok(())
}

/// Whether each register of these numbers is so.
fn has_regs(vcpu: &Vcpu, regs: &[(u16, u64)]) -> bool {
    regs.iter().all(|(number, value)| vcpu.regs().gpr.get(usize::from(*number)) == Some(value))
}

/// Whether vCPU 0 exits, and goes on by the host's reply, as a row tells. Its cells are words that the vCPU shows; how
/// many accesses its event has, and its steps; the words of the reply; registers by their numbers; and RIP and the
/// steps after it.
pub fn talks(
    alloc: Global,
    image: &Image,
    vcpu: &mut Vcpu,
    page: &mut Words,
    row: &str,
) -> Result<bool, Fail> {
    let mut row = Row::new(row);
    let shown = row.words(alloc)?;
    let [pending, before] = row.numbers::<2>()?;
    let answer = row.words(alloc)?;
    let regs = row.words(alloc)?;
    let [rip, after] = row.numbers::<2>()?;
    let exits = vcpu.run_to_exit(image, page, 10_000) == Progress::Exited
        && page.msr_word() == 0x8000_0000
        && unlike(page, shown.as_slice()).is_none();
    let waits = u64::from(vcpu.pending()) == pending && vcpu.steps() == before;
    reply(page, answer.as_slice());
    vcpu.resume(image, page);
    let goes_on = vcpu.regs().rip == rip && vcpu.steps() == after && !vcpu.waiting();
    Ok(exits && waits && goes_on && has_regs(vcpu, regs.as_slice()))
}

/// Whether a vCPU goes on to its HLT, and has gone so many steps then.
pub fn halts(image: &Image, vcpu: &mut Vcpu, page: &mut Words, steps: u64) -> bool {
    vcpu.run_to_exit(image, page, 10_000) == Progress::Ended
        && vcpu.end() == Some(End::Halted)
        && vcpu.steps() == steps
}

/// The eight bytes at an address.
fn bytes_at(vcpu: &Vcpu, at: u64) -> Option<u64> {
    vcpu.ram().read(at, 8).ok()
}

/// IN, answered with a byte of the console and RAX's bit.
const ANSWERED: &str = "114:7B | 1 1 | 115:0 126:8000000000000000 63:1148 | 0:48 | 6 2";

/// RDMSR, answered with #UD.
const REFUSED: &str = "114:7C | 1 2 | 115:1 116:80000306 | | 8 3";

/// OUT, answered with a status that is no reply.
const UNANSWERED: &str = "114:7B | 1 3 | 115:2 | | 8 3";

#[test]
fn events_are_answered_one_after_another(rt: HostRuntime) -> Result<(), Fail> {
    let alloc = rt.alloc();
    let image = image(alloc)?;
    let (mut vcpu, mut page) = met(alloc, &image, VERSION_1)?;
    assert!(rt; talks(alloc, &image, &mut vcpu, &mut page, ANSWERED)?);
    assert!(rt; talks(alloc, &image, &mut vcpu, &mut page, REFUSED)?);
    // the frame of the exception is 40 bytes below RSP
    assert_eq!(rt; bytes_at(&vcpu, 0x1000 - 40), Some(6));
    assert!(rt; talks(alloc, &image, &mut vcpu, &mut page, UNANSWERED)?);
    assert_eq!(rt; page.msr_word(), 0x100);
    assert_eq!(rt; vcpu.end(), Some(End::Terminated(Reason::BadStatus(2))));
    Ok(())
}

#[test]
fn a_budget_ends_it(rt: HostRuntime) -> Result<(), Fail> {
    let image = image(rt.alloc())?;
    let (mut vcpu, mut page) = met(rt.alloc(), &image, VERSION_1)?;
    assert_eq!(rt; vcpu.run_to_exit(&image, &mut page, 1), Progress::Ended);
    assert_eq!(rt; (vcpu.end(), vcpu.steps()), (Some(End::Spent), 1));
    assert_eq!(rt; page.msr_word(), VERSION_1);
    Ok(())
}

/// The number of the first word of a page that isn't as told.
pub fn unlike(page: &Words, words: &[(u16, u64)]) -> Option<u16> {
    for (number, value) in words {
        if word(page, *number) != Some(*value) {
            return Some(*number);
        }
    }
    None
}

/// MOV ESI, 12h; MOV ECX, 7F1h; MOV EDX, 3F8h; REP OUTSB; HLT; and from 12h on 2,033 bytes.
fn printing(alloc: Global) -> Result<Image, Fail> {
    let prints = [
        0xBE, 0x12, 0, 0, 0, 0xB9, 0xF1, 7, 0, 0, 0xBA, 0xF8, 3, 0, 0, 0xF3, 0x6E, 0xF4,
    ];
    let mut code = Vec::from_slice(alloc, &prints)?;
    for k in 0u16..2033 {
        code.push((k % 251) as u8)?;
    }
    Ok(sample_image(alloc, code.as_slice(), 0, 0)?)
}

/// The first block of a long string: 2,032 bytes, which are words 256 to 509.
const FIRST: &str = "114:7B 115:3F80E1C 116:7F0 117:80000800 126:0 127:3C000000000000 511:10000 \
    256:706050403020100 257:F0E0D0C0B0A0908 509:1716151413121110 510:0 | 7F0 3 | 115:0 | 1:1 6:802 | F 7F3";

/// The last byte, which is in word 256 alone.
const LAST: &str = "114:7B 115:3F80E1C 116:1 117:80000800 126:0 127:3C000000000000 511:10000 \
    256:18 257:F0E0D0C0B0A0908 | 1 7F3 | 115:0 | 1:0 6:803 | 11 7F4";

#[test]
fn a_string_goes_out_in_blocks_that_fit_the_buffer(rt: HostRuntime) -> Result<(), Fail> {
    let alloc = rt.alloc();
    let image = printing(alloc)?;
    let (mut vcpu, mut page) = met(alloc, &image, VERSION_1)?;
    assert!(rt; talks(alloc, &image, &mut vcpu, &mut page, FIRST)?);
    assert!(rt; talks(alloc, &image, &mut vcpu, &mut page, LAST)?);
    assert!(rt; halts(&image, &mut vcpu, &mut page, 2037));
    Ok(())
}

#[test]
fn a_block_leads_past_the_budget_and_is_the_last(rt: HostRuntime) -> Result<(), Fail> {
    let image = printing(rt.alloc())?;
    let (mut vcpu, mut page) = met(rt.alloc(), &image, VERSION_1)?;
    assert_eq!(rt; vcpu.run_to_exit(&image, &mut page, 4), Progress::Exited);
    assert_eq!(rt; vcpu.pending(), 2032);
    reply(&mut page, &[(115, 0)]);
    vcpu.resume(&image, &mut page);
    assert_eq!(rt; vcpu.run_to_exit(&image, &mut page, 4), Progress::Ended);
    assert_eq!(rt; (vcpu.end(), vcpu.steps()), (Some(End::Spent), 2035));
    Ok(())
}

#[test]
fn a_string_of_no_elements_asks_nothing(rt: HostRuntime) -> Result<(), Fail> {
    // REP OUTSB; HLT
    let image = sample_image(rt.alloc(), &[0xF3, 0x6E, 0xF4], 0, 0)?;
    let (mut vcpu, mut page) = met(rt.alloc(), &image, VERSION_1)?;
    assert_eq!(rt; vcpu.run_to_exit(&image, &mut page, 100), Progress::Ended);
    assert_eq!(rt; page.msr_word(), VERSION_1);
    assert_eq!(rt; (vcpu.end(), vcpu.steps()), (Some(End::Halted), 2));
    Ok(())
}

/// MOV EDI, 100h; MOV ECX, 9; MOV EDX, 3F8h; REP INSB; HLT, which is the handler of #GP too.
fn reading(alloc: Global) -> Result<Image, Fail> {
    let code = [
        0xBF, 0, 1, 0, 0, 0xB9, 9, 0, 0, 0, 0xBA, 0xF8, 3, 0, 0, 0xF3, 0x6C, 0xF4,
    ];
    Ok(sample_image(alloc, &code, 0, 17)?)
}

/// Whether a vCPU reads nine bytes as a row tells.
fn reads_nine(alloc: Global, row: &str) -> Result<bool, Fail> {
    let image = reading(alloc)?;
    let (mut vcpu, mut page) = met(alloc, &image, VERSION_1)?;
    let told = talks(alloc, &image, &mut vcpu, &mut page, row)?;
    let (first, last) = (bytes_at(&vcpu, 0x100), bytes_at(&vcpu, 0x108));
    Ok(told && first == Some(0x0807_0605_0403_0201) && last == Some(9))
}

/// Replies with these in the place of the count and the scratch address.
const NINE: &str = "115:3F8021D 116:9 117:80000800 | 9 3 | 115:0 116:9 117:80000800 \
    256:807060504030201 257:FFFFFFFFFFFFFF09 | 1:0 7:109 | 11 C
115:3F8021D 116:9 117:80000800 | 9 3 | 115:0 116:3 117:0 \
    256:807060504030201 257:FFFFFFFFFFFFFF09 | 1:0 7:109 | 11 C
115:3F8021D 116:9 117:80000800 | 9 3 | 115:0 116:FFFFFFFFFFFFFFFF 117:100 \
    256:807060504030201 257:FFFFFFFFFFFFFF09 | 1:0 7:109 | 11 C";

#[test]
fn the_count_and_the_scratch_address_of_a_reply_change_nothing(
    rt: HostRuntime,
) -> Result<(), Fail> {
    for line in NINE.lines() {
        assert!(rt; reads_nine(rt.alloc(), line)?, "{line}");
    }
    Ok(())
}

/// #GP(0) in the place of a block: no element is placed, and the handler at 17 is entered with a frame of 48 bytes.
const RAISED: &str =
    "116:9 | 9 3 | 115:1 116:80000B0D 256:FFFFFFFFFFFFFFFF | 1:9 4:FD0 7:100 | 11 4";

#[test]
fn an_exception_in_the_place_of_a_block_is_delivered_once(rt: HostRuntime) -> Result<(), Fail> {
    let alloc = rt.alloc();
    let image = reading(alloc)?;
    let (mut vcpu, mut page) = met(alloc, &image, VERSION_1)?;
    assert!(rt; talks(alloc, &image, &mut vcpu, &mut page, RAISED)?);
    assert_eq!(rt; bytes_at(&vcpu, 0x100), Some(0));
    // the frame has the code 0 and the address of REP INSB
    assert_eq!(rt;
        (bytes_at(&vcpu, 0xFD0), bytes_at(&vcpu, 0xFD8)),
        (Some(0), Some(15))
    );
    assert!(rt; halts(&image, &mut vcpu, &mut page, 5));
    Ok(())
}

fn crosses<T: Send>(value: T) -> T {
    value
}

fn is_shared<T: Sync>(_: &T) {}

#[test]
fn a_vcpu_goes_to_another_thread(rt: HostRuntime) -> Result<(), Fail> {
    let image = printing(rt.alloc())?;
    let vcpu = crosses(Vcpu::new(&image, 0, image.ram(rt.alloc())?));
    is_shared(&vcpu);
    Ok(())
}
