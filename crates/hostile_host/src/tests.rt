// Guests over scripts: each trace item by item, the end, the steps and RAX.
ghost use Rattle.std.specs.Prelude.{◌<◌};

use crate::hostile_run;
use event_table::{End, Reason};
use hex_rows::Row;
use image_samples::sample_image;
use page_words::{Item, Recorded, Script, Word};
use std::alloc::Global;
use std::test::Fail;
use vcpu_core::Vcpu;
use x86_base::Reg;

/// The host offers version 1.
const VERSION_1: u64 = 0x0001_0001_3300_0001;

/// MOV EDX, 3F8h; MOV AL, 48h; OUT DX, AL; HLT.
const PRINTS: [u8; 9] = [0xBA, 0xF8, 3, 0, 0, 0xB0, 0x48, 0xEE, 0xF4];

/// MOV RAX, 1122334455667788h; MOV EDX, 3F8h; IN AL, DX; HLT.
const READS: [u8; 17] = [
    0x48, 0xB8, 0x88, 0x77, 0x66, 0x55, 0x44, 0x33, 0x22, 0x11, 0xBA, 0xF8, 3, 0, 0, 0xEC, 0xF4,
];

/// A run and its record.
#[derive(Drop)]
struct Run {
    vcpu: Vcpu,
    page: Recorded<Script>,
}

/// A guest of that code against a script.
fn run_over(alloc: Global, code: &[u8], words: &[u64]) -> Result<Run, Fail> {
    let image = sample_image(alloc, code, 0, 0)?;
    let mut page = Recorded::new(alloc, Script::new(Vec::from_slice(alloc, words)?));
    let vcpu = hostile_run(alloc, &image, 100, &mut page)?;
    Ok(Run { vcpu, page })
}

fn store(number: u16, value: u64) -> Item
    requires { number < 512 }
{
    Item::Store(Word::new(number).unwrap(), value)
}

fn load(number: u16, value: u64) -> Item
    requires { number < 512 }
{
    Item::Load(Word::new(number).unwrap(), value)
}

/// What the printing guest makes up to its exit.
fn printed() -> [Item; 12] {
    [
        Item::Exit(2),
        Item::Msr(VERSION_1),
        store(126, 0),
        store(127, 0),
        store(63, 0x48),
        store(114, 0x7B),
        store(115, 0x03F8_0210),
        store(116, 0),
        store(126, 0x8000_0000_0000_0000),
        store(127, 0x001C_0000_0000_0000),
        store(511, 0x1_0000),
        Item::Exit(0x8000_0000),
    ]
}

/// What the reading guest makes up to its exit, where its event has this word.
fn asked(info: u64) -> [Item; 11] {
    [
        Item::Exit(2),
        Item::Msr(VERSION_1),
        store(126, 0),
        store(127, 0),
        store(114, 0x7B),
        store(115, info),
        store(116, 0),
        store(126, 0),
        store(127, 0x001C_0000_0000_0000),
        store(511, 0x1_0000),
        Item::Exit(0x8000_0000),
    ]
}

/// Whether these are all the items, in two parts.
fn are(items: &[Item], first: &[Item], last: &[Item]) -> bool {
    items.len() >= first.len() && &items[..first.len()] == first && &items[first.len()..] == last
}

#[test]
fn no_version_ends_the_guest_before_its_first_step(rt: HostRuntime) -> Result<(), Fail> {
    let run = run_over(rt.alloc(), &PRINTS, &[])?;
    let made = [Item::Exit(2), Item::Msr(0), Item::Exit(0x1_0100)];
    assert!(rt; are(run.page.items(), &made, &[]));
    assert_eq!(rt;
        run.vcpu.end(),
        Some(End::Terminated(Reason::NoProtocol(0)))
    );
    assert_eq!(rt; run.vcpu.steps(), 0);
    Ok(())
}

#[test]
fn a_byte_is_shown_and_its_reply_taken(rt: HostRuntime) -> Result<(), Fail> {
    let run = run_over(rt.alloc(), &PRINTS, &[VERSION_1])?;
    assert!(rt; are(run.page.items(), &printed(), &[load(115, 0)]));
    assert_eq!(rt; run.vcpu.end(), Some(End::Halted));
    assert_eq!(rt; run.vcpu.steps(), 4);
    Ok(())
}

#[test]
fn an_exception_without_a_handler_is_a_fault(rt: HostRuntime) -> Result<(), Fail> {
    let run = run_over(rt.alloc(), &PRINTS, &[VERSION_1, 1, 0x8000_0B0D])?;
    assert!(rt;
        are(
            run.page.items(),
            &printed(),
            &[load(115, 1), load(116, 0x8000_0B0D)]
        )
    );
    assert_eq!(rt; run.vcpu.end(), Some(End::Fault(13)));
    assert_eq!(rt; run.vcpu.steps(), 2);
    Ok(())
}

#[test]
fn another_vector_ends_the_communication(rt: HostRuntime) -> Result<(), Fail> {
    let run = run_over(rt.alloc(), &PRINTS, &[VERSION_1, 1, 0x8000_0B0E])?;
    let last = [load(115, 1), load(116, 0x8000_0B0E), Item::Exit(0x100)];
    assert!(rt; are(run.page.items(), &printed(), &last));
    assert_eq!(rt;
        run.vcpu.end(),
        Some(End::Terminated(Reason::BadException(0x8000_0B0E)))
    );
    assert_eq!(rt; run.vcpu.steps(), 2);
    Ok(())
}

#[test]
fn a_result_without_its_valid_bit_is_not_taken(rt: HostRuntime) -> Result<(), Fail> {
    let code = [0xBA, 0xF8, 3, 0, 0, 0xEC, 0xF4];
    let run = run_over(rt.alloc(), &code, &[VERSION_1])?;
    let last = [load(115, 0), load(126, 0), Item::Exit(0x100)];
    assert!(rt; are(run.page.items(), &asked(0x03F8_0211), &last));
    assert_eq!(rt;
        run.vcpu.end(),
        Some(End::Terminated(Reason::MissingResult(0, 0)))
    );
    assert_eq!(rt; run.vcpu.steps(), 1);
    Ok(())
}

#[test]
fn a_result_is_cut_to_its_width(rt: HostRuntime) -> Result<(), Fail> {
    let words = [VERSION_1, 0, 0x8000_0000_0000_0000, 0xFFFF_FFFF_FFFF_FF41];
    let last = [load(115, 0), load(126, words[2]), load(63, words[3])];
    let byte = run_over(rt.alloc(), &READS, &words)?;
    assert!(rt; are(byte.page.items(), &asked(0x03F8_0211), &last));
    assert_eq!(rt; byte.vcpu.end(), Some(End::Halted));
    assert_eq!(rt; byte.vcpu.steps(), 4);
    assert_eq!(rt; byte.vcpu.regs().get(Reg::Rax), 0x1122_3344_5566_7741);
    let mut code = READS;
    code[15] = 0xED;
    let double = run_over(rt.alloc(), &code, &words)?;
    assert!(rt; are(double.page.items(), &asked(0x03F8_0241), &last));
    assert_eq!(rt; double.vcpu.regs().get(Reg::Rax), 0xFFFF_FF41);
    Ok(())
}

/// Whether two records agree up to the value that comes after so many.
fn agree(items: &[Item], others: &[Item], values: usize) -> bool {
    let mut left = values;
    for (item, other) in items.iter().zip(others) {
        if let Item::Load(_, _) | Item::Msr(_) = item {
            if left == 0 {
                return true;
            }
            left -= 1;
        }
        if item != other {
            return false;
        }
    }
    true
}

#[test]
fn a_script_that_is_cut_agrees_up_to_the_cut(rt: HostRuntime) -> Result<(), Fail> {
    let words = [VERSION_1, 0, 0x8000_0000_0000_0000, 0xFFFF_FFFF_FFFF_FF41];
    let whole = run_over(rt.alloc(), &READS, &words)?;
    for cut in 0..4 {
        let part = run_over(rt.alloc(), &READS, &words[..cut])?;
        assert!(rt; agree(whole.page.items(), part.page.items(), cut));
    }
    Ok(())
}

/// MOV ESI, 3; MOV ECX, 9; MOV EDX, 3F8h; REP OUTSB; HLT.
const PRINTS_BLOCK: [u8; 18] = [
    0xBE, 3, 0, 0, 0, 0xB9, 9, 0, 0, 0, 0xBA, 0xF8, 3, 0, 0, 0xF3, 0x6E, 0xF4,
];

/// MOV EDI, 100h; MOV ECX, 9; MOV EDX, 3F8h; REP INSB; HLT.
const READS_BLOCK: [u8; 18] = [
    0xBF, 0, 1, 0, 0, 0xB9, 9, 0, 0, 0, 0xBA, 0xF8, 3, 0, 0, 0xF3, 0x6C, 0xF4,
];

/// What the guest that prints nine of its own bytes makes up to its exit.
fn printed_block() -> [Item; 14] {
    [
        Item::Exit(2),
        Item::Msr(VERSION_1),
        store(126, 0),
        store(127, 0),
        store(114, 0x7B),
        store(115, 0x03F8_0E1C),
        store(116, 9),
        store(117, 0x8000_0800),
        store(256, 0xBA00_0000_09B9_0000),
        store(257, 0xF8),
        store(126, 0),
        store(127, 0x003C_0000_0000_0000),
        store(511, 0x1_0000),
        Item::Exit(0x8000_0000),
    ]
}

/// What a guest that reads a block makes up to its exit, where its event has these words.
fn asked_block(info: u64, count: u64) -> [Item; 12] {
    [
        Item::Exit(2),
        Item::Msr(VERSION_1),
        store(126, 0),
        store(127, 0),
        store(114, 0x7B),
        store(115, info),
        store(116, count),
        store(117, 0x8000_0800),
        store(126, 0),
        store(127, 0x003C_0000_0000_0000),
        store(511, 0x1_0000),
        Item::Exit(0x8000_0000),
    ]
}

#[test]
fn a_block_of_output_hears_its_status_alone(rt: HostRuntime) -> Result<(), Fail> {
    let run = run_over(rt.alloc(), &PRINTS_BLOCK, &[VERSION_1])?;
    assert!(rt; are(run.page.items(), &printed_block(), &[load(115, 0)]));
    assert_eq!(rt; run.vcpu.end(), Some(End::Halted));
    assert_eq!(rt; run.vcpu.steps(), 13);
    assert_eq!(rt; run.vcpu.regs().get(Reg::Rsi), 12);
    assert_eq!(rt; run.vcpu.regs().get(Reg::Rcx), 0);
    Ok(())
}

#[test]
fn an_exception_in_the_place_of_a_block_is_a_fault(rt: HostRuntime) -> Result<(), Fail> {
    let run = run_over(rt.alloc(), &PRINTS_BLOCK, &[VERSION_1, 1, 0x8000_0B0D])?;
    let last = [load(115, 1), load(116, 0x8000_0B0D)];
    assert!(rt; are(run.page.items(), &printed_block(), &last));
    assert_eq!(rt; run.vcpu.end(), Some(End::Fault(13)));
    assert_eq!(rt; run.vcpu.steps(), 3);
    assert_eq!(rt; run.vcpu.regs().get(Reg::Rcx), 9);
    Ok(())
}

#[test]
fn a_block_of_input_hears_neither_a_count_nor_a_scratch_address(
    rt: HostRuntime,
) -> Result<(), Fail> {
    let words = [VERSION_1, 0, 0x0807_0605_0403_0201, 0xFFFF_FFFF_FFFF_FF09];
    let run = run_over(rt.alloc(), &READS_BLOCK, &words)?;
    let last = [load(115, 0), load(256, words[2]), load(257, words[3])];
    assert!(rt; are(run.page.items(), &asked_block(0x03F8_021D, 9), &last));
    assert_eq!(rt; run.vcpu.end(), Some(End::Halted));
    assert_eq!(rt; run.vcpu.steps(), 13);
    assert_eq!(rt; run.vcpu.ram().read(0x100, 8).ok(), Some(words[2]));
    assert_eq!(rt; run.vcpu.ram().read(0x108, 2).ok(), Some(9));
    assert_eq!(rt; run.vcpu.regs().get(Reg::Rdi), 0x109);
    Ok(())
}

/// MOV EDI, 18h; STD; MOV ECX, 3; MOV EDX, 500h; REP INSD; HLT. The third element would be at 10h, in the
/// code.
const READS_DOWN: [u8; 19] = [
    0xBF, 0x18, 0, 0, 0, 0xFD, 0xB9, 3, 0, 0, 0, 0xBA, 0, 5, 0, 0, 0xF3, 0x6D, 0xF4,
];

#[test]
fn a_block_that_comes_down_to_the_code_is_cut_there(rt: HostRuntime) -> Result<(), Fail> {
    let words = [VERSION_1, 0, 0x1111_1111_2222_2222];
    let run = run_over(rt.alloc(), &READS_DOWN, &words)?;
    let last = [load(115, 0), load(256, words[2])];
    assert!(rt; are(run.page.items(), &asked_block(0x0500_024D, 2), &last));
    assert_eq!(rt; run.vcpu.ram().read(0x18, 4).ok(), Some(0x2222_2222));
    assert_eq!(rt; run.vcpu.ram().read(0x14, 4).ok(), Some(0x1111_1111));
    assert_eq!(rt; run.vcpu.regs().get(Reg::Rcx), 1);
    assert_eq!(rt; run.vcpu.regs().get(Reg::Rdi), 0x10);
    assert_eq!(rt; run.vcpu.end(), Some(End::BadAddress(0x10)));
    assert_eq!(rt; run.vcpu.steps(), 6);
    Ok(())
}

/// What a guest that writes RBX, which is FEB00010h, to its address, or reads from there, makes up to its exit, as the
/// shown words of its event are.
fn asked_move(code: u64, len: u64) -> [Item; 8] {
    [
        Item::Exit(2),
        Item::Msr(VERSION_1),
        store(126, 0),
        store(127, 0),
        store(114, code),
        store(115, 0xFEB0_0010),
        store(116, len),
        store(117, 0x8000_0800),
    ]
}

/// The last items up to its exit, and the load of the status 0.
fn exits() -> [Item; 5] {
    [
        store(126, 0),
        store(127, 0x003C_0000_0000_0000),
        store(511, 0x1_0000),
        Item::Exit(0x8000_0000),
        load(115, 0),
    ]
}

/// A run of MOV EBX, FEB00010h; an instruction; HLT: version 1 is offered, the status is 0, and the two words
/// behind it come next.
fn run_moving(alloc: Global, insn: &[u8], word: u64) -> Result<Run, Fail> {
    let mut code = Row::new("BB 10 00 B0 FE").bytes(alloc)?;
    code.extend_from_slice(insn)?;
    code.push(0xF4)?;
    run_over(alloc, code.as_slice(), &[VERSION_1, 0, word, u64::MAX])
}

/// Whether a run has come to its HLT with this in RAX.
fn halts(run: &Run, rax: u64) -> bool {
    run.vcpu.end() == Some(End::Halted) && run.vcpu.regs().get(Reg::Rax) == rax
}

/// The first row of moves from [RBX], each with its length and RAX afterwards, that makes other items or another
/// RAX of a word with all its bits.
fn misread<'a>(alloc: Global, table: &'a str) -> Result<Option<&'a str>, Fail> {
    let word = 0x8877_6655_F433_A291;
    for line in table.lines() {
        let mut row = Row::new(line);
        let insn = row.bytes(alloc)?;
        let [len, rax] = row.numbers::<2>()?;
        let run = run_moving(alloc, insn.as_slice(), word)?;
        let [low, high, version, exit, status] = exits();
        let last = [low, high, version, exit, status, load(256, word)];
        if !are(run.page.items(), &asked_move(0x8000_0001, len), &last) || !halts(&run, rax) {
            return Ok(Some(line));
        }
    }
    Ok(None)
}

/// Moves from [RBX] to RAX: MOV, MOVZX and MOVSX.
const READING_MOVES: &str = "8A 03 | 1 91
8A 23 | 1 9100
66 8B 03 | 2 A291
8B 03 | 4 F433A291
48 8B 03 | 8 88776655F433A291
48 0F B6 03 | 1 91
0F B7 03 | 2 A291
0F BE 03 | 1 FFFFFF91
48 0F BF 03 | 2 FFFFFFFFFFFFA291";

#[test]
fn a_read_of_the_page_is_cut_to_its_length(rt: HostRuntime) -> Result<(), Fail> {
    assert_eq!(rt; misread(rt.alloc(), READING_MOVES)?, None);
    Ok(())
}

/// The first row of moves to [RBX], each with its length and word 256, that makes other items: of the reply it hears
/// its status alone.
fn miswritten<'a>(alloc: Global, table: &'a str) -> Result<Option<&'a str>, Fail> {
    for line in table.lines() {
        let mut row = Row::new(line);
        let insn = row.bytes(alloc)?;
        let [len, number] = row.numbers::<2>()?;
        let run = run_moving(alloc, insn.as_slice(), u64::MAX)?;
        let [low, high, version, exit, status] = exits();
        let last = [store(256, number), low, high, version, exit, status];
        if !are(run.page.items(), &asked_move(0x8000_0002, len), &last) || !halts(&run, 0) {
            return Ok(Some(line));
        }
    }
    Ok(None)
}

/// Moves of BL, BH, BX, EBX, RBX and -128 to [RBX].
const WRITING_MOVES: &str = "88 1B | 1 10
88 3B | 1 0
66 89 1B | 2 10
89 1B | 4 FEB00010
48 89 1B | 8 FEB00010
C6 03 80 | 1 80";

#[test]
fn a_write_to_the_page_shows_its_bytes_alone(rt: HostRuntime) -> Result<(), Fail> {
    assert_eq!(rt; miswritten(rt.alloc(), WRITING_MOVES)?, None);
    Ok(())
}

#[test]
fn a_move_that_leaves_the_page_tells_nothing(rt: HostRuntime) -> Result<(), Fail> {
    // MOV EAX, FEB00FFDh; MOV EAX, [RAX]; HLT
    let code = [0xB8, 0xFD, 0x0F, 0xB0, 0xFE, 0x8B, 0x00, 0xF4];
    let run = run_over(rt.alloc(), &code, &[VERSION_1])?;
    let made = [Item::Exit(2), Item::Msr(VERSION_1)];
    assert!(rt; are(run.page.items(), &made, &[]));
    assert_eq!(rt; run.vcpu.end(), Some(End::BadAddress(0xFEB0_0FFD)));
    assert_eq!(rt; run.vcpu.steps(), 1);
    Ok(())
}
