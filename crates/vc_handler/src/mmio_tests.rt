// Moves that reach the page of devices, by their bytes: what they ask and show, and what becomes of the reply.
ghost use Rattle.std.specs.Prelude.{IfOk};
ghost use Rattle.event_table.specs.Lawful.{IsLawfulEvent};

use crate::tests::{Answer, SCRATCH, bad, bad_status, difference, page_with, put, ram_of, taken};
use crate::{Unsupported, Vc};
use event_table::{Access, Event, Outcome, named, place};
use hex_rows::Row;
use insn_decode::decode;
use page_words::Words;
use std::alloc::Global;
use std::test::Fail;
use x86_base::{Flags, Regs};

/// The first byte of the page of devices.
const PAGE: u64 = 0xFEB0_0000;

/// The code of #VC for a move that reaches it: that of a nested page fault.
const MMIO: u64 = 0x400;

/// What a byte k of register n is: 20h + 10h * k + n. So AL is 20h, AH is 30h, CL is 21h, SPL is 24h, and
/// bits 63:56 of R15 are 9Fh. But RDI is the address of byte 10h of the page of devices.
fn regs() -> Regs {
    let mut gpr = [0; 16];
    for number in 0..16 {
        gpr[number] = 0x9080_7060_5040_3020 + number as u64 * 0x0101_0101_0101_0101;
    }
    gpr[7] = PAGE + 0x10;
    Regs {
        gpr,
        rip: 0,
        flags: Flags::from_word(2),
    }
}

/// What the first instruction of a code asks at registers.
fn begun(alloc: Global, code: &[u8], regs: &Regs) -> Result<Event, Fail>
    ensures lawful { IfOk result IsLawfulEvent }
{
    match Vc::new(1).begin(MMIO, regs, &ram_of(alloc, code)?) {
        Ok(event) => Ok(event),
        Err(_) => Err(Fail::new("no event")),
    }
}

/// The access of a move at the registers above, and the registers after a reply with this word.
fn moved(alloc: Global, code: &[u8], word: u64) -> Result<(Access, Regs), Fail> {
    let mut ram = ram_of(alloc, code)?;
    let mut regs = regs();
    let event = begun(alloc, code, &regs)?;
    let mut page = Words::new();
    put(&mut page, &[(256, word)]);
    let outcome = Vc::new(1).accept(&event, &mut page);
    let (Event::One(access), Outcome::Done(reply), Ok(insn)) = (event, outcome, decode(code)) else {
        return Err(Fail::new("no access, no reply or no instruction"));
    };
    if named(&regs, &ram, &insn).is_some() {
        place(&mut regs, &mut ram, &insn, &reply.values);
    }
    Ok((access, regs))
}

/// The address, the length and the number of a write to the page of devices.
fn written(access: Access) -> Option<(u64, u64, u64)> {
    match access {
        Access::MmioWrite { at, len, value } => Some((at, u64::from(len), value)),
        _ => None,
    }
}

/// The address and the length of a read of the page of devices.
fn read(access: Access) -> Option<(u64, u64)> {
    match access {
        Access::MmioRead { at, len } => Some((at, u64::from(len))),
        _ => None,
    }
}

/// The first row of moves, each with a length and a number, that doesn't write just these bytes at the address in
/// RDI, or that changes more than RIP.
fn unwritten<'a>(alloc: Global, table: &'a str) -> Result<Option<&'a str>, Fail> {
    for line in table.lines() {
        let mut row = Row::new(line);
        let code = row.bytes(alloc)?;
        let [len, value] = row.numbers::<2>()?;
        let (access, after) = moved(alloc, code.as_slice(), u64::MAX)?;
        if written(access) != Some((PAGE + 0x10, len, value))
            || after.gpr != regs().gpr
            || after.rip != code.len() as u64
        {
            return Ok(Some(line));
        }
    }
    Ok(None)
}

/// MOVs to the address in RDI, and the bytes that each writes.
const TO_PAGE: &str = "88 07 | 1 20 ; AL
88 0F | 1 21 ; CL
88 17 | 1 22 ; DL
88 1F | 1 23 ; BL
88 27 | 1 30 ; AH
88 2F | 1 31 ; CH
88 37 | 1 32 ; DH
88 3F | 1 33 ; BH
40 88 27 | 1 24 ; with REX SPL
40 88 2F | 1 25 ; BPL
40 88 37 | 1 26 ; SIL
40 88 3F | 1 10 ; DIL
48 88 27 | 1 24 ; SPL
44 88 07 | 1 28 ; R8B
44 88 27 | 1 2C ; R12B
44 88 3F | 1 2F ; R15B
66 89 07 | 2 3020 ; AX
66 89 27 | 2 3424 ; SP
66 89 3F | 2 0010 ; DI
66 44 89 07 | 2 3828 ; R8W
66 44 89 3F | 2 3F2F ; R15W
89 07 | 4 50403020 ; EAX
89 27 | 4 54443424 ; ESP
89 3F | 4 FEB00010 ; EDI
44 89 27 | 4 5C4C3C2C ; R12D
48 89 07 | 8 9080706050403020 ; RAX
48 89 27 | 8 9484746454443424 ; RSP
4C 89 3F | 8 9F8F7F6F5F4F3F2F ; R15
66 48 89 07 | 8 9080706050403020 ; RAX: REX.W goes before 66
48 89 3F | 8 FEB00010 ; RDI";

#[test]
fn a_move_to_the_page_of_devices_writes_its_register(rt: HostRuntime) -> Result<(), Fail> {
    assert_eq!(rt; unwritten(rt.alloc(), TO_PAGE)?, None);
    Ok(())
}

/// MOVs of an immediate to the address in RDI, and the bytes that each writes.
const OF_IMMEDIATES: &str = "C6 07 80 | 1 80
48 C6 07 80 | 1 80
66 C7 07 01 80 | 2 8001
C7 07 FE FF FF FF | 4 FFFFFFFE
48 C7 07 FE FF FF FF | 8 FFFFFFFFFFFFFFFE
48 C7 07 FE FF FF 7F | 8 7FFFFFFE
66 48 C7 07 00 00 00 80 | 8 FFFFFFFF80000000
48 C7 07 01 00 00 00 | 8 1";

#[test]
fn the_immediate_of_48_c7_is_sign_extended_and_passed_whole(rt: HostRuntime) -> Result<(), Fail> {
    assert_eq!(rt; unwritten(rt.alloc(), OF_IMMEDIATES)?, None);
    Ok(())
}

/// The registers above with this in the register of that number.
fn regs_with(number: u64, value: u64) -> Regs {
    let mut regs = regs();
    if let Some(slot) = regs.gpr.get_mut((number % 16) as usize) {
        *slot = value;
    }
    regs
}

/// The first row of moves, each with a length, a register's number and what is in the register, that doesn't read
/// this many bytes at the address in RDI, or that changes more than RIP and that register to this.
fn unread<'a>(alloc: Global, table: &'a str) -> Result<Option<&'a str>, Fail> {
    for line in table.lines() {
        let mut row = Row::new(line);
        let code = row.bytes(alloc)?;
        let [len, number, value] = row.numbers::<3>()?;
        let (access, after) = moved(alloc, code.as_slice(), 0xF1E2_D3C4_B5A6_9788)?;
        if read(access) != Some((PAGE + 0x10, len))
            || after.gpr != regs_with(number, value).gpr
            || after.rip != code.len() as u64
        {
            return Ok(Some(line));
        }
    }
    Ok(None)
}

/// MOVs from the address in RDI, the bytes that each asks, its register and what stands there afterwards.
const FROM_PAGE: &str = "8A 07 | 1 0 9080706050403088 ; AL: no other byte changes
8A 1F | 1 3 9383736353433388 ; BL
8A 27 | 1 0 9080706050408820 ; AH
8A 2F | 1 1 9181716151418821 ; CH
8A 37 | 1 2 9282726252428822 ; DH
8A 3F | 1 3 9383736353438823 ; BH
40 8A 27 | 1 4 9484746454443488 ; with REX SPL
40 8A 2F | 1 5 9585756555453588 ; BPL
40 8A 37 | 1 6 9686766656463688 ; SIL
40 8A 3F | 1 7 FEB00088 ; DIL
44 8A 07 | 1 8 9888786858483888 ; R8B
44 8A 3F | 1 F 9F8F7F6F5F4F3F88 ; R15B
66 8B 07 | 2 0 9080706050409788 ; AX: bits 63:16 stay
66 8B 27 | 2 4 9484746454449788 ; SP
66 44 8B 27 | 2 C 9C8C7C6C5C4C9788 ; R12W
8B 07 | 4 0 B5A69788 ; EAX: bits 63:32 are cleared
8B 27 | 4 4 B5A69788 ; ESP
8B 3F | 4 7 B5A69788 ; EDI
44 8B 07 | 4 8 B5A69788 ; R8D
48 8B 07 | 8 0 F1E2D3C4B5A69788 ; RAX
48 8B 27 | 8 4 F1E2D3C4B5A69788 ; RSP
48 8B 3F | 8 7 F1E2D3C4B5A69788 ; RDI
4C 8B 3F | 8 F F1E2D3C4B5A69788 ; R15
66 48 8B 07 | 8 0 F1E2D3C4B5A69788 ; RAX";

#[test]
fn a_move_from_the_page_of_devices_writes_its_register_alone(rt: HostRuntime) -> Result<(), Fail> {
    assert_eq!(rt; unread(rt.alloc(), FROM_PAGE)?, None);
    Ok(())
}

/// The same with MOVZX and MOVSX: the bytes that are asked are the source's, and at 16 bits the destination keeps
/// bits 63:16.
const EXTENDED: &str = "66 0F B6 07 | 1 0 9080706050400088 ; MOVZX of 8 bits
0F B6 07 | 1 0 88
0F B6 27 | 1 4 88
40 0F B6 27 | 1 4 88
44 0F B6 3F | 1 F 88
48 0F B6 07 | 1 0 88
66 0F B7 07 | 2 0 9080706050409788 ; MOVZX of 16 bits
0F B7 07 | 2 0 9788
44 0F B7 07 | 2 8 9788
48 0F B7 3F | 2 7 9788
66 0F BE 07 | 1 0 908070605040FF88 ; MOVSX of 8 bits
0F BE 07 | 1 0 FFFFFF88
0F BE 27 | 1 4 FFFFFF88
44 0F BE 3F | 1 F FFFFFF88
48 0F BE 07 | 1 0 FFFFFFFFFFFFFF88
66 48 0F BE 07 | 1 0 FFFFFFFFFFFFFF88
66 0F BF 07 | 2 0 9080706050409788 ; MOVSX of 16 bits
0F BF 07 | 2 0 FFFF9788
48 0F BF 07 | 2 0 FFFFFFFFFFFF9788
4C 0F BF 27 | 2 C FFFFFFFFFFFF9788";

#[test]
fn movzx_and_movsx_to_32_bits_clear_bits_63_to_32(rt: HostRuntime) -> Result<(), Fail> {
    assert_eq!(rt; unread(rt.alloc(), EXTENDED)?, None);
    Ok(())
}

/// The access of the first instruction of a code at registers, if it has one.
fn access_at(alloc: Global, code: &[u8], regs: &Regs) -> Result<Option<Access>, Fail> {
    match Vc::new(1).begin(MMIO, regs, &ram_of(alloc, code)?) {
        Ok(Event::One(access)) => Ok(Some(access)),
        _ => Ok(None),
    }
}

/// The first row of moves, each with what one register is, that isn't a read of this many bytes at this address.
fn unasked<'a>(alloc: Global, table: &'a str) -> Result<Option<&'a str>, Fail> {
    for line in table.lines() {
        let mut row = Row::new(line);
        let code = row.bytes(alloc)?;
        let [number, value, at, len] = row.numbers::<4>()?;
        let access = access_at(alloc, code.as_slice(), &regs_with(number, value))?;
        if access.and_then(read) != Some((at, len)) {
            return Ok(Some(line));
        }
    }
    Ok(None)
}

/// The first row of codes, each with what one register is, that asks something with the code of a nested page
/// fault.
fn asked<'a>(alloc: Global, table: &'a str) -> Result<Option<&'a str>, Fail> {
    for line in table.lines() {
        let mut row = Row::new(line);
        let code = row.bytes(alloc)?;
        let [number, value] = row.numbers::<2>()?;
        if access_at(alloc, code.as_slice(), &regs_with(number, value))?.is_some() {
            return Ok(Some(line));
        }
    }
    Ok(None)
}

/// MOV AL, [base + 8] by REX.B and a SIB byte without an index, and MOV AL, [index * 2] by REX.X; the number of
/// the register, what it is, and the address and the length of the read.
const BASES_AND_INDEXES: &str = "40 8A 44 20 08 | 0 FEB00018 FEB00020 1
40 8A 44 21 08 | 1 FEB00018 FEB00020 1
40 8A 44 22 08 | 2 FEB00018 FEB00020 1
40 8A 44 23 08 | 3 FEB00018 FEB00020 1
40 8A 44 24 08 | 4 FEB00018 FEB00020 1
40 8A 44 25 08 | 5 FEB00018 FEB00020 1
40 8A 44 26 08 | 6 FEB00018 FEB00020 1
40 8A 44 27 08 | 7 FEB00018 FEB00020 1
41 8A 44 20 08 | 8 FEB00018 FEB00020 1
41 8A 44 21 08 | 9 FEB00018 FEB00020 1
41 8A 44 22 08 | A FEB00018 FEB00020 1
41 8A 44 23 08 | B FEB00018 FEB00020 1
41 8A 44 24 08 | C FEB00018 FEB00020 1
41 8A 44 25 08 | D FEB00018 FEB00020 1
41 8A 44 26 08 | E FEB00018 FEB00020 1
41 8A 44 27 08 | F FEB00018 FEB00020 1
40 8A 04 45 00 00 00 00 | 0 7F580010 FEB00020 1
40 8A 04 4D 00 00 00 00 | 1 7F580010 FEB00020 1
40 8A 04 55 00 00 00 00 | 2 7F580010 FEB00020 1
40 8A 04 5D 00 00 00 00 | 3 7F580010 FEB00020 1
40 8A 04 6D 00 00 00 00 | 5 7F580010 FEB00020 1
40 8A 04 75 00 00 00 00 | 6 7F580010 FEB00020 1
40 8A 04 7D 00 00 00 00 | 7 7F580010 FEB00020 1
42 8A 04 45 00 00 00 00 | 8 7F580010 FEB00020 1
42 8A 04 4D 00 00 00 00 | 9 7F580010 FEB00020 1
42 8A 04 55 00 00 00 00 | A 7F580010 FEB00020 1
42 8A 04 5D 00 00 00 00 | B 7F580010 FEB00020 1
42 8A 04 65 00 00 00 00 | C 7F580010 FEB00020 1
42 8A 04 6D 00 00 00 00 | D 7F580010 FEB00020 1
42 8A 04 75 00 00 00 00 | E 7F580010 FEB00020 1
42 8A 04 7D 00 00 00 00 | F 7F580010 FEB00020 1";

#[test]
fn each_register_is_a_base_and_an_index_but_rsp(rt: HostRuntime) -> Result<(), Fail> {
    assert_eq!(rt; unasked(rt.alloc(), BASES_AND_INDEXES)?, None);
    // index 4 without REX.X is none
    let none = "40 8A 04 65 00 00 00 00 | 4 7F580010";
    assert_eq!(rt; asked(rt.alloc(), none)?, None);
    Ok(())
}

#[test]
fn rex_b_with_rm_5_is_relative_to_rip_and_not_r13(rt: HostRuntime) -> Result<(), Fail> {
    let rip = "41 8A 05 00 00 00 00 | D FEB00000 ; MOV AL, [RIP + 0]";
    assert_eq!(rt; asked(rt.alloc(), rip)?, None);
    let r13 = "41 8A 45 00 | D FEB00000 FEB00000 1 ; MOV AL, [R13 + 0]
41 8A 44 3D F1 | D 0 FEB00001 1 ; MOV AL, [R13 + RDI * 1 - 0Fh]";
    assert_eq!(rt; unasked(rt.alloc(), r13)?, None);
    Ok(())
}

/// Sums that lie in the page of devices; RDI is FEB00010h.
const SUMS: &str = "8B 47 F0 | 1 0 FEB00000 4 ; MOV EAX, [RDI - 10h]
8B 04 CF | 1 FFFFFFFFFFFFFFFF FEB00008 4 ; MOV EAX, [RDI + RCX * 8]
8B 04 CF | 1 1FFFFFFFFFFFFFFF FEB00008 4";

/// Sums that lie outside: the first byte of the first is below the page, and the displacement of 32 bits of the
/// other is sign-extended.
const SUMS_OUTSIDE: &str = "8B 47 EF | 1 0 ; MOV EAX, [RDI - 11h]
8B 04 25 00 00 B0 FE | 1 0 ; MOV EAX, [FFFFFFFFFEB00000h]";

#[test]
fn an_address_is_a_sum_modulo_2_to_the_64(rt: HostRuntime) -> Result<(), Fail> {
    assert_eq!(rt; unasked(rt.alloc(), SUMS)?, None);
    assert_eq!(rt; asked(rt.alloc(), SUMS_OUTSIDE)?, None);
    Ok(())
}

/// Instructions at the address in RDI that are no moves.
const NO_MOVES: &str = "00 07 | 1 0 ; ADD
38 07 | 1 0 ; CMP
84 07 | 1 0 ; TEST
F6 17 | 1 0 ; NOT
FE 07 | 1 0 ; INC
D0 27 | 1 0 ; SHL
0F AF 07 | 1 0 ; IMUL
48 63 07 | 1 0 ; MOVSXD
48 8D 07 | 1 0 ; LEA
0F 94 07 | 1 0 ; SETZ
0F 44 07 | 1 0 ; CMOVZ
0F 1F 07 | 1 0 ; NOP";

#[test]
fn other_instructions_ask_nothing_of_the_page_of_devices(rt: HostRuntime) -> Result<(), Fail> {
    assert_eq!(rt; asked(rt.alloc(), NO_MOVES)?, None);
    Ok(())
}

#[test]
fn a_move_asks_with_the_code_of_a_nested_page_fault_alone(rt: HostRuntime) -> Result<(), Fail> {
    let ram = ram_of(rt.alloc(), &[0x88, 0x07])?;
    for code in [0, 0x7B, 0x401, 0x8000_0001, 0x8000_0002, 0x1_0000_0400] {
        let event = Vc::new(0).begin(code, &regs(), &ram);
        assert_eq!(rt; event.err(), Some(Unsupported(code)));
    }
    Ok(())
}

/// The page of scattered words after a move with these further words is shown by vCPU 1.
fn page_after(words: &[(u16, u64)]) -> Words {
    let mut page = page_with(&[
        (117, 0x8000_1800),
        (126, 0),
        (127, SCRATCH),
        (511, 0x1_0000),
    ]);
    put(&mut page, words);
    page
}

/// The first row of moves, each with RBX and the words that it shows, that shows others.
fn misshown<'a>(alloc: Global, table: &'a str) -> Result<Option<&'a str>, Fail> {
    for line in table.lines() {
        let mut row = Row::new(line);
        let code = row.bytes(alloc)?;
        let [rbx] = row.numbers::<1>()?;
        let words = row.words(alloc)?;
        let event = begun(alloc, code.as_slice(), &regs_with(3, rbx))?;
        let mut page = page_with(&[]);
        Vc::new(1).show(&event, &mut page);
        if difference(&page, &page_after(words.as_slice())).is_some()
            || page.msr_word() != 0x8000_1000
        {
            return Ok(Some(line));
        }
    }
    Ok(None)
}

/// Moves at the last byte of the page of devices, and at its first.
const SHOWN: &str =
    "C6 03 80 | FEB00FFF | 114:80000002 115:FEB00FFF 116:1 256:80 ; MOV BYTE [RBX], 80h
0F BE 03 | FEB00FFF | 114:80000001 115:FEB00FFF 116:1 ; MOVSX EAX, BYTE [RBX]
48 C7 03 FF FF FF FF | FEB00000 | 114:80000002 115:FEB00000 116:8 256:FFFFFFFFFFFFFFFF ; MOV QWORD [RBX], -1
0F B7 43 02 | FEB00000 | 114:80000001 115:FEB00002 116:2 ; MOVZX EAX, WORD [RBX + 2]";

#[test]
fn a_move_shows_its_address_its_length_and_the_buffer(rt: HostRuntime) -> Result<(), Fail> {
    assert_eq!(rt; misshown(rt.alloc(), SHOWN)?, None);
    Ok(())
}

/// The answer that a move takes of a page that gives these numbers, where it loads just these words.
fn answer_to(alloc: Global, code: &[u8], words: &[(u16, u64)]) -> Result<Answer, Fail> {
    let mut given = Vec::new(alloc);
    for (_, value) in words {
        given.push(*value)?;
    }
    let (answer, page) = taken(&begun(alloc, code, &regs())?, given.as_slice());
    let loads = &page.loads[..page.count.min(8)];
    if loads.iter().eq(words.iter().map(|(number, _)| number)) {
        Ok(answer)
    } else {
        Err(Fail::new("other words are loaded"))
    }
}

/// The first row of moves, each with the words that it loads and the number that comes of them, of which another
/// comes.
fn mistaken<'a>(alloc: Global, table: &'a str) -> Result<Option<&'a str>, Fail> {
    for line in table.lines() {
        let mut row = Row::new(line);
        let code = row.bytes(alloc)?;
        let words = row.words(alloc)?;
        let [number] = row.numbers::<1>()?;
        let answer = answer_to(alloc, code.as_slice(), words.as_slice())?;
        if answer != Answer::Done(number, 0, 0, 0) {
            return Ok(Some(line));
        }
    }
    Ok(None)
}

/// Reads of 1, 2, 4 and 8 bytes; what a host gives above the length is gone before it is extended. Of a write the
/// status alone is loaded.
const REPLIES: &str = "8A 07 | 115:FFFFFFFF00000000 256:FFFFFFFFFFFFFFFF | FF ; MOV
66 8B 07 | 115:0 256:FFFFFFFFFFFFFFFF | FFFF
8B 07 | 115:0 256:FFFFFFFFFFFFFFFF | FFFFFFFF
48 8B 07 | 115:0 256:FFFFFFFFFFFFFFFF | FFFFFFFFFFFFFFFF
0F BE 07 | 115:0 256:FFFFFFFFFFFFFF7F | 7F ; MOVSX and MOVZX
0F BF 07 | 115:0 256:FFFFFFFFFFFF7FFF | 7FFF
48 0F B6 07 | 115:0 256:100 | 0
48 0F B7 07 | 115:0 256:0 | 0
48 89 07 | 115:FFFFFFFF00000000 | 0 ; a write";

#[test]
fn a_reads_word_is_loaded_once_and_cut_to_its_length(rt: HostRuntime) -> Result<(), Fail> {
    assert_eq!(rt; mistaken(rt.alloc(), REPLIES)?, None);
    Ok(())
}

#[test]
fn an_exception_of_a_move_and_another_status_are_taken(rt: HostRuntime) -> Result<(), Fail> {
    let reads = [0x8A, 0x07];
    let writes = [0x88, 0x07];
    let rows = [
        (&reads, 0x8000_0B0D, Answer::Raise(13, 0)),
        (&writes, 0x8000_0306, Answer::Raise(6, 0)),
        (&writes, 0x8000_0B0E, bad(0x8000_0B0E)),
    ];
    for (code, info, want) in rows {
        let answer = answer_to(rt.alloc(), code, &[(115, 1), (116, info)])?;
        assert_eq!(rt; answer, want);
    }
    assert_eq!(rt; answer_to(rt.alloc(), &reads, &[(115, 2)])?, bad_status(2));
    Ok(())
}
