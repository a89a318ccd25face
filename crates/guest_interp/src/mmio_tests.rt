// Moves that reach the page of devices, and what doesn't, from the bytes of the instructions on.
use crate::guest::Stop as Stops;
use crate::{Guest, Next, fetch, fixture, step};
use event_table::{Access, Bytes, End, Event, Reply, Values, named};
use hex_rows::Row;
use image_file::Ram;
use image_samples::sample_image;
use std::alloc::Global;
use std::test::Fail;
use x86_base::{Flags, Operand, Regs, Stop, Width};

/// The first byte of the page of devices.
const PAGE: u64 = 0xFEB0_0000;

/// The exit code of a nested page fault, with which #VC is raised for MMIO.
const PAGE_FAULT: Next = Next::Vc(0x400);

/// The vCPU ends with this address.
const fn bad(at: u64) -> Next {
    Next::Ended(Stop::BadAddress(at))
}

/// The RAM of one page that holds this code and zeros behind it.
fn ram_of(alloc: Global, code: &[u8]) -> Result<Ram, Fail> {
    Ok(sample_image(alloc, code, 0, 0)?.ram(alloc)?)
}

/// Registers with these in RAX and RCX, and the end of RAM in RSP.
fn regs(rip: u64, rax: u64, rcx: u64) -> Regs {
    let mut gpr = [0; 16];
    gpr[0] = rax;
    gpr[1] = rcx;
    gpr[4] = 0x1000;
    Regs {
        gpr,
        rip,
        flags: Flags::from_word(2),
    }
}

/// What the instruction at address 0 comes to in these registers, and the access that it asks for.
fn stepped(regs: &mut Regs, ram: &mut Ram) -> Result<(Next, Option<Access>), Fail> {
    let Ok(insn) = fetch(&Regs { rip: 0, ..*regs }, ram) else {
        return Err(Fail::new("no instruction"));
    };
    let next = step(regs, ram, &insn);
    Ok((next, named(regs, ram, &insn)))
}

fn read(at: u64, len: u8) -> Access {
    Access::MmioRead { at, len }
}

fn write(at: u64, len: u8, value: u64) -> Access {
    Access::MmioWrite { at, len, value }
}

/// What RCX is.
const C: u64 = 0x8070_6050_F0E0_9181;

/// Whether an instruction with an operand at [RAX], and at [R8], exits with this access where all its bytes lie in the
/// page, ends with its address where they don't, and changes no register.
fn exits_within(regs: &Regs, ram: &mut Ram, access: Access) -> Result<bool, Fail> {
    let (at, len) = match access {
        Access::MmioRead { at, len } | Access::MmioWrite { at, len, .. } => (at, u64::from(len)),
        _ => return Ok(false),
    };
    let mut after = *regs;
    let told = stepped(&mut after, ram)?;
    let within = PAGE <= at && at <= PAGE + 0x1000 - len.min(8);
    let want = if within {
        (PAGE_FAULT, Some(access))
    } else {
        (bad(at), None)
    };
    Ok(told == want && after == *regs)
}

/// Addresses around the beginning of the page, and around its end.
const AROUND: [u64; 2] = [PAGE - 10, PAGE + 0xFF0];

/// Whether a read of so many bytes exits exactly where its operand lies in the page.
fn reads(alloc: Global, code: &[u8], len: u8) -> Result<bool, Fail> {
    let mut ram = ram_of(alloc, code)?;
    for from in AROUND {
        for at in from..from + 20 {
            let mut regs = regs(0, at, C);
            regs.gpr[8] = at;
            if !exits_within(&regs, &mut ram, read(at, len))? {
                return Ok(false);
            }
        }
    }
    Ok(true)
}

/// Whether a write of so many bytes with this number exits exactly where its operand lies in the page.
fn writes(alloc: Global, code: &[u8], len: u8, value: u64) -> Result<bool, Fail> {
    let mut ram = ram_of(alloc, code)?;
    for from in AROUND {
        for at in from..from + 20 {
            let mut regs = regs(0, at, C);
            regs.gpr[5] = 0x4455;
            regs.gpr[9] = 0x9999;
            if !exits_within(&regs, &mut ram, write(at, len, value))? {
                return Ok(false);
            }
        }
    }
    Ok(true)
}

/// MOV, MOVZX and MOVSX from [RAX] at each width, or from [R8], and the bytes that each reads.
const READS: &str = "8A 08 | 1
66 8B 08 | 2
8B 08 | 4
48 8B 08 | 8
66 48 8B 08 | 8
8A 20 | 1
45 8A 40 00 | 1
0F B6 08 | 1
66 0F B6 08 | 1
48 0F B6 08 | 1
0F B7 08 | 2
48 0F B7 08 | 2
0F BE 08 | 1
66 0F BE 08 | 1
48 0F BE 08 | 1
0F BF 08 | 2
48 0F BF 08 | 2";

#[test]
fn a_read_exits_exactly_where_its_operand_lies_in_the_page(rt: HostRuntime) -> Result<(), Fail> {
    for line in READS.lines() {
        let mut row = Row::new(line);
        let code = row.bytes(rt.alloc())?;
        let [len] = row.numbers::<1>()?;
        assert!(rt;
            reads(rt.alloc(), code.as_slice(), u8::try_from(len)?)?,
            "{line}"
        );
    }
    Ok(())
}

/// MOV to [RAX] of RCX, CH, BPL, R9 and immediates: the bytes of the operand, and its number.
const WRITES: &str = "88 08 | 1 81
88 28 | 1 91
40 88 28 | 1 55
66 89 08 | 2 9181
89 08 | 4 F0E09181
48 89 08 | 8 80706050F0E09181
66 48 89 08 | 8 80706050F0E09181
44 89 48 00 | 4 9999
C6 00 80 | 1 80
66 C7 00 80 FF | 2 FF80
C7 00 80 FF FF FF | 4 FFFFFF80
48 C7 00 80 FF FF FF | 8 FFFFFFFFFFFFFF80 ; four bytes, which are sign-extended to the eight of the operand
48 C7 00 80 FF FF 7F | 8 7FFFFF80";

#[test]
fn a_write_exits_exactly_where_its_operand_lies_in_the_page(rt: HostRuntime) -> Result<(), Fail> {
    for line in WRITES.lines() {
        let mut row = Row::new(line);
        let code = row.bytes(rt.alloc())?;
        let [len, value] = row.numbers::<2>()?;
        let len = u8::try_from(len)?;
        assert!(rt; writes(rt.alloc(), code.as_slice(), len, value)?, "{line}");
    }
    Ok(())
}

/// The address of an operand in the page.
const IN_PAGE: u64 = PAGE + 0x10;

/// Whether an instruction ends a guest with the address of its operand, which is in RAX, RSI, RDI and, less this, in
/// RSP; and neither registers nor the end of RAM change.
fn ends_in_page(alloc: Global, code: &[u8], below: u64) -> Result<bool, Fail> {
    let mut ram = ram_of(alloc, code)?;
    let mut regs = regs(0, IN_PAGE, 1);
    regs.gpr[4] = IN_PAGE.wrapping_add(below);
    regs.gpr[6] = IN_PAGE;
    regs.gpr[7] = IN_PAGE;
    let before = regs;
    let told = stepped(&mut regs, &mut ram)?;
    Ok(told == (bad(IN_PAGE), None) && regs == before && ram.read(0xFF8, 8).ok() == Some(0))
}

/// Instructions with an operand at [RAX], at RSP or 8 bytes below it, or at RSI or RDI; and how far below RSP.
const NO_MOVES: &str = "00 08 | 0 ; ADD, OR, ADC, SBB, AND, SUB, XOR and CMP
03 08 | 0
09 08 | 0
11 08 | 0
1B 08 | 0
21 08 | 0
2B 08 | 0
31 08 | 0
38 08 | 0
3B 08 | 0
80 00 01 | 0
80 38 01 | 0
83 00 01 | 0
81 38 01 00 00 00 | 0
84 08 | 0 ; TEST
85 08 | 0
F6 00 01 | 0
F7 10 | 0 ; NOT and NEG
F6 18 | 0
FE 00 | 0 ; INC and DEC
FF 08 | 0
C0 20 01 | 0 ; SHL, SHR and SAR
D1 28 | 0
D3 38 | 0
0F AF 08 | 0 ; IMUL
48 63 08 | 0 ; MOVSXD
0F 94 00 | 0 ; SETZ
0F 44 08 | 0 ; CMOVZ and CMOVNZ
0F 45 08 | 0
58 | 0 ; POP
C3 | 0 ; RET
48 CF | 0 ; IRETQ
50 | 8 ; PUSH
6A 01 | 8
E8 00 00 00 00 | 8 ; CALL
6E | 0 ; OUTSB
6C | 0 ; INSB
F3 6E | 0 ; REP OUTSB";

#[test]
fn what_is_no_move_ends_the_guest_in_the_page(rt: HostRuntime) -> Result<(), Fail> {
    for line in NO_MOVES.lines() {
        let mut row = Row::new(line);
        let code = row.bytes(rt.alloc())?;
        let [below] = row.numbers::<1>()?;
        assert!(rt; ends_in_page(rt.alloc(), code.as_slice(), below)?, "{line}");
    }
    Ok(())
}

#[test]
fn lea_and_the_nop_with_an_operand_do_not_look_at_it(rt: HostRuntime) -> Result<(), Fail> {
    for code in [[0x8D, 0x08, 0x90], [0x0F, 0x1F, 0x00]] {
        let mut ram = ram_of(rt.alloc(), &code)?;
        let mut regs = regs(0, IN_PAGE, 1);
        assert_eq!(rt; stepped(&mut regs, &mut ram)?, (Next::Went, None));
    }
    Ok(())
}

/// What an instruction at a RIP comes to with these in RAX and RCX, and 40h in R13; nothing where a register changes.
fn next_at(ram: &mut Ram, rip: u64, rax: u64, rcx: u64) -> Result<Option<Next>, Fail> {
    let mut regs = regs(rip, rax, rcx);
    regs.gpr[13] = 0x40;
    let before = regs;
    let (next, _) = stepped(&mut regs, ram)?;
    Ok(if regs == before { Some(next) } else { None })
}

/// Whether an instruction of so many bytes, whose operand is `back` bytes before its end and has `size` bytes, exits
/// at both ends of the page and not outside.
fn counts_from_its_end(alloc: Global, code: &[u8], back: u64, size: u64) -> Result<bool, Fail> {
    let mut ram = ram_of(alloc, code)?;
    let last = PAGE + 0x1000 - size.min(8);
    for (at, next) in [
        (PAGE, PAGE_FAULT),
        (PAGE - 1, bad(PAGE - 1)),
        (last, PAGE_FAULT),
        (last + 1, bad(last + 1)),
    ] {
        let rip = at.wrapping_add(back).wrapping_sub(code.len() as u64);
        if next_at(&mut ram, rip, 1, 1)? != Some(next) {
            return Ok(false);
        }
    }
    Ok(true)
}

/// How far each operand is before the end of its instruction, and how many bytes it has.
const FROM_RIP: &str = "8A 0D 00 00 00 00 | 0 1 ; MOV CL, [RIP]
41 8A 0D 00 00 00 00 | 0 1 ; the same with REX.B, which names no R13
C7 05 00 00 00 00 01 00 00 00 | 0 4 ; MOV DWORD [RIP], 1, whose immediate is part of it
0F B7 0D FF FF FF FF | 1 2 ; MOVZX ECX, WORD [RIP - 1]";

#[test]
fn an_address_counts_from_the_following_instruction(rt: HostRuntime) -> Result<(), Fail> {
    for line in FROM_RIP.lines() {
        let mut row = Row::new(line);
        let code = row.bytes(rt.alloc())?;
        let [back, size] = row.numbers::<2>()?;
        let counts = counts_from_its_end(rt.alloc(), code.as_slice(), back, size)?;
        assert!(rt; counts, "{line}");
    }
    Ok(())
}

/// RAX, RCX, and the address at which each exits.
const WRAPPED: &str = "8A 88 00 00 B0 FE | 100000000 0 ; MOV CL, [RAX - 1500000h]
8A 0C C8 | FEB00000 2000000000000001 ; MOV CL, [RAX + RCX * 8]
8A 0C C8 | FEB00008 FFFFFFFFFFFFFFFF";

#[test]
fn an_address_wraps_at_64_bits(rt: HostRuntime) -> Result<(), Fail> {
    for line in WRAPPED.lines() {
        let mut row = Row::new(line);
        let mut ram = ram_of(rt.alloc(), row.bytes(rt.alloc())?.as_slice())?;
        let [rax, rcx] = row.numbers::<2>()?;
        assert_eq!(rt; next_at(&mut ram, 0, rax, rcx)?, Some(PAGE_FAULT), "{line}");
    }
    Ok(())
}

/// RAX, RCX, and the address with which each ends.
const NOT_CUT: &str = "8A 88 00 00 B0 FE | 0 0 FFFFFFFFFEB00000 ; MOV CL, [RAX - 1500000h]
8A 88 00 00 B0 FE | 100001000 0 FEB01000
8A 0C C8 | FEB00000 FFFFFFFFFFFFFFFF FEAFFFF8 ; MOV CL, [RAX + RCX * 8]
8B 08 | 1FEB00000 0 1FEB00000 ; MOV ECX, [RAX]
8B 08 | FFFFFFFFFFFFFFFF 0 FFFFFFFFFFFFFFFF
48 89 08 | FFFFFFFFFFFFFFFC 0 FFFFFFFFFFFFFFFC ; MOV [RAX], RCX";

#[test]
fn an_address_is_not_cut_to_32_bits(rt: HostRuntime) -> Result<(), Fail> {
    for line in NOT_CUT.lines() {
        let mut row = Row::new(line);
        let mut ram = ram_of(rt.alloc(), row.bytes(rt.alloc())?.as_slice())?;
        let [rax, rcx, at] = row.numbers::<3>()?;
        assert_eq!(rt; next_at(&mut ram, 0, rax, rcx)?, Some(bad(at)), "{line}");
    }
    Ok(())
}

/// A guest of this code, which is at its start.
fn started(alloc: Global, code: &[u8]) -> Result<Guest, Fail> {
    let image = sample_image(alloc, code, 0, 0)?;
    Ok(Guest::start(&image, 0, image.ram(alloc)?))
}

/// The access that a guest comes to, which is then answered with this value; or how it ends.
fn exchange(guest: &mut Guest, value: u64) -> Result<Option<Access>, End> {
    let mut insn = fixture::insn(Width::B8, Operand::Absent, Operand::Absent);
    let mut event = Event::One(Access::Wbinvd);
    if let Stops::Ends(end) = guest.next(&mut insn, &mut event, 100) {
        return Err(end);
    }
    let reply = Reply {
        values: Values {
            a: value,
            c: 7,
            d: 7,
            b: 7,
        },
        bytes: Bytes::new(),
    };
    guest.place_results(&insn, &event, &reply);
    Ok(match event {
        Event::One(access) => Some(access),
        Event::Many(_) => None,
    })
}

#[test]
fn a_guest_writes_to_the_page_and_reads_from_it(rt: HostRuntime) -> Result<(), Fail> {
    // MOV EBX, FEB00000h; MOV QWORD [RBX], -1; MOVZX EAX, WORD [RBX+2]; HLT
    let code = [
        0xBB, 0, 0, 0xB0, 0xFE, 0x48, 0xC7, 0x03, 0xFF, 0xFF, 0xFF, 0xFF, 0x0F, 0xB7, 0x43, 2, 0xF4,
    ];
    let mut guest = started(rt.alloc(), &code)?;
    assert_eq!(rt; exchange(&mut guest, 7), Ok(Some(write(PAGE, 8, u64::MAX))));
    assert_eq!(rt; (guest.steps, guest.regs.rip), (2, 12));
    assert_eq!(rt; guest.regs.gpr[..4], [0, 0, 0, PAGE][..]);
    let want = Ok(Some(read(PAGE + 2, 2)));
    assert_eq!(rt; exchange(&mut guest, 0x8899_AABB_CCDD_FFFF), want);
    assert_eq!(rt; guest.regs.gpr[..4], [0xFFFF, 0, 0, PAGE][..]);
    assert_eq!(rt; exchange(&mut guest, 0), Err(End::Halted));
    assert_eq!(rt; (guest.steps, guest.regs.rip), (4, 16));
    Ok(())
}

/// Whether a move from [RAX] changes just the register of this number, to this, where all bits of the others are ones.
fn takes(alloc: Global, code: &[u8], number: u64, want: u64) -> Result<bool, Fail> {
    let mut guest = started(alloc, code)?;
    let mut regs = Regs {
        gpr: [u64::MAX; 16],
        ..guest.regs
    };
    regs.gpr[0] = PAGE;
    guest.regs = regs;
    let is_asked = exchange(&mut guest, 0x8877_6655_F433_A291).is_ok();
    regs.gpr[(number % 16) as usize] = want;
    regs.rip = code.len() as u64;
    Ok(is_asked && guest.regs == regs && guest.steps == 1)
}

/// Moves from [RAX] to RCX, CH, BPL or R9: the number of the register, and what it is afterwards.
const TAKEN: &str = "8A 08 | 1 FFFFFFFFFFFFFF91 ; MOV
8A 28 | 1 FFFFFFFFFFFF91FF
40 8A 28 | 5 FFFFFFFFFFFFFF91
44 8A 08 | 9 FFFFFFFFFFFFFF91
66 8B 08 | 1 FFFFFFFFFFFFA291
8B 08 | 1 F433A291
44 8B 08 | 9 F433A291
48 8B 08 | 1 88776655F433A291
66 0F B6 08 | 1 FFFFFFFFFFFF0091 ; MOVZX
0F B6 08 | 1 91
48 0F B7 08 | 1 A291
66 0F BE 08 | 1 FFFFFFFFFFFFFF91 ; MOVSX
0F BE 08 | 1 FFFFFF91
4C 0F BE 08 | 9 FFFFFFFFFFFFFF91
0F BF 08 | 1 FFFFA291
48 0F BF 08 | 1 FFFFFFFFFFFFA291";

#[test]
fn what_is_read_is_cut_and_extended_into_its_register(rt: HostRuntime) -> Result<(), Fail> {
    for line in TAKEN.lines() {
        let mut row = Row::new(line);
        let code = row.bytes(rt.alloc())?;
        let [number, want] = row.numbers::<2>()?;
        assert!(rt; takes(rt.alloc(), code.as_slice(), number, want)?, "{line}");
    }
    Ok(())
}
