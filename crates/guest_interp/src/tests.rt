// Short guests, instruction by instruction.
use crate::guest::Stop as Stops;
use crate::{Guest, Next, fetch, fixture, step};
use event_table::{Access, Bytes, End, Event, Reply, Values, named, place, raise};
use image_file::Ram;
use image_samples::sample_image;
use std::alloc::Global;
use std::test::Fail;
use x86_base::{Flags, Insn, Operand, Reg, Regs, Stop, Width};

/// What a guest comes to after some instructions.
#[derive(Drop)]
struct Gone {
    regs: Regs,
    ram: Ram,
    steps: u64,
    end: Option<Stop>,
}

/// The RAM of one page that holds this code and zeros behind it.
fn ram_of(alloc: Global, code: &[u8]) -> Result<Ram, Fail> {
    Ok(sample_image(alloc, code, 0, 0)?.ram(alloc)?)
}

/// A guest at address 0 of its code, with RSP at the end of RAM and a flags word.
fn opened(ram: Ram, word: u64) -> Gone {
    let mut gpr = [0; 16];
    gpr[4] = 0x1000;
    Gone {
        regs: Regs {
            gpr,
            rip: 0,
            flags: Flags::from_word(word),
        },
        ram,
        steps: 0,
        end: None,
    }
}

/// Runs private instructions, at most `most`.
fn go_on(gone: &mut Gone, most: u64) {
    for _ in 0..most {
        let Ok(insn) = fetch(&gone.regs, &gone.ram) else {
            return;
        };
        match step(&mut gone.regs, &mut gone.ram, &insn) {
            Next::Went => gone.steps = gone.steps.wrapping_add(1),
            Next::Vc(_) => return,
            Next::Ended(stop) => {
                gone.end = Some(stop);
                return;
            }
        }
    }
}

/// Runs private instructions from address 0 on, at most `most`, with RSP at the end of RAM and a
/// flags word.
fn run(alloc: Global, code: &[u8], most: u64, word: u64) -> Result<Gone, Fail> {
    let mut gone = opened(ram_of(alloc, code)?, word);
    go_on(&mut gone, most);
    Ok(gone)
}

/// Results, of which an OUT has none.
const SEVENS: Values = Values {
    a: 7,
    c: 7,
    d: 7,
    b: 7,
};

/// The instruction at RIP, the code of its #VC, and what it asks.
fn asked(gone: &mut Gone) -> Option<(Insn, Next, Access)> {
    let insn = fetch(&gone.regs, &gone.ram).ok()?;
    let next = step(&mut gone.regs, &mut gone.ram, &insn);
    let access = named(&gone.regs, &gone.ram, &insn)?;
    Some((insn, next, access))
}

#[test]
fn a_loop_adds_its_counter(rt: HostRuntime) -> Result<(), Fail> {
    // XOR EAX, EAX; MOV ECX, 3; ADD EAX, ECX; DEC ECX; JNE -6; ADD EAX, 3Ch; HLT
    let code = [
        0x31, 0xC0, 0xB9, 3, 0, 0, 0, 0x01, 0xC8, 0xFF, 0xC9, 0x75, 0xFA, 0x83, 0xC0, 0x3C, 0xF4,
    ];
    let gone = run(rt.alloc(), &code, 100, 2)?;
    assert_eq!(rt; gone.regs.get(Reg::Rax), 0x42);
    assert_eq!(rt; gone.steps, 12);
    assert_eq!(rt; gone.end, Some(Stop::Halted));
    assert_eq!(rt; gone.regs.rip, 16);
    Ok(())
}

#[test]
fn a_call_returns_over_the_stack(rt: HostRuntime) -> Result<(), Fail> {
    // CALL +4; PUSH RAX; POP RBX; PUSH RSP; HLT; MOV EAX, -1; RET
    let code = [
        0xE8, 4, 0, 0, 0, 0x50, 0x5B, 0x54, 0xF4, 0xB8, 0xFF, 0xFF, 0xFF, 0xFF, 0xC3,
    ];
    let gone = run(rt.alloc(), &code, 100, 2)?;
    assert_eq!(rt; gone.end, Some(Stop::Halted));
    assert_eq!(rt; gone.regs.get(Reg::Rbx), 0xFFFF_FFFF);
    assert_eq!(rt; gone.regs.get(Reg::Rsp), 0xFF8);
    assert_eq!(rt; gone.ram.read(0xFF8, 8).unwrap_or(0), 0x1000);
    assert_eq!(rt; gone.steps, 6);
    Ok(())
}

#[test]
fn iretq_takes_its_selectors_alone(rt: HostRuntime) -> Result<(), Fail> {
    // PUSH 16; PUSH RBX; PUSH 802h; PUSH 8 or 9; PUSH 14h; IRETQ; HLT
    for (selector, end, rip) in [(8, Stop::Halted, 0x14), (9, Stop::Fault(13), 0xE)] {
        let code = [
            0x6A, 16, 0x53, 0x68, 2, 8, 0, 0, 0x6A, selector, 0x6A, 0x14, 0x90, 0x90, 0x48, 0xCF,
            0xF4, 0xF4, 0xF4, 0xF4, 0xF4,
        ];
        let gone = run(rt.alloc(), &code, 100, 2)?;
        assert_eq!(rt; gone.end, Some(end));
        assert_eq!(rt; gone.regs.rip, rip);
        let rsp = if selector == 8 { 0 } else { 0xFD8 };
        assert_eq!(rt; gone.regs.get(Reg::Rsp), rsp);
        assert_eq!(rt; gone.regs.flags.of, selector == 8);
    }
    Ok(())
}

#[test]
fn moves_extend_their_sources(rt: HostRuntime) -> Result<(), Fail> {
    // MOV EAX, 80808080h; MOVZX ECX, AL; MOVSX RDX, AX; MOVSXD RBX, EAX; MOVSX SI, AH; LEA RDI, [RAX+RCX*2-1]
    let code = [
        0xB8, 0x80, 0x80, 0x80, 0x80, 0x0F, 0xB6, 0xC8, 0x48, 0x0F, 0xBF, 0xD0, 0x48, 0x63, 0xD8,
        0x66, 0x0F, 0xBE, 0xF4, 0x48, 0x8D, 0x7C, 0x48, 0xFF, 0xF4,
    ];
    let gone = run(rt.alloc(), &code, 100, 2)?;
    assert_eq!(rt; gone.end, Some(Stop::Halted));
    assert_eq!(rt; gone.regs.get(Reg::Rcx), 0x80);
    assert_eq!(rt; gone.regs.get(Reg::Rdx), 0xFFFF_FFFF_FFFF_8080);
    assert_eq!(rt; gone.regs.get(Reg::Rbx), 0xFFFF_FFFF_8080_8080);
    assert_eq!(rt; gone.regs.get(Reg::Rsi), 0xFF80);
    assert_eq!(rt; gone.regs.get(Reg::Rdi), 0x8080_817F);
    Ok(())
}

#[test]
fn an_operand_outside_ends_the_guest_as_it_was(rt: HostRuntime) -> Result<(), Fail> {
    // A code, and the address that it ends with: a write of a code byte; an operand that leaves RAM; a move
    // that leaves the page of devices, and a compare in it; a push onto code; a compare of a code byte, which
    // reads it alone.
    let cases: [(&[u8], Option<Stop>); 6] = [
        (
            &[0x88, 0x04, 0x25, 6, 0, 0, 0, 0xF4],
            Some(Stop::BadAddress(6)),
        ),
        (
            &[0x8B, 0x04, 0x25, 0xFD, 0x0F, 0, 0, 0xF4],
            Some(Stop::BadAddress(0xFFD)),
        ),
        (
            &[0xB8, 0xFF, 0x0F, 0xB0, 0xFE, 0x66, 0x8B, 0x00, 0xF4],
            Some(Stop::BadAddress(0xFEB0_0FFF)),
        ),
        (
            &[0xB8, 0, 0, 0xB0, 0xFE, 0x38, 0x00, 0xF4],
            Some(Stop::BadAddress(0xFEB0_0000)),
        ),
        (&[0xBC, 10, 0, 0, 0, 0x53, 0xF4], Some(Stop::BadAddress(2))),
        (&[0x38, 0x04, 0x25, 0, 0, 0, 0, 0xF4], Some(Stop::Halted)),
    ];
    for (code, end) in cases {
        let gone = run(rt.alloc(), code, 100, 2)?;
        assert_eq!(rt; gone.end, end);
        assert_eq!(rt;
            gone.ram.read(0, 2).unwrap_or(0),
            u64::from(code[0]) + 0x100 * u64::from(code[1])
        );
    }
    Ok(())
}

/// Whether a condition holds of CF, PF, ZF, SF and OF, as the manual's table says.
fn holds(condition: u8, word: u64) -> bool {
    let [cf, pf, zf, sf, of] = [0x001, 0x004, 0x040, 0x080, 0x800].map(|mask| word & mask != 0);
    let yes = match condition / 2 {
        0 => of,
        1 => cf,
        2 => zf,
        3 => cf || zf,
        4 => sf,
        5 => pf,
        6 => sf != of,
        _ => zf || sf != of,
    };
    yes != (condition % 2 == 1)
}

#[test]
fn each_condition_jumps_sets_and_moves(rt: HostRuntime) -> Result<(), Fail> {
    let words = [2, 3, 6, 0x42, 0x43, 0x82, 0x802, 0x882, 0xC2, 0x842, 0x8C7];
    for condition in 0..16u8 {
        for word in words {
            // SETcc BL; CMOVcc ECX, EBX; MOV DL, 1; Jcc +2; MOV DL, 0; HLT
            let code = [
                0x0F,
                0x90 + condition,
                0xC3,
                0x0F,
                0x40 + condition,
                0xCB,
                0xB2,
                1,
                0x70 + condition,
                2,
                0xB2,
                0,
                0xF4,
            ];
            let gone = run(rt.alloc(), &code, 100, word)?;
            let want = u64::from(holds(condition, word));
            let regs = [Reg::Rbx, Reg::Rcx, Reg::Rdx].map(|reg| gone.regs.get(reg));
            assert_eq!(rt; regs, [want; 3], "condition {condition} word {word:x}");
        }
    }
    Ok(())
}

#[test]
fn flags_are_set_and_cleared(rt: HostRuntime) -> Result<(), Fail> {
    // CMC, CLC, STC, CLD, STD, NOP by their bytes: the flags word before and after
    let cases = [
        (0xF5, 2, 3),
        (0xF5, 0x8C7, 0x8C6),
        (0xF8, 0xCC7, 0xCC6),
        (0xF9, 2, 3),
        (0xFC, 0xCC7, 0x8C7),
        (0xFD, 2, 0x402),
        (0x90, 0xCC7, 0xCC7),
    ];
    for (byte, before, after) in cases {
        let gone = run(rt.alloc(), &[byte, 0xF4], 100, before)?;
        assert_eq!(rt; gone.regs.flags.to_word(), after, "byte {byte:x}");
        assert_eq!(rt; gone.steps, 1);
    }
    Ok(())
}

/// An OUT of one byte.
fn out_byte(port: u16, value: u32) -> Access {
    Access::Out {
        port,
        size: 1,
        value,
    }
}

#[test]
fn an_out_of_a_byte_exits_with_its_byte_alone(rt: HostRuntime) -> Result<(), Fail> {
    // MOV RAX, 1122334455667788h; OUT 40h, AL; and the same to DX
    let codes: [(&[u8], u16, u64); 2] = [
        (
            &[
                0x48, 0xB8, 0x88, 0x77, 0x66, 0x55, 0x44, 0x33, 0x22, 0x11, 0xE6, 0x40,
            ],
            0x40,
            12,
        ),
        (
            &[
                0x48, 0xB8, 0x88, 0x77, 0x66, 0x55, 0x44, 0x33, 0x22, 0x11, 0xEE,
            ],
            0,
            11,
        ),
    ];
    for (code, port, rip) in codes {
        let mut gone = run(rt.alloc(), code, 100, 2)?;
        assert_eq!(rt; gone.end, None);
        assert_eq!(rt; gone.steps, 1);
        let before = gone.regs;
        let Some((insn, next, access)) = asked(&mut gone) else {
            return Err(Fail::new("no access"));
        };
        assert_eq!(rt; next, Next::Vc(0x7B));
        assert_eq!(rt; gone.regs, before);
        assert_eq!(rt; access, out_byte(port, 0x88));
        if named(&gone.regs, &gone.ram, &insn).is_some() {
            place(&mut gone.regs, &mut gone.ram, &insn, &SEVENS);
        }
        assert_eq!(rt; gone.regs.rip, rip);
        assert_eq!(rt; gone.regs.gpr, before.gpr);
    }
    Ok(())
}

#[test]
fn a_handler_steps_over_an_instruction_that_is_refused(rt: HostRuntime) -> Result<(), Fail> {
    // MOV ECX, 99h; RDMSR; HLT; the handler: ADD RSP, 8; ADD QWORD [RSP], 2; IRETQ
    let code = [
        0xB9, 0x99, 0, 0, 0, 0x0F, 0x32, 0xF4, 0x48, 0x83, 0xC4, 8, 0x48, 0x83, 0x04, 0x24, 2,
        0x48, 0xCF,
    ];
    let image = sample_image(rt.alloc(), &code, 0, 8)?;
    let mut gone = opened(image.ram(rt.alloc())?, 2);
    go_on(&mut gone, 100);
    let Some((_, next, access)) = asked(&mut gone) else {
        return Err(Fail::new("no access"));
    };
    assert_eq!(rt; next, Next::Vc(0x7C));
    assert_eq!(rt; access, Access::Rdmsr { msr: 0x99 });
    assert_eq!(rt; raise(&mut gone.regs, &mut gone.ram, &image, 13, 0), Ok(()));
    assert_eq!(rt; gone.regs.rip, 8);
    for (at, word) in [
        (0xFD0, 0),
        (0xFD8, 5),
        (0xFE0, 8),
        (0xFE8, 2),
        (0xFF0, 0x1000),
        (0xFF8, 0x10),
    ] {
        assert_eq!(rt; gone.ram.read(at, 8).unwrap_or(u64::MAX), word, "at {at:x}");
    }
    go_on(&mut gone, 100);
    assert_eq!(rt; gone.end, Some(Stop::Halted));
    // MOV, ADD, ADD and IRETQ went; the delivery and HLT are a step each
    assert_eq!(rt; gone.steps, 4);
    assert_eq!(rt; gone.regs.rip, 7);
    assert_eq!(rt; gone.regs.get(Reg::Rsp), 0x1000);
    Ok(())
}

#[test]
fn a_clock_is_read_twice(rt: HostRuntime) -> Result<(), Fail> {
    // RDTSC; RDTSC; HLT
    let mut gone = run(rt.alloc(), &[0x0F, 0x31, 0x0F, 0x31, 0xF4], 100, 2)?;
    for (a, rip) in [(0, 2), (0x3E8, 4)] {
        let Some((insn, next, access)) = asked(&mut gone) else {
            return Err(Fail::new("no access"));
        };
        assert_eq!(rt; next, Next::Vc(0x6E));
        assert_eq!(rt; access, Access::Rdtsc);
        if named(&gone.regs, &gone.ram, &insn).is_some() {
            let values = Values {
                a,
                c: 7,
                d: 0,
                b: 7,
            };
            place(&mut gone.regs, &mut gone.ram, &insn, &values);
        }
        assert_eq!(rt; gone.regs.gpr[..4], [a, 0, 0, 0][..]);
        assert_eq!(rt; gone.regs.rip, rip);
    }
    go_on(&mut gone, 100);
    assert_eq!(rt; gone.end, Some(Stop::Halted));
    assert_eq!(rt; gone.steps, 0);
    Ok(())
}

#[test]
fn a_rip_relative_base_is_the_following_instruction(rt: HostRuntime) -> Result<(), Fail> {
    // MOV EAX, [RIP+1]; HLT; and the same with REX.B, where R13 is no base
    let codes: [&[u8]; 2] = [
        &[0x8B, 0x05, 1, 0, 0, 0, 0xF4, 0x11, 0x22, 0x33, 0x44],
        &[0x41, 0x8B, 0x05, 1, 0, 0, 0, 0xF4, 0x11, 0x22, 0x33, 0x44],
    ];
    for code in codes {
        let gone = run(rt.alloc(), code, 100, 2)?;
        assert_eq!(rt; gone.regs.get(Reg::Rax), 0x4433_2211);
    }
    // MOV DWORD [RIP+7F6h], 44332211h; HLT: the immediate is part of the instruction
    let code = [0xC7, 0x05, 0xF6, 7, 0, 0, 0x11, 0x22, 0x33, 0x44, 0xF4];
    let gone = run(rt.alloc(), &code, 100, 2)?;
    assert_eq!(rt; gone.ram.read(0x800, 4).unwrap_or(0), 0x4433_2211);
    Ok(())
}

#[test]
fn ah_is_no_spl_in_a_move(rt: HostRuntime) -> Result<(), Fail> {
    // PUSH RAX; MOV EAX, 8180h; MOV [800h], AH; MOV [801h], SPL; MOV AH, [801h]; HLT
    let code = [
        0x50, 0xB8, 0x80, 0x81, 0, 0, 0x88, 0x24, 0x25, 0, 8, 0, 0, 0x40, 0x88, 0x24, 0x25, 1, 8,
        0, 0, 0x8A, 0x24, 0x25, 1, 8, 0, 0, 0xF4,
    ];
    let gone = run(rt.alloc(), &code, 100, 2)?;
    assert_eq!(rt; gone.end, Some(Stop::Halted));
    assert_eq!(rt; gone.ram.read(0x800, 2).unwrap_or(0), 0xF881);
    assert_eq!(rt; gone.regs.get(Reg::Rax), 0xF880);
    assert_eq!(rt; gone.regs.get(Reg::Rsp), 0xFF8);
    Ok(())
}

#[test]
fn the_end_of_the_code_is_no_instruction(rt: HostRuntime) -> Result<(), Fail> {
    // MOV EAX with one byte of its number; no opcode at all; RIP behind the code
    let cases: [(&[u8], u64, End); 3] = [
        (&[0xB8, 1], 0, End::BadAddress(2)),
        (&[0x06, 0xF4], 0, End::Undecoded),
        (&[0xF4], 0x900, End::BadAddress(0x900)),
    ];
    for (code, rip, end) in cases {
        let ram = ram_of(rt.alloc(), code)?;
        let regs = Regs {
            gpr: [0; 16],
            rip,
            flags: Flags::from_word(2),
        };
        assert_eq!(rt; fetch(&regs, &ram).err(), Some(end));
    }
    Ok(())
}

/// A guest of this code, which is at its start.
fn started(alloc: Global, code: &[u8]) -> Result<Guest, Fail> {
    let image = sample_image(alloc, code, 0, 0)?;
    Ok(Guest::start(&image, 0, image.ram(alloc)?))
}

/// The reply to a block, with these bytes.
fn reply_of(given: &[u8]) -> Reply {
    let mut bytes = Bytes::new();
    for byte in given.iter().take(2032) {
        if bytes.as_slice().len() < 2032 {
            bytes.push(*byte);
        }
    }
    Reply {
        values: SEVENS,
        bytes,
    }
}

/// The port, the size, the count and the number of shown bytes of the block that a guest comes to, which
/// is then answered with these bytes; or how it ends.
fn exchange(guest: &mut Guest, budget: u64, given: &[u8]) -> Result<(u16, u8, u16, usize), End> {
    let mut insn = fixture::insn(Width::B8, Operand::Absent, Operand::Absent);
    let mut event = Event::One(Access::Wbinvd);
    match guest.next(&mut insn, &mut event, budget) {
        Stops::Ends(end) => Err(end),
        Stops::Waits => {
            if guest.steps < 0x1_0000 {
                guest.place_results(&insn, &event, &reply_of(given));
            }
            match event {
                Event::One(_) => Ok((0, 0, 1, 0)),
                Event::Many(block) => {
                    Ok((
                        block.port,
                        block.size,
                        block.count,
                        block.bytes.as_slice().len(),
                    ))
                }
            }
        }
    }
}

#[test]
fn a_rep_outsb_is_asked_in_blocks_of_the_buffer(rt: HostRuntime) -> Result<(), Fail> {
    // MOV ESI, 12h; MOV ECX, 7F1h; MOV EDX, 3F8h; REP OUTSB; HLT
    let code = [
        0xBE, 0x12, 0, 0, 0, 0xB9, 0xF1, 7, 0, 0, 0xBA, 0xF8, 3, 0, 0, 0xF3, 0x6E, 0xF4,
    ];
    let mut guest = started(rt.alloc(), &code)?;
    assert_eq!(rt;
        exchange(&mut guest, 10000, &[]),
        Ok((0x3F8, 1, 2032, 2032))
    );
    assert_eq!(rt; (guest.steps, guest.regs.rip), (2035, 15));
    assert_eq!(rt; guest.regs.gpr[..3], [0, 1, 0x3F8][..]);
    assert_eq!(rt; guest.regs.get(Reg::Rsi), 0x802);
    assert_eq!(rt; exchange(&mut guest, 10000, &[]), Ok((0x3F8, 1, 1, 1)));
    assert_eq!(rt; exchange(&mut guest, 10000, &[]), Err(End::Halted));
    assert_eq!(rt; (guest.steps, guest.regs.get(Reg::Rcx)), (2037, 0));
    // A block is asked below the budget, which its steps pass.
    let mut spent = started(rt.alloc(), &code)?;
    assert_eq!(rt; exchange(&mut spent, 4, &[]), Ok((0x3F8, 1, 2032, 2032)));
    assert_eq!(rt; exchange(&mut spent, 4, &[]), Err(End::Spent));
    assert_eq!(rt; spent.steps, 2035);
    Ok(())
}

#[test]
fn rep_with_no_count_is_private(rt: HostRuntime) -> Result<(), Fail> {
    // REP OUTSB; HLT
    let mut none = started(rt.alloc(), &[0xF3, 0x6E, 0xF4])?;
    assert_eq!(rt; exchange(&mut none, 100, &[]), Err(End::Halted));
    assert_eq!(rt; none.steps, 2);
    // MOV EDI, 9; REP INSB; INSB; HLT: without REP there is one element
    let code = [0xBF, 9, 0, 0, 0, 0xF3, 0x6C, 0x6C, 0xF4];
    let mut one = started(rt.alloc(), &code)?;
    assert_eq!(rt; exchange(&mut one, 100, &[0xFF]), Ok((0, 1, 1, 0)));
    assert_eq!(rt; one.ram.read(9, 2).unwrap_or(0), 0xFF);
    assert_eq!(rt; (one.regs.get(Reg::Rdi), one.regs.get(Reg::Rcx)), (10, 0));
    assert_eq!(rt; exchange(&mut one, 100, &[]), Err(End::Halted));
    assert_eq!(rt; one.steps, 4);
    Ok(())
}

#[test]
fn the_size_of_an_element_is_by_the_prefixes(rt: HostRuntime) -> Result<(), Fail> {
    // MOV ESI, 800h; MOV EDI, 800h; INS or OUTS with 66, with REX.W and with both; HLT
    let rows: [(&[u8], u8); 8] = [
        (&[0x6C], 1),
        (&[0x48, 0x6C], 1),
        (&[0x6D], 4),
        (&[0x66, 0x6D], 2),
        (&[0x48, 0x6D], 4),
        (&[0x66, 0x48, 0x6F], 4),
        (&[0x66, 0x6F], 2),
        (&[0x48, 0x6E], 1),
    ];
    for (bytes, size) in rows {
        let mut code = [0xBE, 0, 8, 0, 0, 0xBF, 0, 8, 0, 0]
            .as_slice()
            .to_vec(rt.alloc())?;
        code.extend_from_slice(bytes)?;
        code.push(0xF4)?;
        let mut guest = started(rt.alloc(), &code)?;
        let input = bytes.last().is_some_and(|opcode| *opcode < 0x6E);
        let shown = if input { 0 } else { usize::from(size) };
        assert_eq!(rt; exchange(&mut guest, 100, &[]), Ok((0, size, 1, shown)));
        let moved = u64::from(size);
        let (rsi, rdi) = if input { (0, moved) } else { (moved, 0) };
        assert_eq!(rt;
            (guest.regs.get(Reg::Rsi), guest.regs.get(Reg::Rdi)),
            (0x800 + rsi, 0x800 + rdi)
        );
        assert_eq!(rt; exchange(&mut guest, 100, &[]), Err(End::Halted));
    }
    Ok(())
}

#[test]
fn an_element_past_ram_ends_the_guest_in_both_directions(rt: HostRuntime) -> Result<(), Fail> {
    // MOV ESI, address; MOV EDI, address; MOV ECX, 9; CLD or STD; REP OUTSW or REP INSW
    let rows = [
        (0xFFC, 0xFC, 0x6F, 2, 0x1000),
        (0xFFC, 0xFC, 0x6D, 2, 0x1000),
        (2, 0xFD, 0x6F, 2, 0xFFFF_FFFF_FFFF_FFFE),
        (0x1A, 0xFD, 0x6D, 2, 0x16),
    ];
    for (at, direction, opcode, count, end) in rows {
        let [low, high, ..] = u32::to_le_bytes(at);
        let code = [
            0xBE, low, high, 0, 0, 0xBF, low, high, 0, 0, 0xB9, 9, 0, 0, 0, direction, 0xF3, 0x66,
            opcode, 0x90, 0x90, 0x90, 0xF4, 0xF4,
        ];
        let mut guest = started(rt.alloc(), &code)?;
        let shown = if opcode == 0x6F {
            2 * usize::from(count)
        } else {
            0
        };
        assert_eq!(rt; exchange(&mut guest, 100, &[]), Ok((0, 2, count, shown)));
        assert_eq!(rt; (guest.regs.get(Reg::Rcx), guest.regs.rip), (7, 16));
        assert_eq!(rt; exchange(&mut guest, 100, &[]), Err(End::BadAddress(end)));
        assert_eq!(rt; guest.steps, 6);
    }
    Ok(())
}

#[test]
fn elements_of_code_bytes_end_the_guest(rt: HostRuntime) -> Result<(), Fail> {
    // MOV EDI, 18h; STD; MOV ECX, 3; MOV EDX, 500h; REP INSD; HLT: the third element has bytes of the code
    let code = [
        0xBF, 0x18, 0, 0, 0, 0xFD, 0xB9, 3, 0, 0, 0, 0xBA, 0, 5, 0, 0, 0xF3, 0x6D, 0xF4,
    ];
    let mut guest = started(rt.alloc(), &code)?;
    let given = [0x22, 0x22, 0x22, 0x22, 0x11, 0x11, 0x11, 0x11];
    assert_eq!(rt; exchange(&mut guest, 100, &given), Ok((0x500, 4, 2, 0)));
    assert_eq!(rt; guest.ram.read(0x14, 8).unwrap_or(0), 0x2222_2222_1111_1111);
    assert_eq!(rt;
        (guest.regs.get(Reg::Rcx), guest.regs.get(Reg::Rdi)),
        (1, 0x10)
    );
    assert_eq!(rt; guest.regs.rip, 16);
    assert_eq!(rt; exchange(&mut guest, 100, &[]), Err(End::BadAddress(0x10)));
    assert_eq!(rt; guest.steps, 6);
    Ok(())
}

#[test]
fn string_io_exits_with_the_code_of_port_io(rt: HostRuntime) -> Result<(), Fail> {
    // OUTSB, and OUTSB at an address past RAM
    let ram = ram_of(rt.alloc(), &[0x6E])?;
    let mut gone = opened(ram, 2);
    let Ok(insn) = fetch(&gone.regs, &gone.ram) else {
        return Err(Fail::new("no instruction"));
    };
    assert_eq!(rt; step(&mut gone.regs, &mut gone.ram, &insn), Next::Vc(0x7B));
    gone.regs.gpr[6] = 0x1000;
    assert_eq!(rt;
        step(&mut gone.regs, &mut gone.ram, &insn),
        Next::Ended(Stop::BadAddress(0x1000))
    );
    Ok(())
}
