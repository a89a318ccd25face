// Blocks over small images.
use crate::{accept_block, block, place_block, show_block};
use image_file::Ram;
use image_samples::sample_image;
use page_words::{Word, Words};
use std::alloc::Global;
use std::test::Fail;
use x86_base::{Flags, Insn, Op, Operand, Reg, Regs, Width};

/// There is no block.
#[derive(Debug, Drop)]
struct NoBlock;

/// The RAM of one page that begins with this code.
fn ram(alloc: Global, code: &[u8]) -> Result<Ram, Fail> {
    Ok(sample_image(alloc, code, 0, 0)?.ram(alloc)?)
}

/// REP INS or REP OUTS of two bytes at address 0.
fn insn(op: Op, width: Width) -> Insn {
    Insn {
        op,
        width,
        source_width: width,
        dst: Operand::Absent,
        src: Operand::Absent,
        rep: true,
        len: 2,
    }
}

fn regs(count: u64, port: u64, pointer: u64, df: bool) -> Regs {
    let mut gpr = [0; 16];
    gpr[1] = count;
    gpr[2] = port;
    gpr[6] = pointer;
    gpr[7] = pointer;
    let mut flags = Flags::from_word(2);
    flags.df = df;
    Regs { gpr, rip: 0, flags }
}

#[test]
fn a_block_of_input_stops_at_the_code(rt: HostRuntime) -> Result<(), Fail> {
    let mut ram = ram(rt.alloc(), &[0; 19])?;
    let mut regs = regs(3, 0x500, 0x18, true);
    let insn = insn(Op::Ins, Width::B32);
    let first = block(&regs, &ram, &insn).ok_or(NoBlock)?;
    assert_eq!(rt; first.count, 2);
    assert_eq!(rt; first.port, 0x500);
    assert_eq!(rt; first.size, 4);
    assert_eq!(rt; first.bytes.as_slice().len(), 0);
    let bytes = [0x22, 0x22, 0x22, 0x22, 0x11, 0x11, 0x11, 0x11];
    place_block(&mut regs, &mut ram, &insn, &first, &bytes);
    assert_eq!(rt; ram.read(0x18, 4).unwrap_or(0), 0x2222_2222);
    assert_eq!(rt; ram.read(0x14, 4).unwrap_or(0), 0x1111_1111);
    assert_eq!(rt; regs.get(Reg::Rcx), 1);
    assert_eq!(rt; regs.get(Reg::Rdi), 0x10);
    assert_eq!(rt; regs.rip, 0);
    assert_eq!(rt; block(&regs, &ram, &insn).is_none(), true);
    Ok(())
}

#[test]
fn a_block_of_output_has_as_many_bytes_as_the_buffer(rt: HostRuntime) -> Result<(), Fail> {
    let mut ram = ram(rt.alloc(), &[0; 18])?;
    let mut regs = regs(2033, 0x3F8, 0x12, false);
    let insn = insn(Op::Outs, Width::B8);
    let first = block(&regs, &ram, &insn).ok_or(NoBlock)?;
    assert_eq!(rt; first.count, 2032);
    assert_eq!(rt; first.bytes.as_slice().len(), 2032);
    place_block(&mut regs, &mut ram, &insn, &first, &[]);
    assert_eq!(rt; regs.get(Reg::Rsi), 0x802);
    assert_eq!(rt; regs.rip, 0);
    let second = block(&regs, &ram, &insn).ok_or(NoBlock)?;
    assert_eq!(rt; second.count, 1);
    place_block(&mut regs, &mut ram, &insn, &second, &[]);
    assert_eq!(rt; regs.get(Reg::Rcx), 0);
    assert_eq!(rt; regs.rip, 2);
    // REP with RCX 0 is no block.
    regs.rip = 0;
    assert_eq!(rt; block(&regs, &ram, &insn).is_none(), true);
    Ok(())
}

#[test]
fn a_block_ends_before_the_first_element_that_cannot_be_moved(rt: HostRuntime) -> Result<(), Fail> {
    let ram = ram(rt.alloc(), &[0; 18])?;
    let (ins, outs) = (Op::Ins, Op::Outs);
    // RCX, the address, DF, the instruction, and the size and the count of its block: cut by RCX, by the
    // buffer, by RAM's end upwards, at address 0 downwards, by the code, and with RCX of 2^16, of 2^32 and
    // of 2^64 - 1.
    let rows = [
        (3, 0x100, false, insn(outs, Width::B8), Some((1, 3))),
        (
            0x1000,
            0x100,
            false,
            insn(outs, Width::B16),
            Some((2, 1016)),
        ),
        (0x1000, 0x100, false, insn(outs, Width::B32), Some((4, 508))),
        (0x1000, 0x100, false, insn(ins, Width::B64), Some((4, 508))),
        (
            0x1_0000_0000,
            0x100,
            false,
            insn(ins, Width::B8),
            Some((1, 2032)),
        ),
        (
            0x1_0000,
            0x100,
            false,
            insn(outs, Width::B8),
            Some((1, 2032)),
        ),
        (
            u64::MAX,
            0x100,
            false,
            insn(outs, Width::B8),
            Some((1, 2032)),
        ),
        (9, 0xFF9, false, insn(outs, Width::B16), Some((2, 3))),
        (9, 0xFF9, false, insn(ins, Width::B16), Some((2, 3))),
        (9, 0xFFE, true, insn(outs, Width::B16), Some((2, 9))),
        (9, 0xFFE, true, insn(outs, Width::B32), None),
        (9, 0xFFF, false, insn(outs, Width::B16), None),
        (9, 4, true, insn(outs, Width::B32), Some((4, 2))),
        (9, 0x18, true, insn(ins, Width::B16), Some((2, 4))),
        (9, 0x11, false, insn(ins, Width::B8), None),
        (9, 0xFFFF_FFFF_FFFF_FFFF, false, insn(outs, Width::B8), None),
        (0, 0x100, false, insn(outs, Width::B8), None),
        (9, 0x100, false, insn(Op::Out, Width::B8), None),
    ];
    for (count, at, df, insn, expected) in rows {
        let block = block(&regs(count, 0x3F8, at, df), &ram, &insn);
        assert_eq!(rt; block.map(|block| (block.size, block.count)), expected);
    }
    Ok(())
}

#[test]
fn without_rep_a_block_is_one_element(rt: HostRuntime) -> Result<(), Fail> {
    let mut ram = ram(rt.alloc(), &[0; 18])?;
    let mut regs = regs(7, 0x3F8, 0x100, true);
    let mut insn = insn(Op::Outs, Width::B16);
    insn.rep = false;
    let one = block(&regs, &ram, &insn).ok_or(NoBlock)?;
    assert_eq!(rt; (one.count, one.rep), (1, false));
    place_block(&mut regs, &mut ram, &insn, &one, &[]);
    assert_eq!(rt;
        (regs.get(Reg::Rcx), regs.get(Reg::Rsi), regs.rip),
        (7, 0xFE, 2)
    );
    Ok(())
}

/// The count of the next block, and then, once zeros are given for its elements, RSI or RDI, RCX and RIP.
fn passed(
    alloc: Global,
    insn: &Insn,
    count: u64,
    at: u64,
    df: bool,
) -> Result<(u16, u64, u64, u64), Fail> {
    let mut ram = ram(alloc, &[0; 18])?;
    let mut regs = regs(count, 0x3F8, at, df);
    let next = block(&regs, &ram, insn).ok_or(NoBlock)?;
    place_block(&mut regs, &mut ram, insn, &next, &[]);
    Ok((
        next.count,
        regs.get(event_table::pointer(insn)),
        regs.get(Reg::Rcx),
        regs.rip,
    ))
}

#[test]
fn the_pointer_passes_all_elements_and_rip_the_last(rt: HostRuntime) -> Result<(), Fail> {
    // The operation, its width, RCX, the address, DF; then the count, the address, RCX and RIP
    let rows = [
        (Op::Outs, Width::B8, 3, 0x100, false, (3, 0x103, 0, 2)),
        (Op::Outs, Width::B8, 3, 0x100, true, (3, 0xFD, 0, 2)),
        (Op::Outs, Width::B16, 3, 0x100, false, (3, 0x106, 0, 2)),
        (Op::Outs, Width::B16, 3, 0x100, true, (3, 0xFA, 0, 2)),
        (Op::Outs, Width::B32, 3, 0x100, false, (3, 0x10C, 0, 2)),
        (Op::Outs, Width::B64, 3, 0x100, true, (3, 0xF4, 0, 2)),
        (Op::Ins, Width::B8, 3, 0x100, false, (3, 0x103, 0, 2)),
        (Op::Ins, Width::B8, 3, 0x100, true, (3, 0xFD, 0, 2)),
        (Op::Ins, Width::B16, 3, 0x100, true, (3, 0xFA, 0, 2)),
        (Op::Ins, Width::B32, 3, 0x100, false, (3, 0x10C, 0, 2)),
        (Op::Ins, Width::B64, 3, 0x100, true, (3, 0xF4, 0, 2)),
        // elements are left: after 2,032 bytes, at RAM's end, and past address 0
        (
            Op::Outs,
            Width::B32,
            0x1000,
            0x100,
            false,
            (508, 0x8F0, 0xE04, 0),
        ),
        (
            Op::Ins,
            Width::B8,
            0x1000,
            0x900,
            true,
            (2032, 0x110, 0x810, 0),
        ),
        (Op::Ins, Width::B16, 9, 0xFFC, false, (2, 0x1000, 7, 0)),
        (
            Op::Outs,
            Width::B32,
            9,
            4,
            true,
            (2, 0xFFFF_FFFF_FFFF_FFFC, 7, 0),
        ),
    ];
    for (op, width, count, at, df, expected) in rows {
        let rep = insn(op, width);
        assert_eq!(rt;
            passed(rt.alloc(), &rep, count, at, df)?,
            expected,
            "{op:?} {width:?} {at:x} {df}"
        );
    }
    Ok(())
}

#[test]
fn without_rep_rcx_stays_and_rip_goes_on(rt: HostRuntime) -> Result<(), Fail> {
    let rows = [
        (Op::Outs, Width::B8, false, 0x101),
        (Op::Outs, Width::B16, true, 0xFE),
        (Op::Ins, Width::B8, true, 0xFF),
        (Op::Ins, Width::B32, false, 0x104),
    ];
    for (op, width, df, at) in rows {
        let mut bare = insn(op, width);
        bare.rep = false;
        for rcx in [0, 1, 5, 0x1_0000_0000] {
            assert_eq!(rt; passed(rt.alloc(), &bare, rcx, 0x100, df)?, (1, at, rcx, 2));
        }
    }
    Ok(())
}

#[test]
fn rcx_of_two_to_the_32_is_a_count(rt: HostRuntime) -> Result<(), Fail> {
    let outs = insn(Op::Outs, Width::B8);
    assert_eq!(rt;
        passed(rt.alloc(), &outs, 0x1_0000_0000, 0x100, false)?,
        (2032, 0x8F0, 0xFFFF_F810, 0)
    );
    Ok(())
}

#[test]
fn df_turns_the_elements_and_not_their_bytes(rt: HostRuntime) -> Result<(), Fail> {
    let mut ram = ram(rt.alloc(), &[0; 18])?;
    let _ = ram.write(0x100, 8, 0x0807_0605_0403_0201);
    let rows: [(Width, u64, bool, &[u8]); 4] = [
        (Width::B8, 0x103, true, &[4, 3]),
        (Width::B16, 0x102, true, &[3, 4, 1, 2]),
        (Width::B32, 0x104, true, &[5, 6, 7, 8, 1, 2, 3, 4]),
        (Width::B16, 0x102, false, &[3, 4, 5, 6]),
    ];
    for (width, at, df, bytes) in rows {
        let shown = block(&regs(2, 0x3F8, at, df), &ram, &insn(Op::Outs, width)).ok_or(NoBlock)?;
        assert_eq!(rt; shown.bytes.as_slice(), bytes);
    }
    // and what comes in: 1 first, at the address, and then 2 below it
    let mut vcpu = regs(2, 0x3F8, 0x202, true);
    let ins = insn(Op::Ins, Width::B16);
    let asked = block(&vcpu, &ram, &ins).ok_or(NoBlock)?;
    place_block(&mut vcpu, &mut ram, &ins, &asked, &[1, 0x10, 2, 0x20]);
    assert_eq!(rt; ram.read(0x200, 4).unwrap_or(0), 0x1001_2002);
    Ok(())
}

#[test]
fn the_port_is_dx_alone(rt: HostRuntime) -> Result<(), Fail> {
    let ram = ram(rt.alloc(), &[0; 18])?;
    for op in [Op::Ins, Op::Outs] {
        let vcpu = regs(1, 0xFFFF_FFFF_0001_03F8, 0x100, false);
        let asked = block(&vcpu, &ram, &insn(op, Width::B8)).ok_or(NoBlock)?;
        assert_eq!(rt; asked.port, 0x3F8);
    }
    Ok(())
}

/// A word of the page.
fn word(page: &Words, number: u16) -> Option<u64> {
    Some(page.word(Word::new(number)?))
}

#[test]
fn bytes_pass_in_words_of_which_the_last_is_padded(rt: HostRuntime) -> Result<(), Fail> {
    let mut ram = ram(rt.alloc(), &[0; 18])?;
    let _ = ram.write(0x100, 8, 0x1122_3344_5566_7788);
    let _ = ram.write(0x108, 8, u64::MAX);
    let mut page = Words::new();
    let outs = block(
        &regs(5, 0x3F8, 0x100, false),
        &ram,
        &insn(Op::Outs, Width::B16),
    )
    .ok_or(NoBlock)?;
    show_block(&outs, &mut page);
    assert_eq!(rt; word(&page, 256), Some(0x1122_3344_5566_7788));
    assert_eq!(rt; word(&page, 257), Some(0xFFFF));
    assert_eq!(rt; word(&page, 258), Some(0));
    assert_eq!(rt; accept_block(&outs, &mut page).as_slice().len(), 0);
    let ins = block(
        &regs(5, 0x3F8, 0x100, false),
        &ram,
        &insn(Op::Ins, Width::B16),
    )
    .ok_or(NoBlock)?;
    let bytes = accept_block(&ins, &mut page);
    assert_eq!(rt;
        bytes.as_slice(),
        [0x88, 0x77, 0x66, 0x55, 0x44, 0x33, 0x22, 0x11, 0xFF, 0xFF].as_slice()
    );
    Ok(())
}
