// Instructions that exit, and exceptions, over one page of RAM.
use crate::{Access, Kind, Values, bytes_back, named, place, raise, row_of};
use image_file::{Image, Ram};
use image_samples::sample_image;
use std::alloc::Global;
use std::test::Fail;
use x86_base::{Flags, Insn, Op, Operand, Reg, Regs, Stop, Width};

/// An image of nine bytes of code over one page, with handlers of #UD and #GP at these addresses.
pub fn image(alloc: Global, ud: u32, gp: u32) -> Result<Image, Fail> {
    Ok(sample_image(alloc, &[0; 9], ud, gp)?)
}

/// Registers with RAX, RCX, RDX and RSP, at address 5.
pub fn regs(a: u64, c: u64, d: u64, rsp: u64) -> Regs {
    let mut gpr = [0x7777_7777_7777_7777; 16];
    gpr[0] = a;
    gpr[1] = c;
    gpr[2] = d;
    gpr[4] = rsp;
    Regs {
        gpr,
        rip: 5,
        flags: Flags::from_word(2),
    }
}

/// An instruction of two bytes.
pub fn insn(op: Op, width: Width, dst: Operand, src: Operand) -> Insn {
    Insn {
        op,
        width,
        source_width: width,
        dst,
        src,
        rep: false,
        len: 2,
    }
}

pub const A: u64 = 0x1122_3344_5566_7788;

pub const C: u64 = 0x99AA_BBCC_DDEE_FF00;

pub const D: u64 = 0x0123_4567_89AB_03F8;

pub const RAX: Operand = Operand::Whole(Reg::Rax);

pub const RDX: Operand = Operand::Whole(Reg::Rdx);

const NONE: Operand = Operand::Absent;

pub fn out(port: u16, size: u8, value: u32) -> Access {
    Access::Out { port, size, value }
}

fn input(port: u16, size: u8) -> Access {
    Access::In { port, size }
}

#[test]
fn port_io_asks_the_bytes_of_its_size_alone(rt: HostRuntime) -> Result<(), Fail> {
    let ram = image(rt.alloc(), 0, 0)?.ram(rt.alloc())?;
    let regs = regs(A, C, D, 0x1000);
    let port = Operand::Imm(0x60);
    let rows = [
        (insn(Op::Out, Width::B8, RDX, RAX), out(0x3F8, 1, 0x88)),
        (insn(Op::Out, Width::B16, port, RAX), out(0x60, 2, 0x7788)),
        (
            insn(Op::Out, Width::B32, RDX, RAX),
            out(0x3F8, 4, 0x5566_7788),
        ),
        (insn(Op::In, Width::B8, RAX, RDX), input(0x3F8, 1)),
        (insn(Op::In, Width::B16, RAX, port), input(0x60, 2)),
        (insn(Op::In, Width::B32, RAX, RDX), input(0x3F8, 4)),
    ];
    for (insn, access) in rows {
        assert_eq!(rt; named(&regs, &ram, &insn), Some(access));
    }
    Ok(())
}

#[test]
fn no_high_half_is_asked_at_wrmsr_and_rdmsr(rt: HostRuntime) -> Result<(), Fail> {
    let ram = image(rt.alloc(), 0, 0)?.ram(rt.alloc())?;
    let regs = regs(A, C, D, 0x1000);
    let (eax, ecx, edx) = (0x5566_7788, 0xDDEE_FF00, 0x89AB_03F8);
    let cpuid = Access::Cpuid {
        leaf: eax,
        sub: ecx,
    };
    let wrmsr = Access::Wrmsr {
        msr: ecx,
        low: eax,
        high: edx,
    };
    let rows = [
        (Op::Rdmsr, Some(Access::Rdmsr { msr: ecx })),
        (Op::Wrmsr, Some(wrmsr)),
        (Op::Cpuid, Some(cpuid)),
        (Op::Rdpmc, Some(Access::Rdpmc { index: ecx })),
        (Op::Vmmcall, Some(Access::Vmmcall { rax: A })),
        (Op::Rdtsc, Some(Access::Rdtsc)),
        (Op::Rdtscp, Some(Access::Rdtscp)),
        (Op::Wbinvd, Some(Access::Wbinvd)),
        (Op::Nop, None),
        (Op::Hlt, None),
        (Op::Mov, None),
        (Op::Ins, None),
        (Op::Outs, None),
    ];
    for (op, access) in rows {
        assert_eq!(rt;
            named(&regs, &ram, &insn(op, Width::B64, NONE, NONE)),
            access
        );
    }
    Ok(())
}

/// What RBX is at the start.
const B: u64 = 0x7777_7777_7777_7777;

/// RAX, RCX, RDX and RBX after an instruction takes wide results; none where RIP or RSP isn't as told.
fn placed(ram: &mut Ram, insn: Insn) -> Option<[u64; 4]> {
    let values = Values {
        a: 0xFFFF_FFFF_FFFF_FF41,
        c: 0xFFFF_FFFF_0000_0042,
        d: 0xFFFF_FFFF_0000_0043,
        b: 0xFFFF_FFFF_0000_0044,
    };
    let mut regs = regs(A, C, D, 0x1000);
    named(&regs, ram, &insn)?;
    place(&mut regs, ram, &insn, &values);
    if regs.rip != 7 || regs.get(Reg::Rsp) != 0x1000 {
        return None;
    }
    Some([regs.gpr[0], regs.gpr[1], regs.gpr[2], regs.gpr[3]])
}

#[test]
fn in_al_keeps_the_rest_of_rax_and_in_eax_clears_its_high_half(
    rt: HostRuntime,
) -> Result<(), Fail> {
    let mut ram = image(rt.alloc(), 0, 0)?.ram(rt.alloc())?;
    let rows = [
        (insn(Op::In, Width::B8, RAX, RDX), 0x1122_3344_5566_7741),
        (insn(Op::In, Width::B16, RAX, RDX), 0x1122_3344_5566_FF41),
        (insn(Op::In, Width::B32, RAX, RDX), 0xFFFF_FF41),
        (insn(Op::Out, Width::B8, RDX, RAX), A),
        (insn(Op::Out, Width::B32, RDX, RAX), A),
    ];
    for (insn, rax) in rows {
        assert_eq!(rt; placed(&mut ram, insn), Some([rax, C, D, B]));
    }
    Ok(())
}

#[test]
fn no_result_of_64_bits_is_kept_at_rdtsc_and_rdmsr(rt: HostRuntime) -> Result<(), Fail> {
    let mut ram = image(rt.alloc(), 0, 0)?.ram(rt.alloc())?;
    // RAX, RCX, RDX and RBX afterwards
    let rows = [
        (Op::Rdtsc, [0xFFFF_FF41, C, 0x43, B]),
        (Op::Rdmsr, [0xFFFF_FF41, C, 0x43, B]),
        (Op::Rdpmc, [0xFFFF_FF41, C, 0x43, B]),
        (Op::Rdtscp, [0xFFFF_FF41, 0x42, 0x43, B]),
        (Op::Cpuid, [0xFFFF_FF41, 0x42, 0x43, 0x44]),
        (Op::Vmmcall, [0xFFFF_FFFF_FFFF_FF41, C, D, B]),
        (Op::Wrmsr, [A, C, D, B]),
        (Op::Wbinvd, [A, C, D, B]),
    ];
    for (op, after) in rows {
        let insn = insn(op, Width::B64, NONE, NONE);
        assert_eq!(rt; placed(&mut ram, insn), Some(after));
    }
    Ok(())
}

#[test]
fn delivers_an_exception(rt: HostRuntime) -> Result<(), Fail> {
    let image = image(rt.alloc(), 3, 8)?;
    // The vector, its code, RSP before and after, where it goes on, and the words from RSP upwards.
    let rows: [(u8, u32, u64, u64, u64, &[u64]); 3] = [
        (13, 0, 0x1000, 0xFD0, 8, &[0, 5, 8, 2, 0x1000, 16]),
        (13, 7, 0x80B, 0x7D0, 8, &[7, 5, 8, 2, 0x80B, 16]),
        (6, 7, 0x80B, 0x7D8, 3, &[5, 8, 2, 0x80B, 16]),
    ];
    for (vector, code, rsp, top, rip, words) in rows {
        let mut ram = image.ram(rt.alloc())?;
        let mut regs = regs(A, C, D, rsp);
        assert_eq!(rt; raise(&mut regs, &mut ram, &image, vector, code), Ok(()));
        assert_eq!(rt; regs.get(Reg::Rsp), top);
        assert_eq!(rt; regs.rip, rip);
        for (number, word) in words.iter().enumerate() {
            assert_eq!(rt; ram.read(top + 8 * number as u64, 8).unwrap_or(0), *word);
        }
    }
    Ok(())
}

#[test]
fn refuses_an_exception_with_nothing_changed(rt: HostRuntime) -> Result<(), Fail> {
    // The handlers, RSP, and the end: none; a frame on code, one past RAM, and one that wraps.
    let rows = [
        (0, 0x1000, Stop::Fault(13)),
        (8, 0x38, Stop::BadAddress(0)),
        (8, 0x1010, Stop::BadAddress(0xFE0)),
        (8, 0x2F, Stop::BadAddress(0xFFFF_FFFF_FFFF_FFF0)),
    ];
    for (gp, rsp, stop) in rows {
        let image = image(rt.alloc(), 0, gp)?;
        let mut ram = image.ram(rt.alloc())?;
        let mut after = regs(A, C, D, rsp);
        assert_eq!(rt; raise(&mut after, &mut ram, &image, 13, 0), Err(stop));
        assert_eq!(rt; after, regs(A, C, D, rsp));
    }
    Ok(())
}

#[test]
fn xcr0_is_shown_with_the_leaf_of_the_extended_state(rt: HostRuntime) {
    let cpuid = row_of(&Kind::Cpuid);
    assert_eq!(rt; cpuid.shows_xcr0(0xD), true);
    assert_eq!(rt; cpuid.shows_xcr0(0xF_0000_000D), true);
    assert_eq!(rt; cpuid.shows_xcr0(0xE), false);
    assert_eq!(rt; row_of(&Kind::Vmmcall).shows_xcr0(0xD), false);
}

/// INS or OUTS of two bytes of code, with or without REP.
fn string(op: Op, width: Width, rep: bool) -> Insn {
    Insn {
        rep,
        ..insn(op, width, NONE, NONE)
    }
}

/// Registers with RCX, port 0x3F8, and RSI and RDI at an address, at address 5.
fn string_regs(count: u64, at: u64, df: bool) -> Regs {
    let mut regs = regs(A, count, D, 0x1000);
    regs.gpr[6] = at;
    regs.gpr[7] = at;
    regs.flags.df = df;
    regs
}

#[test]
fn the_next_element_is_asked_where_it_can_be_moved(rt: HostRuntime) -> Result<(), Fail> {
    let mut ram = image(rt.alloc(), 0, 0)?.ram(rt.alloc())?;
    let _ = ram.write(0x100, 8, A);
    let (ins, outs) = (Op::Ins, Op::Outs);
    // RCX, the address, the instruction, and what it asks: none with RCX 0, of an element that leaves RAM, and of an
    // input over the nine bytes of code.
    let rows = [
        (0, 0x100, string(outs, Width::B8, true), None),
        (
            0,
            0x100,
            string(outs, Width::B8, false),
            Some(out(0x3F8, 1, 0x88)),
        ),
        (
            7,
            0x100,
            string(outs, Width::B16, true),
            Some(out(0x3F8, 2, 0x7788)),
        ),
        (
            7,
            0x100,
            string(outs, Width::B32, true),
            Some(out(0x3F8, 4, 0x5566_7788)),
        ),
        (
            7,
            0x100,
            string(outs, Width::B64, true),
            Some(out(0x3F8, 4, 0x5566_7788)),
        ),
        (1, 0xFFD, string(outs, Width::B32, true), None),
        (
            1,
            0xFFFF_FFFF_FFFF_FFFF,
            string(outs, Width::B16, true),
            None,
        ),
        (1, 8, string(outs, Width::B8, true), Some(out(0x3F8, 1, 0))),
        (1, 8, string(ins, Width::B8, true), None),
        (1, 9, string(ins, Width::B16, true), Some(input(0x3F8, 2))),
        (0, 9, string(ins, Width::B64, false), Some(input(0x3F8, 4))),
    ];
    for (count, at, insn, access) in rows {
        let regs = string_regs(count, at, false);
        assert_eq!(rt; named(&regs, &ram, &insn), access);
    }
    Ok(())
}

/// RCX, RSI, RDI and RIP after an element takes a wide result.
fn moved(ram: &mut Ram, insn: Insn, mut regs: Regs) -> Option<[u64; 4]> {
    let values = Values {
        a: 0xFFFF_FFFF_FFFF_FF41,
        c: 0,
        d: 0,
        b: 0,
    };
    named(&regs, ram, &insn)?;
    place(&mut regs, ram, &insn, &values);
    Some([regs.gpr[1], regs.gpr[6], regs.gpr[7], regs.rip])
}

#[test]
fn an_element_moves_its_pointer_and_with_rep_its_count(rt: HostRuntime) -> Result<(), Fail> {
    let mut ram = image(rt.alloc(), 0, 0)?.ram(rt.alloc())?;
    let (ins, outs) = (Op::Ins, Op::Outs);
    // RCX, DF, the instruction, and RCX, RSI, RDI and RIP afterwards: RIP goes on with the last element alone.
    let rows = [
        (
            3,
            false,
            string(outs, Width::B16, true),
            [2, 0x102, 0x100, 5],
        ),
        (
            1,
            false,
            string(outs, Width::B16, true),
            [0, 0x102, 0x100, 7],
        ),
        (
            3,
            false,
            string(outs, Width::B16, false),
            [3, 0x102, 0x100, 7],
        ),
        (3, true, string(outs, Width::B32, true), [2, 0xFC, 0x100, 5]),
        (3, true, string(ins, Width::B8, true), [2, 0x100, 0xFF, 5]),
        (
            3,
            false,
            string(ins, Width::B32, false),
            [3, 0x100, 0x104, 7],
        ),
    ];
    for (count, df, insn, after) in rows {
        let regs = string_regs(count, 0x100, df);
        assert_eq!(rt; moved(&mut ram, insn, regs), Some(after));
    }
    // An input writes its size alone.
    assert_eq!(rt; ram.read(0xFF, 8).unwrap_or(0), 0x00FF_FFFF_4100);
    Ok(())
}

#[test]
fn a_block_is_shown_in_the_buffer_and_in_exit_info_2(rt: HostRuntime) {
    let outs = row_of(&Kind::Outs {
        port: 0x3F8,
        size: 1,
        rep: true,
        count: 2032,
    });
    assert_eq!(rt;
        (outs.code, outs.info, outs.count, outs.scratch),
        (0x7B, 0x03F8_0E1C, 2032, true)
    );
    let ins = Kind::Ins {
        port: 0x500,
        size: 4,
        rep: true,
        count: 2,
    };
    let row = row_of(&ins);
    assert_eq!(rt;
        (row.code, row.info, row.count, row.scratch),
        (0x7B, 0x0500_024D, 2, true)
    );
    assert_eq!(rt; bytes_back(&ins), 8);
    assert_eq!(rt; row_of(&Kind::Cpuid).scratch, false);
}
