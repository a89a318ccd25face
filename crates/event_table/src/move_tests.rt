// Moves that reach the page of devices.
use crate::tests::{A, C, D, RAX, RDX, image, insn, out, regs};
use crate::{Access, Event, Kind, Values, bytes_back, extend, named, place, row_of, vc_code};
use std::test::Fail;
use x86_base::{Insn, MemRef, Op, Operand, Reg, Width};

/// The first byte of the page of devices.
const PAGE: u64 = 0xFEB0_0000;

/// The operand at an address.
fn memory(disp: u64) -> Operand {
    Operand::Memory(MemRef {
        base: None,
        index: None,
        scale: 1,
        disp,
        from_rip: false,
    })
}

/// A move of two bytes of code from a source of this width.
fn move_from(op: Op, width: Width, source_width: Width, dst: Operand, src: Operand) -> Insn {
    Insn {
        source_width,
        ..insn(op, width, dst, src)
    }
}

/// A load of a register from the page.
fn load(op: Op, width: Width, source_width: Width) -> Insn {
    move_from(op, width, source_width, RAX, memory(PAGE))
}

fn read(at: u64, len: u8) -> Access {
    Access::MmioRead { at, len }
}

fn write(at: u64, len: u8, value: u64) -> Access {
    Access::MmioWrite { at, len, value }
}

#[test]
fn a_write_to_the_page_asks_the_low_bytes_of_its_source(rt: HostRuntime) -> Result<(), Fail> {
    let ram = image(rt.alloc(), 0, 0)?.ram(rt.alloc())?;
    let mut regs = regs(A, C, D, 0x1000);
    regs.gpr[15] = 0x1234;
    let rows = [
        (Width::B8, RAX, write(PAGE, 1, 0x88)),
        (Width::B16, RAX, write(PAGE, 2, 0x7788)),
        (Width::B32, RAX, write(PAGE, 4, 0x5566_7788)),
        (Width::B64, RAX, write(PAGE, 8, A)),
        (Width::B16, Operand::Whole(Reg::R15), write(PAGE, 2, 0x1234)),
        (Width::B8, Operand::Whole(Reg::R15), write(PAGE, 1, 0x34)),
        // an immediate is sign-extended, and cut to the width
        (Width::B64, Operand::Imm(u64::MAX), write(PAGE, 8, u64::MAX)),
        (
            Width::B32,
            Operand::Imm(u64::MAX),
            write(PAGE, 4, 0xFFFF_FFFF),
        ),
        (Width::B8, Operand::Imm(0x80), write(PAGE, 1, 0x80)),
    ];
    for (width, src, access) in rows {
        let insn = insn(Op::Mov, width, memory(PAGE), src);
        assert_eq!(rt; named(&regs, &ram, &insn), Some(access));
    }
    Ok(())
}

#[test]
fn ah_goes_to_the_page_and_not_the_low_byte_of_rsp(rt: HostRuntime) -> Result<(), Fail> {
    let mut ram = image(rt.alloc(), 0, 0)?.ram(rt.alloc())?;
    let mut regs = regs(A, C, D, 0x1042);
    let ah = Operand::High(Reg::Rax);
    let to = insn(Op::Mov, Width::B8, memory(PAGE), ah);
    assert_eq!(rt; named(&regs, &ram, &to), Some(write(PAGE, 1, 0x77)));
    let spl = insn(Op::Mov, Width::B8, memory(PAGE), Operand::Whole(Reg::Rsp));
    assert_eq!(rt; named(&regs, &ram, &spl), Some(write(PAGE, 1, 0x42)));
    let from = insn(Op::Mov, Width::B8, ah, memory(PAGE));
    let values = Values {
        a: 0xFFFF_FFFF_FFFF_FF41,
        c: 0,
        d: 0,
        b: 0,
    };
    assert_eq!(rt; named(&regs, &ram, &from), Some(read(PAGE, 1)));
    place(&mut regs, &mut ram, &from, &values);
    assert_eq!(rt; regs.gpr[0], 0x1122_3344_5566_4188);
    assert_eq!(rt; regs.get(Reg::Rsp), 0x1042);
    Ok(())
}

#[test]
fn a_read_of_the_page_is_cut_and_extended_by_its_operation(rt: HostRuntime) -> Result<(), Fail> {
    let mut ram = image(rt.alloc(), 0, 0)?.ram(rt.alloc())?;
    let (b8, b16, b32, b64) = (Width::B8, Width::B16, Width::B32, Width::B64);
    // the instruction, the bytes that are asked, and RAX afterwards: at 32 bits no bit of 63:32 is kept
    let rows = [
        (load(Op::Mov, b8, b8), 1, 0x1122_3344_5566_7781),
        (load(Op::Mov, b16, b16), 2, 0x1122_3344_5566_8081),
        (load(Op::Mov, b32, b32), 4, 0xF080_8081),
        (load(Op::Mov, b64, b64), 8, 0x8070_6050_F080_8081),
        (load(Op::Movzx, b16, b8), 1, 0x1122_3344_5566_0081),
        (load(Op::Movzx, b32, b8), 1, 0x81),
        (load(Op::Movzx, b64, b8), 1, 0x81),
        (load(Op::Movzx, b32, b16), 2, 0x8081),
        (load(Op::Movzx, b64, b16), 2, 0x8081),
        (load(Op::Movsx, b16, b8), 1, 0x1122_3344_5566_FF81),
        (load(Op::Movsx, b32, b8), 1, 0xFFFF_FF81),
        (load(Op::Movsx, b64, b8), 1, 0xFFFF_FFFF_FFFF_FF81),
        (load(Op::Movsx, b32, b16), 2, 0xFFFF_8081),
        (load(Op::Movsx, b64, b16), 2, 0xFFFF_FFFF_FFFF_8081),
    ];
    let values = Values {
        a: 0x8070_6050_F080_8081,
        c: 0,
        d: 0,
        b: 0,
    };
    for (insn, len, rax) in rows {
        let mut regs = regs(A, C, D, 0x1000);
        assert_eq!(rt; named(&regs, &ram, &insn), Some(read(PAGE, len)));
        place(&mut regs, &mut ram, &insn, &values);
        assert_eq!(rt; (regs.gpr[0], regs.gpr[1], regs.rip), (rax, C, 7));
    }
    assert_eq!(rt; extend(&load(Op::Movsx, b32, b8), 0x17F), 0x7F);
    assert_eq!(rt;
        extend(&load(Op::Movsx, b32, b8), 0x80),
        0xFFFF_FFFF_FFFF_FF80
    );
    assert_eq!(rt; extend(&load(Op::Movzx, b32, b16), 0x9_8765), 0x8765);
    Ok(())
}

#[test]
fn an_operand_is_in_the_page_with_all_its_bytes(rt: HostRuntime) -> Result<(), Fail> {
    let ram = image(rt.alloc(), 0, 0)?.ram(rt.alloc())?;
    let regs = regs(A, C, D, 0x1000);
    let rows = [
        (PAGE - 1, Width::B8, false),
        (PAGE - 1, Width::B16, false),
        (PAGE - 3, Width::B32, false),
        (PAGE - 7, Width::B64, false),
        (PAGE, Width::B8, true),
        (PAGE, Width::B64, true),
        (PAGE + 0xFFF, Width::B8, true),
        (PAGE + 0xFFE, Width::B16, true),
        (PAGE + 0xFFF, Width::B16, false),
        (PAGE + 0xFFC, Width::B32, true),
        (PAGE + 0xFFD, Width::B32, false),
        (PAGE + 0xFF8, Width::B64, true),
        (PAGE + 0xFF9, Width::B64, false),
        (PAGE + 0x1000, Width::B8, false),
        // no address is cut to 32 bits, and none goes round the end of all addresses
        (PAGE + 0x1_0000_0000, Width::B8, false),
        (PAGE + 0xFFFF_FFFF_0000_0000, Width::B8, false),
        (u64::MAX, Width::B64, false),
    ];
    for (at, width, is_in) in rows {
        let from = insn(Op::Mov, width, RAX, memory(at));
        let is_read = named(&regs, &ram, &from) == Some(read(at, width.bytes()));
        let to = insn(Op::Mov, width, memory(at), RAX);
        let is_written = named(&regs, &ram, &to) == Some(write(at, width.bytes(), width.low(A)));
        assert_eq!(rt; (is_read, is_written), (is_in, is_in), "at {at:#x}");
        if !is_in {
            assert_eq!(rt; named(&regs, &ram, &from), None);
            assert_eq!(rt; named(&regs, &ram, &to), None);
        }
    }
    Ok(())
}

#[test]
fn the_page_is_reached_from_the_following_rip_and_around_the_end(
    rt: HostRuntime,
) -> Result<(), Fail> {
    let ram = image(rt.alloc(), 0, 0)?.ram(rt.alloc())?;
    let mut regs = regs(PAGE + 8, C, D, 0x1000);
    let at = |base: Option<Reg>, disp: u64, from_rip: bool| {
        Operand::Memory(MemRef {
            base,
            index: None,
            scale: 1,
            disp,
            from_rip,
        })
    };
    // RIP is 5, and the following instruction's 7
    let rip = insn(Op::Mov, Width::B8, RDX, at(None, PAGE - 7, true));
    assert_eq!(rt; named(&regs, &ram, &rip), Some(read(PAGE, 1)));
    let below = insn(Op::Mov, Width::B8, RDX, at(None, PAGE - 8, true));
    assert_eq!(rt; named(&regs, &ram, &below), None);
    // a displacement of -8
    let back = at(Some(Reg::Rax), 0xFFFF_FFFF_FFFF_FFF8, false);
    let wraps = insn(Op::Mov, Width::B8, RDX, back);
    assert_eq!(rt; named(&regs, &ram, &wraps), Some(read(PAGE, 1)));
    regs.gpr[0] = 7;
    assert_eq!(rt; named(&regs, &ram, &wraps), None);
    Ok(())
}

#[test]
fn moves_alone_reach_the_page(rt: HostRuntime) -> Result<(), Fail> {
    let ram = image(rt.alloc(), 0, 0)?.ram(rt.alloc())?;
    let regs = regs(A, C, D, 0x1000);
    let ops = [
        Op::Add,
        Op::Cmp,
        Op::Test,
        Op::Movsxd,
        Op::Lea,
        Op::Push,
        Op::Pop,
        Op::Setcc(0),
        Op::Cmovcc(1),
    ];
    for op in ops {
        let to = insn(op, Width::B32, memory(PAGE), RAX);
        let from = insn(op, Width::B32, RAX, memory(PAGE));
        assert_eq!(rt; named(&regs, &ram, &to), None);
        assert_eq!(rt; named(&regs, &ram, &from), None);
    }
    // and what is moved within RAM is private
    let private = insn(Op::Mov, Width::B32, RAX, memory(0x100));
    assert_eq!(rt; named(&regs, &ram, &private), None);
    Ok(())
}

#[test]
fn mmio_is_shown_by_its_address_and_length(rt: HostRuntime) {
    let kind = Kind::MmioRead {
        at: PAGE + 2,
        len: 2,
    };
    let row = row_of(&kind);
    assert_eq!(rt;
        (row.code, row.info, row.count, row.scratch),
        (0x8000_0001, PAGE + 2, 2, true)
    );
    assert_eq!(rt; bytes_back(&kind), 2);
    let kind = Kind::MmioWrite { at: PAGE, len: 8 };
    let row = row_of(&kind);
    assert_eq!(rt;
        (row.code, row.info, row.count, row.scratch),
        (0x8000_0002, PAGE, 8, true)
    );
    assert_eq!(rt; bytes_back(&kind), 0);
    assert_eq!(rt; vc_code(&Event::One(read(PAGE, 1))), 0x400);
    assert_eq!(rt; vc_code(&Event::One(write(PAGE, 1, 0))), 0x400);
    assert_eq!(rt; vc_code(&Event::One(out(0x3F8, 1, 0))), 0x7B);
}
