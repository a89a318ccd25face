// The private step.
ghost use Rattle.std.specs.Prelude.{◌≡◌, true, false, if◌then◌else◌, is_some, IfSome, IsTrue, None, Some, OnErr};
ghost use Rattle.x86_base.specs.Spelling.{IsSpelled};
ghost use Rattle.insn_decode.specs.Laws.{HasCondition};
ghost use Rattle.event_table.specs.Elements.{is_string as is_string_op};
ghost use Rattle.event_table.specs.Events.{asked_apart, asked_by, kind_at};
ghost use Rattle.event_table.specs.Lawful.{IsLawfulEvent};
ghost use Rattle.event_table.specs.Moves.{is_move as is_move_op, move_of};
ghost use Rattle.event_table.specs.Places.{vcpu};
ghost use Rattle.event_table.specs.Plan.{Does, Ends, Exits, event_asked, setting};
ghost use Rattle.event_table.specs.declared.end.End.TheVariants.{Undecoded};
ghost use Rattle.guest_interp.specs.Guest.{IsUntouched, asked_in, tried};
ghost use Rattle.guest_interp.specs.Stepping.{Comes, is_vc, stepped_by};
ghost use Rattle.guest_interp.specs.Table.{alu_op_of, other_of, private_of};

use crate::calculation::arithmetic;
use crate::conditions::{move_where, set_where};
use crate::jumps::{cmc, jmp, jump_if, nop, put_carry, put_direction};
use crate::moves::{lea, mov, movsx};
use crate::stack::{call, iretq, pop, push, ret};
use alu_ops::AluOp;
use event_table::{
    Access, Event, following, is_event, is_move, is_string, left, named, named_move, pointer,
    vc_code,
};
use image_file::Ram;
use insn_decode::laws::conditions;
use string_io::block;
use x86_base::{Insn, Op, Regs, Stop};

/// What one instruction comes to.
#[derive(Clone, Copy, Debug, PartialEq, Eq)]
pub enum Next {
    /// It is over.
    Went,
    /// It asks for an event; the exit code with which #VC is raised (APM volume 2, appendix C).
    Vc(u64),
    /// It ends the vCPU.
    Ended(Stop),
}

/// What one instruction comes to that isn't over.
#[derive(Clone, Copy, Debug, PartialEq, Eq)]
pub enum Unfinished {
    /// It asks for the event that is then in its place.
    Asks,
    /// It stops the vCPU.
    Stops(Stop),
}

/// The operation of an instruction that calculates.
fn operation(op: Op) -> Option<AluOp>
    ensures value { result ≡ alu_op_of op }
{
    match op {
        Op::Add => Some(AluOp::Add),
        Op::Or => Some(AluOp::Or),
        Op::Adc => Some(AluOp::Adc),
        Op::Sbb => Some(AluOp::Sbb),
        Op::And => Some(AluOp::And),
        Op::Sub => Some(AluOp::Sub),
        Op::Xor => Some(AluOp::Xor),
        Op::Cmp => Some(AluOp::Cmp),
        Op::Test => Some(AluOp::Test),
        Op::Not => Some(AluOp::Not),
        Op::Neg => Some(AluOp::Neg),
        Op::Inc => Some(AluOp::Inc),
        Op::Dec => Some(AluOp::Dec),
        Op::Shl => Some(AluOp::Shl),
        Op::Shr => Some(AluOp::Shr),
        Op::Sar => Some(AluOp::Sar),
        Op::Imul => Some(AluOp::Imul),
        _ => None,
    }
}

/// An instruction that neither calculates nor exits.
#[inline(always)]
fn private_other(regs: &mut Regs, ram: &mut Ram, insn: &Insn) -> Result<(), Stop>
    requires condition { HasCondition insn.now.op }
    requires string { is_string_op insn.now.op ≡ false }
    requires operation { alu_op_of insn.now.op ≡ None }
    requires private { kind_at insn.now.op insn.now.width 0 ≡ None }
    ensures done { Does result regs.old ram.old regs.new ram.new insn.now (other_of insn.now.op insn.now) }
    ensures kept { OnErr result (vcpu regs.new ram.new ≡ vcpu regs.old ram.old) }
{
    match insn.op {
        Op::Mov | Op::Movzx => mov(regs, ram, insn)?,
        Op::Movsx | Op::Movsxd => movsx(regs, ram, insn)?,
        Op::Lea => lea(regs, ram, insn)?,
        Op::Push => push(regs, ram, insn)?,
        Op::Pop => pop(regs, ram, insn)?,
        Op::Call => call(regs, ram, insn)?,
        Op::Ret => ret(regs, ram, insn)?,
        Op::Jmp => jmp(regs, insn),
        Op::Jcc(condition) => jump_if(regs, insn, condition),
        Op::Setcc(condition) => set_where(regs, ram, insn, condition)?,
        Op::Cmovcc(condition) => move_where(regs, ram, insn, condition)?,
        Op::Cmc => cmc(regs, insn),
        Op::Clc => put_carry(regs, insn, false),
        Op::Stc => put_carry(regs, insn, true),
        Op::Cld => put_direction(regs, insn, false),
        Op::Std => put_direction(regs, insn, true),
        Op::Nop => nop(regs, insn),
        Op::Hlt => return Err(Stop::Halted),
        Op::Iretq => iretq(regs, ram, insn)?,
        _ => unreachable!(),
    }
    Ok(())
}

/// An instruction that doesn't exit.
#[inline(always)]
fn private(regs: &mut Regs, ram: &mut Ram, insn: &Insn) -> Result<(), Stop>
    requires condition { HasCondition insn.now.op }
    requires string { is_string_op insn.now.op ≡ false }
    requires private { kind_at insn.now.op insn.now.width 0 ≡ None }
    ensures done { Does result regs.old ram.old regs.new ram.new insn.now (private_of insn.now) }
    ensures kept { OnErr result (vcpu regs.new ram.new ≡ vcpu regs.old ram.old) }
{
    match operation(insn.op) {
        Some(op) => arithmetic(regs, ram, insn, op),
        None => private_other(regs, ram, insn),
    }
}

/// Whether a string instruction is over, as it is where REP finds RCX 0. Else it asks for its next block, or
/// stops the vCPU at its first element.
#[cold]
#[inline(never)]
fn string(
    regs: &mut Regs,
    ram: &Ram,
    insn: &Insn,
    event: &mut Event,
    unfinished: &mut Unfinished,
) -> bool
    requires string { is_string_op insn.now.op ≡ true }
    ensures done { let w = vcpu regs.new ram.now in
        tried result unfinished.new event.new w ≡ stepped_by insn.now (vcpu regs.old ram.now) }
    ensures named { asked_in result unfinished.new event.new ≡ asked_by insn.now (vcpu regs.old ram.now) }
    ensures lawful { IfSome (asked_in result unfinished.new event.new) IsLawfulEvent }
    ensures untouched { IsUntouched result (vcpu regs.old ram.now) (vcpu regs.new ram.now) }
{
    if let Some(block) = block(regs, ram, insn) {
        *event = Event::Many(block);
        *unfinished = Unfinished::Asks;
        return false;
    }
    if left(regs, insn) == 0 {
        regs.rip = following(regs, insn);
        return true;
    }
    *unfinished = Unfinished::Stops(Stop::BadAddress(regs.get(pointer(insn))));
    false
}

/// Whether an instruction is a move that reaches the page of devices. Then it asks for the access that
/// is in the event's place.
#[cold]
#[inline(never)]
fn reaches_page(regs: &Regs, ram: &Ram, insn: &Insn, event: &mut Event) -> bool
    ensures moves { IsTrue result → is_move_op insn.now.op ≡ true }
    ensures named { let v = vcpu regs.now ram.now in is_move_op insn.now.op ≡ true →
        (if result then Some event.new else None) ≡
        event_asked v (move_of insn.now (setting v insn.now.len) (Ends Undecoded)) }
    ensures lawful { IsTrue result → IsLawfulEvent event.new }
{
    if is_move(insn)
        && let Some(access) = named_move(regs, ram, insn)
    {
        event.set_access(access);
        return true;
    }
    false
}

/// Whether an instruction is over that has no event of registers: it is private, or a move that reaches
/// the page of devices. The place of what it else comes to is handed in, since a result that is built in
/// memory would be tested again in each step.
#[inline(always)]
fn attempt_private(
    regs: &mut Regs,
    ram: &mut Ram,
    insn: &Insn,
    event: &mut Event,
    unfinished: &mut Unfinished,
) -> bool
    requires condition { HasCondition insn.now.op }
    requires string { is_string_op insn.now.op ≡ false }
    requires private { kind_at insn.now.op insn.now.width 0 ≡ None }
    ensures done { let w = vcpu regs.new ram.new in
        tried result unfinished.new event.new w ≡ stepped_by insn.now (vcpu regs.old ram.old) }
    ensures named { asked_in result unfinished.new event.new ≡ asked_by insn.now (vcpu regs.old ram.old) }
    ensures lawful { IfSome (asked_in result unfinished.new event.new) IsLawfulEvent }
    ensures untouched { IsUntouched result (vcpu regs.old ram.old) (vcpu regs.new ram.new) }
{
    // What lies in RAM is private, so that no move there is tested for the page.
    let Err(stop) = private(regs, ram, insn) else {
        return true;
    };
    *unfinished = Unfinished::Stops(stop);
    if reaches_page(regs, ram, insn, event) {
        *unfinished = Unfinished::Asks;
    }
    false
}

/// Puts the event of an instruction that exits with its data in registers in its place.
#[cold]
#[inline(never)]
fn ask_registers(regs: &Regs, ram: &Ram, insn: &Insn, event: &mut Event)
    requires event { is_some (kind_at insn.now.op insn.now.width 0) ≡ true }
    ensures done { let v = vcpu regs.now ram.now in Exits event.new v ≡ stepped_by insn.now v }
    ensures named { Some event.new ≡ asked_by insn.now (vcpu regs.now ram.now) }
    ensures lawful { IsLawfulEvent event.new }
{
    match named(regs, ram, insn) {
        Some(access) => event.set_access(access),
        None => unreachable!(),
    }
}

/// Whether one instruction, which was decoded at RIP, is over. Else it asks for the event that is then in the
/// place handed in, or stops the vCPU, as the place of what is unfinished says, and nothing else changes.
#[inline(always)]
pub fn attempt(
    regs: &mut Regs,
    ram: &mut Ram,
    insn: &Insn,
    event: &mut Event,
    unfinished: &mut Unfinished,
) -> bool
    requires spelled { IsSpelled insn.now }
    ensures done { let w = vcpu regs.new ram.new in
        tried result unfinished.new event.new w ≡ stepped_by insn.now (vcpu regs.old ram.old) }
    ensures named { asked_in result unfinished.new event.new ≡ asked_by insn.now (vcpu regs.old ram.old) }
    ensures lawful { IfSome (asked_in result unfinished.new event.new) IsLawfulEvent }
    ensures untouched { IsUntouched result (vcpu regs.old ram.old) (vcpu regs.new ram.new) }
{
    if is_string(insn) {
        return string(regs, ram, insn, event, unfinished);
    }
    if is_event(insn) {
        ask_registers(regs, ram, insn, event);
        *unfinished = Unfinished::Asks;
        return false;
    }
    conditions();
    attempt_private(regs, ram, insn, event, unfinished)
}

/// One instruction, which was decoded at RIP. `Vc` comes exactly where it asks for an event, which is where
/// `named` gives an access, and `Ended` where it ends the vCPU; nothing changes in either case.
pub fn step(regs: &mut Regs, ram: &mut Ram, insn: &Insn) -> Next
    requires spelled { IsSpelled insn.now }
    ensures comes { Comes result insn.now (vcpu regs.old ram.old) (vcpu regs.new ram.new) }
    ensures named { is_vc result ≡ is_some (asked_by insn.now (vcpu regs.old ram.old)) }
    ensures accessed { is_vc result ≡ is_some (asked_apart insn.now (vcpu regs.old ram.old)) }
{
    let mut event = Event::One(Access::Wbinvd);
    let mut unfinished = Unfinished::Asks;
    if attempt(regs, ram, insn, &mut event, &mut unfinished) {
        return Next::Went;
    }
    match unfinished {
        Unfinished::Asks => Next::Vc(vc_code(&event)),
        Unfinished::Stops(stop) => Next::Ended(stop),
    }
}
