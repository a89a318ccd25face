// Reading an instruction from left to right.
ghost use Rattle.std.specs.Prelude.{◌≡◌, ◌≤◌, length};
ghost use Rattle.insn_decode.specs.Reading.{Gives, filled, start, prefixes_at, rex_at, chosen, second_at, third_at, opcode_at, tail_at, instruction_at};

use crate::assemble::insn;
use crate::context::is_allowed;
use crate::sizes::{byte_at, form_has_modrm, is_accepted, modrm_byte, tail_bytes};
use crate::table::{row_one, row_three, row_two};
use x86_base::{Context, Insn, Row};

/// Why no instruction was read.
#[derive(Clone, Copy, Debug, PartialEq, Eq)]
pub enum Refusal {
    /// The bytes end within a spelling.
    End,
    /// No spelling begins so.
    Never,
}

/// The prefixes 66 and F3, in any number and order.
#[tactic(auto, unfolding(crate::specs::Reading::prefixes_at))]
fn prefixes(bytes: &[u8]) -> (Context, &[u8])
    ensures { (result.0, result.1.now) ≡ prefixes_at start bytes.now }
{
    let mut context = Context {
        size: false,
        rep: false,
        rex: None,
    };
    let mut rest = bytes;
    while let [first, tail @ ..] = rest {
        match *first {
            0x66 => context.size = true,
            0xF3 => context.rep = true,
            _ => break,
        }
        rest = tail;
    }
    (context, rest)
}

/// A REX byte, where one stands there.
#[tactic(auto, unfolding(crate::specs::Reading::rex_at))]
fn rex(context: Context, bytes: &[u8]) -> (Context, &[u8])
    ensures { (result.0, result.1.now) ≡ rex_at context bytes.entry.now }
{
    match bytes {
        [first @ 0x40..=0x4F, rest @ ..] => (
            Context {
                rex: Some(*first),
                ..context
            },
            rest,
        ),
        _ => (context, bytes),
    }
}

/// A row, where there is one and its marks allow it here.
#[tactic(auto, unfolding(crate::specs::Reading::chosen))]
fn choose<'a>(
    context: &Context,
    row: Option<Row>,
    rest: &'a [u8],
) -> Result<(Row, &'a [u8]), Refusal>
    ensures { Gives (λ x. (x.0, x.1.now)) result (chosen context.now row rest.now) }
{
    match row {
        Some(row) if is_allowed(context, &row) => Ok((row, rest)),
        _ => Err(Refusal::Never),
    }
}

/// The opcode behind 0F 01.
#[tactic(auto, unfolding(crate::specs::Reading::third_at))]
fn third<'a>(context: &Context, bytes: &'a [u8]) -> Result<(Row, &'a [u8]), Refusal>
    ensures { Gives (λ x. (x.0, x.1.now)) result (third_at context.now bytes.now) }
{
    match bytes {
        // No row of three bytes allows the prefix 66.
        [] => Err(if context.size {
            Refusal::Never
        } else {
            Refusal::End
        }),
        [first, rest @ ..] => choose(context, row_three(*first), rest),
    }
}

/// The opcode behind 0F.
#[tactic(auto, unfolding(crate::specs::Reading::second_at))]
fn second<'a>(context: &Context, bytes: &'a [u8]) -> Result<(Row, &'a [u8]), Refusal>
    ensures { Gives (λ x. (x.0, x.1.now)) result (second_at context.now bytes.now) }
{
    match bytes {
        [] => Err(Refusal::End),
        [0x01, rest @ ..] => third(context, rest),
        [first, rest @ ..] => choose(context, row_two(*first), rest),
    }
}

/// The opcode, of one to three bytes.
#[tactic(auto, unfolding(crate::specs::Reading::opcode_at))]
fn opcode<'a>(context: &Context, bytes: &'a [u8]) -> Result<(Row, &'a [u8]), Refusal>
    ensures { Gives (λ x. (x.0, x.1.now)) result (opcode_at context.now bytes.now) }
{
    match bytes {
        [] => Err(Refusal::End),
        // No row behind 0F allows the prefix F3.
        [0x0F, ..] if context.rep => Err(Refusal::Never),
        [0x0F, rest @ ..] => second(context, rest),
        [first, rest @ ..] => choose(context, row_one(*first), rest),
    }
}

/// ModRM, SIB, displacement and immediate.
#[tactic(auto, unfolding(crate::specs::Reading::tail_at))]
fn tail<'a>(context: &Context, row: &Row, bytes: &'a [u8]) -> Result<(&'a [u8], &'a [u8]), Refusal>
    ensures { Gives (λ x. (x.0.now, x.1.now)) result (tail_at context.now row.now bytes.now) }
{
    let modrm = modrm_byte(row, bytes);
    if form_has_modrm(row.form) && bytes.is_empty() {
        return Err(Refusal::End);
    }
    if !is_accepted(row, modrm) {
        return Err(Refusal::Never);
    }
    let len = tail_bytes(context, row, modrm, byte_at(bytes, 1));
    if bytes.len() < len {
        return Err(Refusal::End);
    }
    Ok(bytes.split_at(len))
}

/// Puts the instruction at the front of at most 15 bytes in its place.
#[tactic(auto, unfolding(crate::specs::Reading::instruction_at))]
pub fn instruction(window: &[u8], into: &mut Insn) -> Result<(), Refusal>
    requires { length window.now ≤ 15 }
    ensures { filled result into.new ≡ instruction_at window.now }
{
    let (context, rest) = prefixes(window);
    let (context, rest) = rex(context, rest);
    let (row, rest) = opcode(&context, rest)?;
    let (tail, rest) = tail(&context, &row, rest)?;
    insn(
        &context,
        &row,
        tail,
        (window.len() - rest.len()) as u8,
        into,
    );
    Ok(())
}
