// What stands before the opcode: the marks of a row and the bits of the REX byte
// (APM volume 3, section 1.2).
ghost use Rattle.std.specs.Prelude.{◌≡◌, ◌<◌};
ghost use Rattle.x86_base.specs.ModRm.{rex_bit, is_w, allows};

use x86_base::{Context, Row};

/// A bit of the REX byte, or 0: bit 3 is W, bit 2 R, bit 1 X, bit 0 B.
pub fn rex_bit_of(context: &Context, at: u32) -> u8
    requires { at < 4 }
    ensures value { result ≡ rex_bit context.now.rex at }
    ensures bound { result < 2 }
{
    match context.rex {
        Some(rex) => (rex >> at) % 2,
        None => 0,
    }
}

/// Whether REX.W is set.
pub fn is_long(context: &Context) -> bool
    ensures { result ≡ is_w context.now }
{
    rex_bit_of(context, 3) == 1
}

/// Whether a row may stand behind these prefixes.
pub fn is_allowed(context: &Context, row: &Row) -> bool
    ensures { result ≡ allows context.now row.now }
{
    let (base, long) = match context.rex {
        Some(rex) => (rex % 2 == 1, rex / 8 % 2 == 1),
        None => (false, false),
    };
    (row.size || !context.size)
        && (row.rep || !context.rep)
        && (!row.long || long)
        && !(row.no_base && base)
}
