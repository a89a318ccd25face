ghost use Rattle.std.specs.Prelude.{◌≡◌, ◌<◌};
ghost use Rattle.alu_ops.specs.Condition.{holds_of};

use x86_base::Flags;

/// Whether the flags meet a condition, by the number that its opcode has for it: 0 overflow, 2 below,
/// 4 equal, 6 below or equal, 8 negative, 10 even parity, 12 less, 14 less or equal. An odd number is
/// the opposite of the even one before it (APM volume 3, "Jcc").
pub fn holds(condition: u8, flags: Flags) -> bool
    requires { condition < 16 }
    ensures value { result ≡ holds_of condition flags }
{
    let base = match condition / 2 {
        0 => flags.of,
        1 => flags.cf,
        2 => flags.zf,
        3 => flags.cf || flags.zf,
        4 => flags.sf,
        5 => flags.pf,
        6 => flags.sf != flags.of,
        _ => flags.zf || flags.sf != flags.of,
    };
    if condition % 2 == 0 { base } else { !base }
}

#[cfg(test)]
mod tests {
    use super::*;

    #[test]
    fn holds_by_the_flags(rt: HostRuntime) {
        // a flags word, and a bit for each condition that holds
        let rows = [
            (0x002_u64, 0xAAAA_u32),
            (0x003, 0xAA66),
            (0x006, 0xA6AA),
            (0x042, 0x6A5A),
            (0x082, 0x59AA),
            (0x402, 0xAAAA),
            (0x802, 0x5AA9),
            (0x882, 0xA9A9),
            (0x8C7, 0x6555),
        ];
        for (word, conditions) in rows {
            for condition in 0..16 {
                let want = (conditions >> condition) % 2 == 1;
                assert_eq!(rt;
                    holds(condition, Flags::from_word(word)),
                    want,
                    "condition {condition} at {word:x}"
                );
            }
        }
    }
}
