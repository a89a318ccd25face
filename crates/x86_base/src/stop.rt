/// Why a processor stops at an instruction: it was HLT, an operand's address can't be used, or an
/// exception that can't be delivered.
#[derive(Clone, Copy, Debug, PartialEq, Eq)]
pub enum Stop {
    Halted,
    BadAddress(u64),
    Fault(u8),
}
