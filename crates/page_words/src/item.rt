use crate::Word;

/// One call on a page, with the value that went in or came out.
#[derive(Clone, Copy, Debug, PartialEq, Eq)]
pub enum Item {
    /// A word was stored.
    Store(Word, u64),
    /// The MSR was written, and the guest left by VMGEXIT.
    Exit(u64),
    /// A word was loaded, and gave this value.
    Load(Word, u64),
    /// The MSR was read, and gave this value.
    Msr(u64),
}
