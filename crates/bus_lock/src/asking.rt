// Pages of the tests: what their guests ask for.
use page_words::{Page, Word, Words};

/// An event at a device of its own, or at one that all vCPUs share.
#[derive(Clone, Copy)]
pub enum Ask {
    /// OUT of 4 bytes to the mailbox at port 500h.
    Put(u64),
    /// IN of 4 bytes from there.
    Get,
    /// WRMSR to 40001000h, a word of the vCPU's own, with this low half.
    Write(u64),
    /// RDMSR from there.
    Read,
}

impl Ask {
    /// The exit code, SW_EXITINFO1, and RAX.
    fn shown(self) -> (u64, u64, u64) {
        match self {
            Ask::Put(value) => (0x7B, 0x0500_0240, value),
            Ask::Get => (0x7B, 0x0500_0241, 0),
            Ask::Write(value) => (0x7C, 1, value),
            Ask::Read => (0x7C, 0, 0),
        }
    }
}

/// The page of a vCPU that asks for this, with the bits of RAX, RCX, RDX and the three words of an exit.
pub fn page_of(vcpu: u16, ask: Ask) -> Words {
    let (code, info, low) = ask.shown();
    let mut page = Words::new();
    let words = [
        (63, low),
        (97, 0x4000_1000),
        (114, code),
        (115, info),
        (126, 1 << 63),
        (127, 0x001C_0006_0000_0000),
        (511, 0x1_0000),
    ];
    for (number, value) in words {
        if let Some(word) = Word::new(number) {
            page.store(word, value);
        }
    }
    page.set_msr(0x8000_0000 | u64::from(vcpu) << 12);
    page
}

/// RAX of a page that was served.
pub fn rax(page: &Words) -> u64 {
    Word::new(63).map_or(0, |word| page.word(word))
}

/// Whether two pages have the same words.
pub fn are_same(page: &Words, other: &Words) -> bool {
    for number in 0..512 {
        if let Some(word) = Word::new(number)
            && page.word(word) != other.word(word)
        {
            return false;
        }
    }
    page.msr_word() == other.msr_word()
}
