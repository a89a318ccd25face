// What a page asks for.
ghost use Rattle.std.specs.Prelude.{◌≡◌};
ghost use Rattle.host_events.specs.Calls.{bad_page_code};

use event_table::Kind;

/// Why a page asks for no event: the first rule that it breaks.
#[derive(Clone, Copy, Debug, PartialEq, Eq)]
pub enum BadPage {
    /// The usage isn't 0.
    Usage,
    /// SW_SCRATCH isn't the address of the shared buffer in the vCPU's page.
    Buffer,
    /// The valid bitmap lacks the bit of a word that the event needs.
    Missing,
    /// The protocol version isn't 1, SW_EXITINFO1 says nothing of the event, SW_EXITINFO2 is no count of
    /// string I/O, or the bytes of MMIO don't lie in the page of devices.
    Invalid,
    /// SW_EXITCODE is no event's.
    Unknown,
}

impl BadPage {
    /// The number that stands for it.
    pub fn code(&self) -> u8
        ensures value { result ≡ bad_page_code self.now }
    {
        match self {
            BadPage::Usage => 2,
            BadPage::Buffer => 3,
            BadPage::Missing => 4,
            BadPage::Invalid => 5,
            BadPage::Unknown => 6,
        }
    }
}

/// What a vCPU asks for by its MSR word and its page. Of an event it has the kind alone: the event's data
/// stand on the page.
#[derive(Clone, Copy, Debug, PartialEq, Eq)]
pub enum Request {
    /// Nothing that is answered.
    Nothing,
    /// The protocol versions, and the page table bit that marks encrypted memory.
    SevInfo,
    /// One register of a CPUID function: 0 EAX, 1 EBX, 2 ECX, 3 EDX.
    Cpuid { function: u32, register: u8 },
    /// Nothing that can be answered, since its page breaks a rule.
    Malformed(BadPage),
    /// An event of this kind.
    Asked(Kind),
}
