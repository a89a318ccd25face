ghost use Rattle.std.specs.Prelude.{◌≡◌, ◌==◌, ◌↔◌};
ghost use Rattle.std.specs.List.{find};
ghost use Rattle.exit_info.specs.ExitCode.{number_of_code, exit_code_of};

/// The event for which a guest exits, in SW_EXITCODE (AMD 56421, the non-automatic exits).
///
/// The codes but for the last two are those of the intercepts (APM volume 2, appendix C).
#[derive(Clone, Copy, Debug, PartialEq, Eq)]
pub enum ExitCode {
    Rdtsc,
    Rdpmc,
    Cpuid,
    Io,
    Msr,
    Vmmcall,
    Rdtscp,
    Wbinvd,
    MmioRead,
    MmioWrite,
}

impl ExitCode {
    /// Each event once, in the order of the codes.
    const ALL: [ExitCode; 10] = [
        ExitCode::Rdtsc,
        ExitCode::Rdpmc,
        ExitCode::Cpuid,
        ExitCode::Io,
        ExitCode::Msr,
        ExitCode::Vmmcall,
        ExitCode::Rdtscp,
        ExitCode::Wbinvd,
        ExitCode::MmioRead,
        ExitCode::MmioWrite,
    ];

    /// Reads the event whose code the word is.
    pub fn read(word: u64) -> Result<ExitCode, UnknownCode>
        ensures value { result ≡ exit_code_of word }
        ensures ok { (event : ExitCode) → (result ≡ Ok event) ↔ (number_of_code event ≡ word) }
    {
        event_in(&ExitCode::ALL, word).ok_or(UnknownCode(word))
    }

    /// The event's code.
    pub fn write(&self) -> u64
        ensures value { result ≡ number_of_code self.now }
    {
        match self {
            ExitCode::Rdtsc => 0x6E,
            ExitCode::Rdpmc => 0x6F,
            ExitCode::Cpuid => 0x72,
            ExitCode::Io => 0x7B,
            ExitCode::Msr => 0x7C,
            ExitCode::Vmmcall => 0x81,
            ExitCode::Rdtscp => 0x87,
            ExitCode::Wbinvd => 0x89,
            ExitCode::MmioRead => 0x8000_0001,
            ExitCode::MmioWrite => 0x8000_0002,
        }
    }
}

/// The first of these events whose code the word is.
fn event_in(events: &[ExitCode], word: u64) -> Option<ExitCode>
    ensures { result ≡ find (λ event. number_of_code event == word) events.now }
{
    events.iter().copied().find(|event| event.write() == word)
}

/// A word that is no event's code.
#[derive(Clone, Copy, Debug, PartialEq, Eq)]
pub struct UnknownCode(pub u64);
