/// A message that a guest or a hypervisor writes into the GHCB MSR (AMD 56421, "GHCB MSR Protocol").
///
/// A register is numbered 0 for EAX, 1 for EBX, 2 for ECX and 3 for EDX.
#[derive(Clone, Copy, Debug, PartialEq, Eq)]
pub enum MsrWord {
    /// The address of a guest's GHCB, whose low 12 bits are 0.
    GhcbAddress(u64),
    /// The greatest and the least protocol version of a hypervisor, and the page table bit that marks
    /// encrypted memory.
    SevInfo { max: u16, min: u16, c_bit: u8 },
    /// Asks for `SevInfo`.
    SevInfoRequest,
    /// Asks for one register of a CPUID function.
    CpuidRequest { function: u32, register: u8 },
    /// The register's value.
    CpuidResponse { value: u32, register: u8 },
    /// Holds the vCPU until it is started anew (version 2).
    ApHoldRequest,
    /// What a held vCPU gets, a number of 52 bits (version 2).
    ApHoldResponse(u64),
    /// Asks for the hypervisor's features (version 2).
    FeatureRequest,
    /// A bitmap of 52 bits with the hypervisor's features (version 2).
    FeatureResponse(u64),
    /// Asks to end the guest, for a reason of a set of reasons.
    ///
    /// In set 0, code 0 is the general request, and code 1 says that the guest can't use any of the
    /// hypervisor's versions.
    Terminate { set: u8, code: u8 },
}

/// Why a word is no message.
#[derive(Clone, Copy, Debug, PartialEq, Eq)]
pub enum BadMsr {
    /// No message has these bits 11:0.
    UnknownInfo(u16),
    /// These reserved bits are set, in their places.
    ReservedSet(u64),
}
