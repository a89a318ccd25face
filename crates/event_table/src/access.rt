/// One access that a guest asks of the devices. It is lawful where an I/O size is 1, 2 or 4 bytes, an
/// MMIO length is 1, 2, 4 or 8 bytes that all lie in the page of devices, 0xFEB00000 to 0xFEB00FFF, and
/// a value that is written fits its size or length.
#[derive(Clone, Copy, Debug, PartialEq, Eq)]
pub enum Access {
    /// OUT: a value of `size` bytes goes to a port (APM volume 3, OUT).
    Out { port: u16, size: u8, value: u32 },
    /// IN: a value of `size` bytes comes from a port (APM volume 3, IN).
    In { port: u16, size: u8 },
    /// CPUID: EAX and ECX (APM volume 3, CPUID).
    Cpuid { leaf: u32, sub: u32 },
    /// RDMSR: ECX (APM volume 3, RDMSR).
    Rdmsr { msr: u32 },
    /// WRMSR: ECX, EAX and EDX (APM volume 3, WRMSR).
    Wrmsr { msr: u32, low: u32, high: u32 },
    /// RDTSC (APM volume 3, RDTSC).
    Rdtsc,
    /// RDTSCP (APM volume 3, RDTSCP).
    Rdtscp,
    /// RDPMC: ECX (APM volume 3, RDPMC).
    Rdpmc { index: u32 },
    /// WBINVD (APM volume 3, WBINVD).
    Wbinvd,
    /// VMMCALL: RAX (APM volume 3, VMMCALL).
    Vmmcall { rax: u64 },
    /// A move from the page of devices, of `len` bytes (AMD 56421, section 4, MMIO Access).
    MmioRead { at: u64, len: u8 },
    /// A move of the low `len` bytes of a value to the page of devices (AMD 56421, section 4, MMIO Access).
    MmioWrite { at: u64, len: u8, value: u64 },
}

/// The results of an access for RAX, RCX, RDX and RBX; one without a register to go to is 0. What an MMIO
/// read gives is `a`, whatever its destination is.
#[derive(Clone, Copy, Debug, PartialEq, Eq)]
pub struct Values {
    pub a: u64,
    pub c: u64,
    pub d: u64,
    pub b: u64,
}
