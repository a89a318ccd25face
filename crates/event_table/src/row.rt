// The event table (AMD 56421, section 4, the state of each non-automatic exit).
ghost use Rattle.std.specs.Prelude.{◌≡◌, []};
ghost use Rattle.x86_base.specs.Widths.{bits_of};
ghost use Rattle.exit_info.specs.IoInfo.{info_word};
ghost use Rattle.event_table.specs.Events.{vc_code as code_of_vc};
ghost use Rattle.event_table.specs.Lawful.{IsKind, IsLawfulAccess, IsOfRegisters};
ghost use Rattle.event_table.specs.Rows as rows;
ghost use Rattle.event_table.specs.declared.event.Event.TheVariants.{One};

use crate::access::Access;
use crate::block::Block;
use crate::event::Event;
use exit_info::{ExitCode, IoInfo};
use x86_base::Width;

/// What kind of event is asked. Port I/O has its port and its size in the exit info, and string I/O also
/// REP; the count of a block's elements is SW_EXITINFO2.
#[derive(Clone, Copy, Debug, PartialEq, Eq)]
pub enum Kind {
    Out {
        port: u16,
        size: u8,
    },
    In {
        port: u16,
        size: u8,
    },
    /// A block of OUTS.
    Outs {
        port: u16,
        size: u8,
        rep: bool,
        count: u64,
    },
    /// A block of INS.
    Ins {
        port: u16,
        size: u8,
        rep: bool,
        count: u64,
    },
    Cpuid,
    Rdmsr,
    Wrmsr,
    Rdtsc,
    Rdtscp,
    Rdpmc,
    Wbinvd,
    Vmmcall,
    /// A move from the page of devices: its address is SW_EXITINFO1, and its length in bytes SW_EXITINFO2.
    MmioRead {
        at: u64,
        len: u64,
    },
    /// A move to the page of devices, with its address and length there too.
    MmioWrite {
        at: u64,
        len: u64,
    },
}

/// Which words are shown beside the exit code and infos: CPL (word 25), RAX (63), RCX (97), RDX (98),
/// and XCR0 (125) where EAX is 0xD.
#[derive(Clone, Copy, Debug, PartialEq, Eq)]
pub struct Shows {
    pub cpl: bool,
    pub a: bool,
    pub c: bool,
    pub d: bool,
    pub xcr: bool,
}

/// Which registers a reply has results for: RAX (word 63), RCX (97), RDX (98) and RBX (99).
#[derive(Clone, Copy, Debug, PartialEq, Eq)]
pub struct Results {
    pub a: bool,
    pub c: bool,
    pub d: bool,
    pub b: bool,
}

/// A row of the table: the exit code, SW_EXITINFO1, and SW_EXITINFO2, which is a count or a length; whether
/// SW_SCRATCH names the shared buffer; what is shown and what comes back, and the width of the results.
#[derive(Clone, Copy, Debug, PartialEq, Eq)]
pub struct Row {
    pub code: u64,
    pub info: u64,
    pub count: u64,
    pub scratch: bool,
    pub shows: Shows,
    pub results: Results,
    pub width: Width,
}

impl Row {
    /// Whether XCR0 is shown beside this RAX: with the leaf of the extended state.
    pub fn shows_xcr0(&self, a: u64) -> bool
        ensures value { result ≡ rows.shows_xcr0 self.now a }
    {
        self.shows.a && self.shows.xcr && a & 0xFFFF_FFFF == 0xD
    }
}

/// The registers that an event shows.
#[derive(Clone, Copy, Debug, PartialEq, Eq)]
pub struct Registers {
    pub a: u64,
    pub c: u64,
    pub d: u64,
}

/// The row of a kind by columns, where 1 stands for a word that is shown or comes back; first the kinds
/// that have their data in the shared buffer.
macro_rules! rows {
    ($kind:expr; {$($buffered:pat => $buffered_code:ident, $buffered_info:expr, $count:expr;)*} $($is:pat =>
        $cpl:literal $a:literal $c:literal $d:literal $xcr:literal,
        $ra:literal $rc:literal $rd:literal $rb:literal,
        $code:ident, $width:expr, $info:expr;)*) => {
        match $kind {
            $($buffered => buffer_row(ExitCode::$buffered_code, $buffered_info, $count),)*
            $($is => Row {
                code: ExitCode::$code.write(),
                info: $info,
                count: 0,
                scratch: false,
                shows: Shows {
                    cpl: $cpl == 1,
                    a: $a == 1,
                    c: $c == 1,
                    d: $d == 1,
                    xcr: $xcr == 1,
                },
                results: Results {
                    a: $ra == 1,
                    c: $rc == 1,
                    d: $rd == 1,
                    b: $rb == 1,
                },
                width: $width,
            },)*
        }
    };
}

/// The bytes of port I/O as a width: 1, 2 and 4, and 4 for any other number.
fn io_width(size: u8) -> Width
    ensures value { result ≡ rows.io_width size }
{
    match size {
        1 => Width::B8,
        2 => Width::B16,
        _ => Width::B32,
    }
}

/// The bits of port I/O: 8 and 16 for 1 and 2 bytes, and 32 for any other number.
fn io_bits(size: u8) -> u8
    ensures value { result ≡ bits_of (rows.io_width size) }
{
    match size {
        1 => 8,
        2 => 16,
        _ => 32,
    }
}

/// SW_EXITINFO1 of IN or OUT: one access at a port, and addresses of 64 bits (APM volume 2, section
/// 15.10.2).
fn io_info(port: u16, size: u8, input: bool) -> u64
    ensures value { result ≡ info_word (rows.io_of port size input) }
{
    let info = IoInfo {
        port,
        input,
        string: false,
        rep: false,
        size: io_bits(size),
        address: 64,
        segment: 0,
    };
    info.write()
}

/// SW_EXITINFO1 of INS or OUTS: string I/O, with REP or without, in the segment ES or DS (APM volume 2,
/// section 15.10.2).
#[inline(never)]
fn string_io_info(port: u16, size: u8, rep: bool, input: bool) -> u64
    ensures value { result ≡ info_word (rows.string_io_of port size rep input) }
{
    let info = IoInfo {
        port,
        input,
        string: true,
        rep,
        size: io_bits(size),
        address: 64,
        segment: if input { 0 } else { 3 },
    };
    info.write()
}

/// The row of an event with its data in the shared buffer.
#[inline(always)]
fn buffer_row(code: ExitCode, info: u64, count: u64) -> Row
    ensures value { result ≡ rows.buffer_row code info count }
{
    Row {
        code: code.write(),
        info,
        count,
        scratch: true,
        shows: Shows {
            cpl: false,
            a: false,
            c: false,
            d: false,
            xcr: false,
        },
        results: Results {
            a: false,
            c: false,
            d: false,
            b: false,
        },
        width: Width::B64,
    }
}

/// The row of a kind of event.
#[inline(always)]
pub fn row_of(kind: &Kind) -> Row
    ensures value { result ≡ rows.event_row kind.now }
{
    rows!(*kind;
        {
            // in the shared buffer                  code       SW_EXITINFO1                            SW_EXITINFO2
            Kind::Outs { port, size, rep, count } => Io,        string_io_info(port, size, rep, false), count;
            Kind::Ins { port, size, rep, count }  => Io,        string_io_info(port, size, rep, true),  count;
            Kind::MmioRead { at, len }            => MmioRead,  at,                                     len;
            Kind::MmioWrite { at, len }           => MmioWrite, at,                                     len;
        }
        //                          shown to the host    coming back      code     width           SW_EXITINFO1
        //                          CPL RAX RCX RDX XCR0 RAX RCX RDX RBX
        Kind::Out { port, size } => 0   1   0   0   0,   0   0   0   0,   Io,      io_width(size), io_info(port, size, false);
        Kind::In { port, size }  => 0   0   0   0   0,   1   0   0   0,   Io,      io_width(size), io_info(port, size, true);
        Kind::Cpuid              => 0   1   1   0   1,   1   1   1   1,   Cpuid,   Width::B32,     0;
        Kind::Rdmsr              => 0   0   1   0   0,   1   0   1   0,   Msr,     Width::B32,     0;
        Kind::Wrmsr              => 0   1   1   1   0,   0   0   0   0,   Msr,     Width::B32,     1;
        Kind::Rdtsc              => 0   0   0   0   0,   1   0   1   0,   Rdtsc,   Width::B32,     0;
        Kind::Rdtscp             => 0   0   0   0   0,   1   1   1   0,   Rdtscp,  Width::B32,     0;
        Kind::Rdpmc              => 0   0   1   0   0,   1   0   1   0,   Rdpmc,   Width::B32,     0;
        Kind::Wbinvd             => 0   0   0   0   0,   0   0   0   0,   Wbinvd,  Width::B32,     0;
        Kind::Vmmcall            => 1   1   0   0   0,   1   0   0   0,   Vmmcall, Width::B64,     0;
    )
}

/// The kind of an access.
pub fn kind_of(access: &Access) -> Kind
    ensures value { result ≡ rows.kind_of access.now }
{
    match *access {
        Access::Out { port, size, .. } => Kind::Out { port, size },
        Access::In { port, size } => Kind::In { port, size },
        Access::Cpuid { .. } => Kind::Cpuid,
        Access::Rdmsr { .. } => Kind::Rdmsr,
        Access::Wrmsr { .. } => Kind::Wrmsr,
        Access::Rdtsc => Kind::Rdtsc,
        Access::Rdtscp => Kind::Rdtscp,
        Access::Rdpmc { .. } => Kind::Rdpmc,
        Access::Wbinvd => Kind::Wbinvd,
        Access::Vmmcall { .. } => Kind::Vmmcall,
        Access::MmioRead { at, len } => Kind::MmioRead {
            at,
            len: u64::from(len),
        },
        Access::MmioWrite { at, len, .. } => Kind::MmioWrite {
            at,
            len: u64::from(len),
        },
    }
}

/// The kind of a block.
pub fn kind_of_block(block: &Block) -> Kind
    ensures value { result ≡ rows.kind_of_block block.now }
{
    let Block {
        port,
        size,
        rep,
        ..
    } = *block;
    let count = u64::from(block.count);
    if block.input {
        Kind::Ins {
            port,
            size,
            rep,
            count,
        }
    } else {
        Kind::Outs {
            port,
            size,
            rep,
            count,
        }
    }
}

/// The kind of an event.
pub fn kind_of_event(event: &Event) -> Kind
    ensures value { result ≡ rows.kind_of_event event.now }
{
    match event {
        Event::One(access) => kind_of(access),
        Event::Many(block) => kind_of_block(block),
    }
}

/// The code with which #VC is raised for an event: that of its intercept, which the row has too, and for
/// MMIO that of a nested page fault (APM volume 2, appendix C).
pub fn vc_code(event: &Event) -> u64
    ensures value { result ≡ code_of_vc event.now }
{
    match event {
        Event::One(Access::MmioRead { .. } | Access::MmioWrite { .. }) => 0x400,
        _ => row_of(&kind_of_event(event)).code,
    }
}

/// How many bytes come back in the shared buffer.
pub fn bytes_back(kind: &Kind) -> u16
    requires kind { IsKind kind.now }
    ensures value { result ≡ rows.bytes_back kind.now }
{
    match *kind {
        Kind::Ins { size, count, .. } => count as u16 * u16::from(size),
        Kind::MmioRead { len, .. } => len as u16,
        _ => 0,
    }
}

/// The registers that an access shows; one that it doesn't show is 0.
pub fn registers_of(access: &Access) -> Registers
    ensures value { result ≡ rows.registers_of access.now }
{
    let (a, c, d) = match *access {
        Access::Out { value, .. } => (u64::from(value), 0, 0),
        Access::Cpuid { leaf, sub } => (u64::from(leaf), u64::from(sub), 0),
        Access::Rdmsr { msr } => (0, u64::from(msr), 0),
        Access::Wrmsr { msr, low, high } => (u64::from(low), u64::from(msr), u64::from(high)),
        Access::Rdpmc { index } => (0, u64::from(index), 0),
        Access::Vmmcall { rax } => (rax, 0, 0),
        Access::In { .. } | Access::Rdtsc | Access::Rdtscp | Access::Wbinvd => (0, 0, 0),
        Access::MmioRead { .. } | Access::MmioWrite { .. } => (0, 0, 0),
    };
    Registers { a, c, d }
}

/// The access of a kind that has its data in registers, and of these. What a guest shows of a register,
/// and what of a word counts for a host, is cut to its size here and nowhere else.
pub fn access_of(kind: &Kind, registers: &Registers) -> Access
    requires registers { IsOfRegisters kind.now }
    ensures value { One result ≡ rows.event_by kind.now registers.now [] }
    ensures lawful { IsKind kind.now → IsLawfulAccess result }
{
    let Registers { a, c, d } = *registers;
    match *kind {
        Kind::Out { port, size } => Access::Out {
            port,
            size,
            value: (match size {
                1 => a % 0x100,
                2 => a % 0x1_0000,
                _ => a % 0x1_0000_0000,
            }) as u32,
        },
        Kind::In { port, size } => Access::In { port, size },
        Kind::Cpuid => Access::Cpuid {
            leaf: (a % 0x1_0000_0000) as u32,
            sub: (c % 0x1_0000_0000) as u32,
        },
        Kind::Rdmsr => Access::Rdmsr {
            msr: (c % 0x1_0000_0000) as u32,
        },
        Kind::Wrmsr => Access::Wrmsr {
            msr: (c % 0x1_0000_0000) as u32,
            low: (a % 0x1_0000_0000) as u32,
            high: (d % 0x1_0000_0000) as u32,
        },
        Kind::Rdtsc => Access::Rdtsc,
        Kind::Rdtscp => Access::Rdtscp,
        Kind::Rdpmc => Access::Rdpmc {
            index: (c % 0x1_0000_0000) as u32,
        },
        Kind::Wbinvd => Access::Wbinvd,
        Kind::Vmmcall => Access::Vmmcall { rax: a },
        Kind::Outs { .. } | Kind::Ins { .. } => unreachable!(),
        Kind::MmioRead { .. } | Kind::MmioWrite { .. } => unreachable!(),
    }
}
