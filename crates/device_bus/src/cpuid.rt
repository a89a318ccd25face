// What CPUID says.
ghost use Rattle.std.specs.Prelude.{◌≡◌, ◌<◌};
ghost use Rattle.device_bus.specs.Devices.{cpuid as cpuid_of, register_of};

use event_table::Values;

/// What CPUID says to a vCPU (APM volume 3, appendix E): the largest leaf and the vendor
/// "AuthenticAMD"; the vCPU's number as its initial APIC ID, and that there is a time-stamp counter;
/// that XSAVE keeps x87 alone, in 576 bytes.
pub fn cpuid(vcpu: u16, leaf: u32, sub: u32) -> Values
    ensures value { result ≡ cpuid_of vcpu leaf sub }
{
    let (a, b, d, c) = match (leaf, sub) {
        (0, _) => (0xD, 0x6874_7541, 0x6974_6E65, 0x444D_4163),
        (1, _) => (0, u64::from(vcpu) * 0x100_0000, 0x10, 0),
        (0xD, 0) => (1, 576, 0, 576),
        _ => (0, 0, 0, 0),
    };
    Values { a, b, c, d }
}

/// What CPUID says in one register, with the sub-leaf 0: EAX is register 0, EBX 1, ECX 2 and EDX 3, as in
/// the MSR protocol (AMD 56421, "GHCB MSR Protocol").
pub fn cpuid_register(vcpu: u16, function: u32, register: u8) -> u32
    requires fits { vcpu < 256 }
    requires register { register < 4 }
    ensures value { result ≡ register_of (cpuid_of vcpu function 0) register }
{
    let values = cpuid(vcpu, function, 0);
    let value = match register {
        0 => values.a,
        1 => values.b,
        2 => values.c,
        _ => values.d,
    };
    value as u32
}
