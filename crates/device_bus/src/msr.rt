// The MSRs.
ghost use Rattle.std.specs.Prelude.{◌≡◌, ◌<◌, ◌≤◌};
ghost use Rattle.image_file.specs.Format.{most_vcpus};
ghost use Rattle.device_bus.specs.Devices as msrs;

/// The MSR of the time-stamp counter (APM volume 2, appendix A).
pub const TSC: u32 = 0x10;

/// The MSR TSC_AUX, which RDTSCP reads (APM volume 2, appendix A).
pub const TSC_AUX: u32 = 0xC000_0103;

/// The MSR of the first of a vCPU's four words.
const SCRATCH: u32 = 0x4000_1000;

/// Whether this is the MSR of one of a vCPU's four words.
pub fn is_scratch_msr(msr: u32) -> bool
    ensures value { result ≡ msrs.is_scratch_msr msr }
{
    SCRATCH <= msr && msr < SCRATCH + 4
}

/// The place of the word of a vCPU's MSR among those of all vCPUs.
pub fn scratch_place(vcpu: u16, msr: u32) -> usize
    requires few { vcpu < most_vcpus }
    requires from { 0x40001000 ≤ msr }
    ensures value { result ≡ msrs.scratch_place vcpu msr }
{
    4 * usize::from(vcpu) + (msr - SCRATCH) as usize
}

/// The time-stamp counter: it counts a thousand for each access.
pub fn clock(time: u64) -> u64
    ensures value { result ≡ msrs.clock time }
{
    time.wrapping_mul(1000)
}
