ghost use Rattle.std.specs.Prelude.{◌≡◌};
ghost use Rattle.ghcb_layout.specs.Address as address;

/// The address of a vCPU's page: they stand one after another from 0x8000_0000.
pub fn ghcb_of(vcpu: u16) -> u64
    ensures value { result ≡ address.ghcb_of vcpu }
{
    0x8000_0000 + 0x1000 * u64::from(vcpu)
}
