ghost use Rattle.std.specs.Prelude.{◌≡◌};
ghost use Rattle.ghcb_layout.specs.Protocol.{version_in, usage_in, word_with};

/// The protocol version and the usage in word 511, whose bits 15:0 are ignored.
pub fn protocol_of(word: u64) -> (u16, u32)
    ensures value { result ≡ (version_in word, usage_in word) }
{
    ((word >> 16 & 0xFFFF) as u16, (word >> 32) as u32)
}

/// Word 511 with a protocol version and a usage, and bits 15:0 clear.
pub fn protocol_word(version: u16, usage: u32) -> u64
    ensures word { result ≡ word_with version usage }
    ensures version { version_in result ≡ version }
    ensures usage { usage_in result ≡ usage }
{
    u64::from(usage) << 32 | u64::from(version) << 16
}
