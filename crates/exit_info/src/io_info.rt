ghost use Rattle.std.specs.Prelude.{◌≡◌, ◌↔◌};
ghost use Rattle.exit_info.specs.IoInfo.{IsLawfulInfo, IsInfoWord, info_word, has_reserved as has_reserved_bits, size_in as size_in_word, address_size_in as address_in_word, info_of};

use word_bits::number_in_bits;

/// One access to an I/O port, or one block of accesses, as SW_EXITINFO1 describes it (AMD 56421,
/// IOIO_PROT; APM volume 2, 15.10.2).
#[derive(Clone, Copy, Debug, PartialEq, Eq)]
pub struct IoInfo {
    /// The number of the port.
    pub port: u16,
    /// Whether the guest reads the port: IN or INS.
    pub input: bool,
    /// Whether the data goes to or comes from memory: INS or OUTS.
    pub string: bool,
    /// Whether the instruction has a REP prefix.
    pub rep: bool,
    /// The bits of one access: 8, 16 or 32.
    pub size: u8,
    /// The bits of an address: 16, 32 or 64.
    pub address: u8,
    /// The segment register of the memory, 0 to 7: 0 is ES, and 3 is DS.
    pub segment: u8,
}

/// Why a word describes no access. Each holds the word.
#[derive(Clone, Copy, Debug, PartialEq, Eq)]
pub enum BadInfo {
    /// Bit 1, a bit of 15:13 or a bit of 63:32 is set.
    Reserved(u64),
    /// Not exactly one of bits 6:4 is set.
    BadSize(u64),
    /// Not exactly one of bits 9:7 is set.
    BadAddress(u64),
}

impl IoInfo {
    /// Reads a word: the reserved bits are tested first, then the size, then the address size.
    pub fn read(word: u64) -> Result<IoInfo, BadInfo>
        ensures value { result ≡ info_of word }
        ensures ok { (i : IoInfo) → (result ≡ Ok i) ↔ IsInfoWord i word }
    {
        if has_reserved(word) {
            return Err(BadInfo::Reserved(word));
        }
        let size = size_in(word).ok_or(BadInfo::BadSize(word))?;
        let address = address_in(word).ok_or(BadInfo::BadAddress(word))?;
        Ok(IoInfo {
            port: number_in_bits(word, 31, 16) as u16,
            input: number_in_bits(word, 0, 0) != 0,
            string: number_in_bits(word, 2, 2) != 0,
            rep: number_in_bits(word, 3, 3) != 0,
            size,
            address,
            segment: number_in_bits(word, 12, 10) as u8,
        })
    }

    /// The word of a lawful access.
    pub fn write(&self) -> u64
        requires { IsLawfulInfo self.now }
        ensures word { result ≡ info_word self.now }
        ensures reads_back { info_of result ≡ Ok self.now }
    {
        u64::from(self.port) << 16
            | u64::from(self.segment) << 10
            | u64::from(self.address / 16) << 7
            | u64::from(self.size / 8) << 4
            | u64::from(self.rep) << 3
            | u64::from(self.string) << 2
            | u64::from(self.input)
    }
}

/// Whether bit 1, a bit of 15:13 or a bit of 63:32 is set.
fn has_reserved(word: u64) -> bool
    ensures { result ≡ has_reserved_bits word }
{
    number_in_bits(word, 1, 1) != 0
        || number_in_bits(word, 15, 13) != 0
        || number_in_bits(word, 63, 32) != 0
}

/// The size that bits 6:4 stand for, if exactly one of them is set.
fn size_in(word: u64) -> Option<u8>
    ensures { result ≡ size_in_word word }
{
    match number_in_bits(word, 6, 4) {
        1 => Some(8),
        2 => Some(16),
        4 => Some(32),
        _ => None,
    }
}

/// The address size that bits 9:7 stand for, if exactly one of them is set.
fn address_in(word: u64) -> Option<u8>
    ensures { result ≡ address_in_word word }
{
    match number_in_bits(word, 9, 7) {
        1 => Some(16),
        2 => Some(32),
        4 => Some(64),
        _ => None,
    }
}
