ghost use Rattle.std.specs.Prelude.{◌≡◌, length};
ghost use Rattle.ghcb_layout.specs.Bytes.{page_of, bytes_of};

use byteorder::{ByteOrder, LittleEndian};
use page_words::{Page, Word, Words};

/// The page of 4,096 bytes, each word with its lowest byte first, and with MSR word 0.
pub fn page_from_bytes(bytes: &[u8]) -> Words
    requires { length bytes.now ≡ 4096 }
    ensures page { result ≡ page_of bytes.now }
    ensures bytes { bytes_of result ≡ bytes.now }
{
    let mut page = Words::new();
    for number in 0..512 {
        let at = 8 * usize::from(number);
        let word = LittleEndian::read_u64(&bytes[at..]);
        page.store(Word::new(number).unwrap(), word);
    }
    page
}

/// Writes the page's 4,096 bytes, each word with its lowest byte first.
pub fn page_to_bytes(page: &Words, into: &mut [u8])
    requires { length into.old ≡ 4096 }
    ensures bytes { into.new ≡ bytes_of page.now }
{
    for number in 0..512 {
        let at = 8 * usize::from(number);
        let word = page.word(Word::new(number).unwrap());
        LittleEndian::write_u64(&mut into[at..at + 8], word);
    }
}
