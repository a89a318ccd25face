// The bytes of an event in the shared buffer (AMD 56421, "GHCB Layout").
ghost use Rattle.std.specs.Prelude.{◌≡◌, ◌<◌, ◌≤◌, ◌^◌, All, length, take};
ghost use Rattle.host_events.specs.Reading.{buffer_in, word_in};

use event_table::Bytes;
use page_words::{Word, Words};
use string_io::push_number;

/// The first bytes of the buffer.
pub fn buffer_bytes(page: &Words, len: u16) -> Bytes
    requires few { len ≤ 2032 }
    ensures value { result ≡ take len (buffer_in (word_in page.now)) }
    ensures full { length result ≡ len }
    ensures fits { All (λ byte. byte < 2 ^ 8) result }
{
    let mut bytes = Bytes::new();
    let mut left = len;
    for number in 256..510u16 {
        let here = left.min(8);
        push_number(
            &mut bytes,
            here as u8,
            page.word(Word::new(number).unwrap()),
        );
        left -= here;
    }
    bytes
}
