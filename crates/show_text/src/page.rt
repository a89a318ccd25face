ghost use Rattle.std.specs.Prelude.{◌≡◌, ◌+◌, ◌*◌, ◌<◌, ◌≤◌, ◌++◌, length, slice_index};
ghost use Rattle.show_text.specs.Page.{page_text as text_of, field_in, value_in, word_name, word_line, valid_line, bitmap_in, protocol_lines};

use crate::Text;
use ghcb_layout::{Bitmap, Field, field_at, name, protocol_of};
use page_words::{Word, Words};

/// The words of a page whose bits are set in its valid bitmap, a line each from word 0 on, and then the
/// protocol version and the usage.
pub fn page_text(page: &Words) -> Text
    ensures text { result ≡ text_of page.now }
{
    let mut text = Text::new();
    let bitmap = bitmap_of(page);
    for number in 0..128 {
        push_valid(&mut text, page, &bitmap, number);
    }
    push_protocol(&mut text, page.word(Word::LAST));
    text
}

/// The valid bitmap.
fn bitmap_of(page: &Words) -> Bitmap
    ensures { result ≡ bitmap_in page.now }
{
    Bitmap::from_words(page.word(Word::BITMAP_LOW), page.word(Word::BITMAP_HIGH))
}

/// A word of the page.
fn word_of(page: &Words, number: u16) -> u64
    requires { number < 512 }
    ensures { result ≡ slice_index page.now.words number }
{
    page.word(Word::new(number).unwrap())
}

/// Appends the line of a word if its bit is set.
fn push_valid(text: &mut Text, page: &Words, bitmap: &Bitmap, number: u8)
    requires bitmap { bitmap.now ≡ bitmap_in page.now }
    requires in_bitmap { number < 128 }
    requires room { length text.old + 27 ≤ 4096 }
    ensures text { text.new ≡ text.old ++ valid_line page.now number }
    ensures size { length text.new ≤ length text.old + 27 }
{
    if bitmap.has(number) {
        push_word(text, number, word_of(page, number.into()));
    }
}

/// Appends the line of a word.
fn push_word(text: &mut Text, number: u8, word: u64)
    requires in_bitmap { number < 128 }
    requires room { length text.old + 27 ≤ 4096 }
    ensures text { text.new ≡ text.old ++ word_line number word }
    ensures size { length text.new ≤ length text.old + 27 }
{
    let field = field_of(number);
    push_name(text, number, field);
    text.push_hex(" ", value_of(word, field));
    text.push_str("\n");
}

/// The field that a word holds.
fn field_of(number: u8) -> Option<Field>
    requires { number < 128 }
    ensures { result ≡ field_in number }
{
    let start = 8 * u16::from(number);
    for offset in start..start + 8 {
        if let Ok(field) = field_at(offset) {
            return Some(field);
        }
    }
    None
}

/// What is shown of a word: of the privilege level its byte alone.
fn value_of(word: u64, field: Option<Field>) -> u64
    ensures { result ≡ value_in word field }
{
    if let Some(Field::Cpl) = field {
        word >> 24 & 0xFF
    } else {
        word
    }
}

/// Appends the field's name, or the word's number where it holds no field.
fn push_name(text: &mut Text, number: u8, field: Option<Field>)
    requires { length text.old + 9 ≤ 4096 }
    ensures text { text.new ≡ text.old ++ word_name number field }
    ensures size { length text.new ≤ length text.old + 9 }
{
    if let Some(field) = field {
        text.push_str(name(field));
    } else {
        text.push_str("word ");
        text.push_three_digits(number.into());
    }
}

/// Appends the lines of the protocol version and the usage in word 511.
fn push_protocol(text: &mut Text, word: u64)
    requires { length text.old + 100 ≤ 4096 }
    ensures { text.new ≡ text.old ++ protocol_lines word }
{
    let (version, usage) = protocol_of(word);
    text.push_number("version ", version.into());
    text.push_str("\n");
    text.push_number("usage ", usage.into());
    text.push_str("\n");
}
