ghost use Rattle.std.specs.Prelude.{◌≡◌, ◌+◌, ◌≤◌, ◌++◌, length, IfOk};
ghost use Rattle.trace_text.specs.Trace.{item_line, trace_text as text_of, word_text};

use crate::end::end_line_of;
use event_table::End;
use page_words::{Item, Word};
use show_text::Text;
use std::alloc::{AllocError as OutOfMemory, Global};

/// Appends a word of the page by its number, and its value.
fn push_word(text: &mut Text, label: &str, word: Word, value: u64)
    requires room { length text.old + length label.now + 100 ≤ 4096 }
    ensures text { text.new ≡ text.old ++ word_text label.now word value }
    ensures size { length text.new ≤ length text.old + length label.now + 100 }
{
    text.push_str(label);
    text.push_three_digits(word.number());
    text.push_hex(" ", value);
}

/// The line of an item.
fn line_of(item: &Item) -> Text
    ensures text { result ≡ item_line item.now }
{
    let mut text = Text::new();
    match *item {
        Item::Store(word, value) => push_word(&mut text, "store ", word, value),
        Item::Exit(msr) => text.push_hex("exit ", msr),
        Item::Load(word, value) => push_word(&mut text, "load ", word, value),
        Item::Msr(value) => text.push_hex("msr ", value),
    }
    text.push_str("\n");
    text
}

/// The text of a run: a line for each item, in order, and the line of the vCPU's end with the steps that it
/// counted.
pub fn trace_text(
    alloc: Global,
    items: &[Item],
    end: &End,
    steps: u64,
) -> Result<Vec<u8>, OutOfMemory>
    ensures text { IfOk result (λ text. text.items ≡ text_of items.now end.now steps) }
{
    let mut text = Vec::new(alloc);
    for item in items {
        text.extend_from_slice(line_of(item).as_bytes())?;
    }
    text.extend_from_slice(end_line_of(end, steps).as_bytes())?;
    Ok(text)
}
