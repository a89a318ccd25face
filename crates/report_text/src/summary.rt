// The summary of a run of the image that a number makes.
ghost use Rattle.std.specs.Prelude.{◌≡◌, ◌≤◌, ◌^◌, None, IfSome, length, sum};
ghost use Rattle.report_text.specs.Summary.{summary_text as text_of};

use show_text::Text;

/// The sum of some bytes; none where it is 2^64 or more.
fn sum_of(bytes: &[u8]) -> Option<u64>
    ensures sum { IfSome result (λ total. total ≡ sum bytes.now) }
    ensures great { result ≡ None → 2 ^ 64 ≤ sum bytes.now }
{
    let mut total: u64 = 0;
    for byte in bytes {
        total = total.checked_add(u64::from(*byte))?;
    }
    Some(total)
}

/// The summary of a run of the image that a number makes, by the length of the image's code, the number of
/// turns and the console's bytes: `make N code L turns T console C sum S`, C the number of the bytes and S
/// their sum. There is none where the sum is 2^64 or more, for which no memory has bytes enough.
pub fn summary_text(number: u16, code_len: u32, turns: usize, console: &[u8]) -> Option<Text>
    ensures text { IfSome result (λ text. text ≡ text_of number code_len turns console.now) }
    ensures great { result ≡ None → 2 ^ 64 ≤ sum console.now }
{
    let sum = sum_of(console)?;
    let mut text = Text::new();
    text.push_number("make ", u64::from(number));
    text.push_number(" code ", u64::from(code_len));
    text.push_number(" turns ", turns as u64);
    text.push_number(" console ", console.len() as u64);
    text.push_number(" sum ", sum);
    text.push_str("\n");
    Some(text)
}
