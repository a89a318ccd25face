ghost use Rattle.std.specs.Prelude.{◌≡◌, ◌+◌, ◌≤◌, ◌++◌, length};
ghost use Rattle.show_text.specs.Info.{info_text as text_of, kind_text, sizes_text, bad_info_text};

use crate::Text;
use exit_info::{BadInfo, IoInfo};

/// The line that tells which access to a port a word describes.
pub fn info_text(word: u64) -> Text
    ensures text { result ≡ text_of word }
{
    let mut text = Text::new();
    match IoInfo::read(word) {
        Ok(info) => {
            push_kind(&mut text, &info);
            push_sizes(&mut text, &info);
        }
        Err(bad) => push_bad_info(&mut text, bad),
    }
    text.push_str("\n");
    text
}

/// Appends the direction, and whether the access is a string or repeated.
fn push_kind(text: &mut Text, info: &IoInfo)
    requires { length text.old + 20 ≤ 4096 }
    ensures text { text.new ≡ text.old ++ kind_text info.now }
    ensures size { length text.new ≤ length text.old + 20 }
{
    text.push_str(if info.input { "in" } else { "out" });
    text.push_str(if info.string { " string" } else { "" });
    text.push_str(if info.rep { " rep" } else { "" });
}

/// Appends the sizes, the segment and the port.
fn push_sizes(text: &mut Text, info: &IoInfo)
    requires { length text.old + 200 ≤ 4096 }
    ensures text { text.new ≡ text.old ++ sizes_text info.now }
    ensures size { length text.new ≤ length text.old + 200 }
{
    text.push_number(" size ", info.size.into());
    text.push_number(" address ", info.address.into());
    text.push_number(" segment ", info.segment.into());
    text.push_number(" port ", info.port.into());
}

/// Appends why a word describes no access.
fn push_bad_info(text: &mut Text, bad: BadInfo)
    requires { length text.old + 200 ≤ 4096 }
    ensures text { text.new ≡ text.old ++ bad_info_text bad }
    ensures size { length text.new ≤ length text.old + 200 }
{
    match bad {
        BadInfo::Reserved(word) => text.push_hex("reserved ", word),
        BadInfo::BadSize(word) => text.push_hex("bad size ", word),
        BadInfo::BadAddress(word) => text.push_hex("bad address ", word),
    }
}
