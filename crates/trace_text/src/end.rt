ghost use Rattle.std.specs.Prelude.{◌≡◌, ◌+◌, ◌≤◌, ◌++◌, length};
ghost use Rattle.trace_text.specs.End.{end_line, end_text, reason_text};

use event_table::{End, Reason};
use show_text::Text;

/// Appends why a guest ended its communication.
fn push_reason(text: &mut Text, reason: &Reason)
    requires room { length text.old + 100 ≤ 4096 }
    ensures text { text.new ≡ text.old ++ reason_text reason.now }
    ensures size { length text.new ≤ length text.old + 100 }
{
    match *reason {
        Reason::NoProtocol(word) => text.push_hex("no-protocol ", word),
        Reason::BadStatus(word) => text.push_hex("bad-status ", word),
        Reason::BadException(word) => text.push_hex("bad-exception ", word),
        Reason::MissingResult(low, high) => {
            text.push_hex("missing-result ", low);
            text.push_hex(" ", high);
        }
    }
}

/// Appends how a vCPU ended.
pub fn push_end(text: &mut Text, end: &End)
    requires room { length text.old + 200 ≤ 4096 }
    ensures text { text.new ≡ text.old ++ end_text end.now }
    ensures size { length text.new ≤ length text.old + 200 }
{
    match end {
        End::Halted => text.push_str("halted"),
        End::Spent => text.push_str("spent"),
        End::Undecoded => text.push_str("undecoded"),
        End::BadAddress(at) => text.push_hex("bad-address ", *at),
        End::Fault(vector) => text.push_number("fault ", u64::from(*vector)),
        End::Terminated(reason) => {
            text.push_str("terminated ");
            push_reason(text, reason);
        }
    }
}

/// The line of a vCPU's end, with the steps that it counted.
pub fn end_line_of(end: &End, steps: u64) -> Text
    ensures text { result ≡ end_line end.now steps }
{
    let mut text = Text::new();
    text.push_str("end ");
    push_end(&mut text, end);
    text.push_number(" steps ", steps);
    text.push_str("\n");
    text
}
