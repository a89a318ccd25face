// The text of a verdict.
ghost use Rattle.std.specs.Prelude.{◌≡◌, ◌+◌, ◌≤◌, ◌++◌, length};
ghost use Rattle.verdict_text.specs.Verdict.{use_text, verdict_text as text_of};

use secret_labels::{Verdict, What};
use show_text::Text;
use trace_text::push_end;

/// Appends what a label was used for.
fn push_use(text: &mut Text, what: What)
    requires room { length text.old + 100 ≤ 4096 }
    ensures text { text.new ≡ text.old ++ use_text what }
{
    match what {
        What::Branch => text.push_str("branch"),
        What::Address => text.push_str("address"),
        What::Named => text.push_str("named"),
    }
}

/// The text of a verdict: `clean`, and then a line `end END steps S` as that of a trace; or the line
/// `flows STEP branch`, `flows STEP address` or `flows STEP named`, STEP the steps before the first use.
pub fn verdict_text(verdict: &Verdict) -> Text
    ensures text { result ≡ text_of verdict.now }
{
    let mut text = Text::new();
    match verdict {
        Verdict::Clean { end, steps } => {
            text.push_str("clean\nend ");
            push_end(&mut text, end);
            text.push_number(" steps ", *steps);
        }
        Verdict::Flows { step, what } => {
            text.push_number("flows ", *step);
            text.push_str(" ");
            push_use(&mut text, *what);
        }
    }
    text.push_str("\n");
    text
}
