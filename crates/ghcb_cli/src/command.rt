// The words of the program.
ghost use Rattle.std.specs.Prelude.{◌≡◌, ◌≤◌, ℕ, List, true, map, nat_le, if◌then◌else◌, Some, None, IfSome, option_map};
ghost use Rattle.std.specs.Char.{is_ascii_digit};
ghost use Rattle.std.specs.List.{list_all};
ghost use Rattle.std.specs.String.{string_bytes};
ghost use Rattle.ghcb_cli.specs.Command.{value_after, decimal_of, show_of, command_of, command_word};
ghost use Rattle.ghcb_cli.specs.Task.{command_in, HasWords, IsWithin};

use page_words::Words;
use show_text::{page_from_hex, word_from_hex};

/// What the words ask for. File names and the digits of a page are read from the words themselves.
#[derive(Clone, Copy, Debug, PartialEq, Eq)]
pub enum Command {
    /// Runs an image over the host, within so many steps for each vCPU, and writes its console or its report.
    Run { steps: u64, report: bool },
    /// Runs an image with the devices alone, within so many steps for each vCPU.
    Plain { steps: u64 },
    /// Runs vCPU 0 of an image on the words of a script, within so many steps.
    Hostile { steps: u64 },
    /// Runs vCPU 0 of an image on a page that another thread changes by a seed, within so many steps.
    Live { seed: u64, steps: u64 },
    /// Runs vCPU 0 of an image with labels on the words of a script, within so many steps.
    Secret { steps: u64 },
    /// Reads a page.
    ShowPage,
    /// Reads an MSR word.
    ShowMsr(u64),
    /// Reads SW_EXITINFO1 of port I/O.
    ShowInfo(u64),
    /// Runs the image that a number makes over the host.
    Make(u16),
}

/// A command with the names that its words hold, and with the page whose digits they are.
#[derive(Drop)]
pub enum Task<'a> {
    Run {
        image: &'a str,
        input: &'a str,
        steps: u64,
        report: bool,
    },
    Plain {
        image: &'a str,
        input: &'a str,
        steps: u64,
    },
    Hostile {
        image: &'a str,
        script: &'a str,
        steps: u64,
    },
    Live {
        image: &'a str,
        seed: u64,
        steps: u64,
    },
    Secret {
        image: &'a str,
        script: &'a str,
        steps: u64,
    },
    ShowPage(Words),
    ShowMsr(u64),
    ShowInfo(u64),
    Make(u16),
}

/// The most steps that a run over the host or of the plain machine can be given.
pub const MOST_STEPS: u64 = 2_097_152;

/// The most steps that a run against a host can be given.
const MOST_HOSTILE_STEPS: u64 = 65_536;

/// The greatest number of which an image is made.
const MOST_NUMBER: u64 = 65_535;

/// Whether all bytes are digits.
fn all_digits(text: &[u8]) -> bool
    ensures { result ≡ list_all is_ascii_digit text.now }
{
    text.iter().all(|digit| digit.is_ascii_digit())
}

/// Whether a text is digits alone, and at least one.
fn are_digits(text: &[u8]) -> bool
    ensures { result ≡ Rattle.ghcb_cli.specs.Command.are_digits text.now }
{
    !text.is_empty() && all_digits(text)
}

/// Whether a zero stands before other digits.
fn has_leading_zero(text: &[u8]) -> bool
    ensures { result ≡ Rattle.ghcb_cli.specs.Command.has_leading_zero text.now }
{
    text.len() > 1 && text[0] == b'0'
}

/// The number that digits write, where it isn't above `most`.
fn value_up_to(text: &[u8], most: u64) -> Option<u64>
    requires digits { list_all is_ascii_digit text.now ≡ true }
    ensures value { result ≡ (if nat_le (value_after 0 text.now) most then Some (value_after 0 text.now) else None) }
    ensures within { IfSome result (λ n. n ≤ most) }
{
    let most = u128::from(most);
    let mut value: u128 = 0;
    for digit in text {
        if value > most {
            return None;
        }
        value = 10 * value + u128::from(*digit - b'0');
    }
    if value > most {
        None
    } else {
        Some(value as u64)
    }
}

/// The number that a text writes, where it has no leading zero and is from `least` to `most`.
pub fn decimal(text: &[u8], least: u64, most: u64) -> Option<u64>
    ensures number { result ≡ decimal_of least most text.now }
    ensures within { IfSome result (λ n. n ≤ most) }
{
    if !are_digits(text) || has_leading_zero(text) {
        return None;
    }
    match value_up_to(text, most) {
        Some(value) if value >= least => Some(value),
        _ => None,
    }
}

/// What is to be shown, by its kind and its digits.
fn show<'a>(kind: &str, digits: &str) -> Option<Task<'a>>
    ensures command { option_map command_in result ≡ show_of kind.now digits.now }
    ensures words { IfSome result (λ task. HasWords kind.now digits.now task) }
    ensures within { IfSome result IsWithin }
{
    match kind {
        "page" => match page_from_hex(digits.as_bytes()) {
            Some(page) => Some(Task::ShowPage(page)),
            None => None,
        },
        "msr" => match word_from_hex(digits.as_bytes()) {
            Some(word) => Some(Task::ShowMsr(word)),
            None => None,
        },
        "info" => match word_from_hex(digits.as_bytes()) {
            Some(word) => Some(Task::ShowInfo(word)),
            None => None,
        },
        _ => None,
    }
}

/// A run on a page that another thread changes, by its image, its seed and its steps.
fn live_by<'a>(image: &'a str, seed: &[u8], steps: &[u8]) -> Option<Task<'a>>
    ensures command { option_map command_in result ≡ Rattle.ghcb_cli.specs.Command.live_by seed.now steps.now }
    ensures words { IfSome result (λ task. HasWords image.now seed.now task) }
    ensures within { IfSome result IsWithin }
{
    let seed = decimal(seed, 0, u64::MAX)?;
    let steps = decimal(steps, 1, MOST_HOSTILE_STEPS)?;
    Some(Task::Live { image, seed, steps })
}

/// A run by its name, the name of its image, its second word, and its steps.
fn run_named<'a>(name: &str, image: &'a str, second: &'a str, steps: &[u8]) -> Option<Task<'a>>
    ensures command { option_map command_in result ≡ Rattle.ghcb_cli.specs.Command.run_named
        name.now second.now steps.now }
    ensures words { IfSome result (λ task. HasWords image.now second.now task) }
    ensures within { IfSome result IsWithin }
{
    match name {
        "run" => match decimal(steps, 1, MOST_STEPS) {
            Some(steps) => Some(Task::Run {
                image,
                input: second,
                steps,
                report: false,
            }),
            None => None,
        },
        "plain" => match decimal(steps, 1, MOST_STEPS) {
            Some(steps) => Some(Task::Plain {
                image,
                input: second,
                steps,
            }),
            None => None,
        },
        "hostile" => match decimal(steps, 1, MOST_HOSTILE_STEPS) {
            Some(steps) => Some(Task::Hostile {
                image,
                script: second,
                steps,
            }),
            None => None,
        },
        "live" => live_by(image, second.as_bytes(), steps),
        "secret" => match decimal(steps, 1, MOST_HOSTILE_STEPS) {
            Some(steps) => Some(Task::Secret {
                image,
                script: second,
                steps,
            }),
            None => None,
        },
        _ => None,
    }
}

/// A run by its four words.
fn run_by<'a>(name: &str, image: &'a str, second: &'a str, steps: &[u8]) -> Option<Task<'a>>
    ensures command { option_map command_in result ≡ Rattle.ghcb_cli.specs.Command.run_by
        name.now image.now second.now steps.now }
    ensures words { IfSome result (λ task. HasWords image.now second.now task) }
    ensures within { IfSome result IsWithin }
{
    if image.is_empty() || second.is_empty() {
        return None;
    }
    run_named(name, image, second, steps)
}

/// A reading by its three words.
fn show_by<'a>(name: &str, kind: &str, digits: &str) -> Option<Task<'a>>
    ensures command { option_map command_in result ≡ Rattle.ghcb_cli.specs.Command.show_by
        name.now kind.now digits.now }
    ensures words { IfSome result (λ task. HasWords kind.now digits.now task) }
    ensures within { IfSome result IsWithin }
{
    if name != "show" {
        return None;
    }
    show(kind, digits)
}

/// A run with a report by its five words.
fn report_by<'a>(
    name: &str,
    image: &'a str,
    input: &'a str,
    steps: &[u8],
    last: &str,
) -> Option<Task<'a>>
    ensures command { option_map command_in result ≡ Rattle.ghcb_cli.specs.Command.report_by
        name.now image.now input.now steps.now last.now }
    ensures words { IfSome result (λ task. HasWords image.now input.now task) }
    ensures within { IfSome result IsWithin }
{
    if name != "run" || last != "report" || image.is_empty() || input.is_empty() {
        return None;
    }
    match decimal(steps, 1, MOST_STEPS) {
        Some(steps) => Some(Task::Run {
            image,
            input,
            steps,
            report: true,
        }),
        None => None,
    }
}

/// A made image by its two words.
fn make_by<'a>(name: &str, number: &[u8]) -> Option<Task<'a>>
    ensures command { option_map command_in result ≡ Rattle.ghcb_cli.specs.Command.make_by name.now number.now }
    ensures words { (first second : List ℕ) → IfSome result (λ task. HasWords first second task) }
    ensures within { IfSome result IsWithin }
{
    if name != "make" {
        return None;
    }
    match decimal(number, 0, MOST_NUMBER) {
        Some(number) => Some(Task::Make(number as u16)),
        None => None,
    }
}

/// What the words of `ghcb_run` ask for; none exactly where they are none of its grammar.
pub fn task_in(words: &[String]) -> Option<Task<'_>>
    ensures command { option_map command_in result ≡ command_of (map string_bytes words.now) }
    ensures words { IfSome result (λ task. HasWords
        (command_word (map string_bytes words.now) 1) (command_word (map string_bytes words.now) 2) task) }
    ensures within { IfSome result IsWithin }
{
    match words {
        [name, image, input, steps, last] => report_by(
            name.as_str(),
            image.as_str(),
            input.as_str(),
            steps.as_bytes(),
            last.as_str(),
        ),
        [name, image, second, steps] => run_by(
            name.as_str(),
            image.as_str(),
            second.as_str(),
            steps.as_bytes(),
        ),
        [name, kind, digits] => show_by(name.as_str(), kind.as_str(), digits.as_str()),
        [name, number] => make_by(name.as_str(), number.as_bytes()),
        _ => None,
    }
}

/// The command that the words of `ghcb_run` ask for; none exactly where they are none of its grammar.
pub fn parse(words: &[String]) -> Option<Command>
    ensures command { result ≡ command_of (map string_bytes words.now) }
{
    match task_in(words) {
        Some(Task::Run { steps, report, .. }) => Some(Command::Run { steps, report }),
        Some(Task::Plain { steps, .. }) => Some(Command::Plain { steps }),
        Some(Task::Hostile { steps, .. }) => Some(Command::Hostile { steps }),
        Some(Task::Live { seed, steps, .. }) => Some(Command::Live { seed, steps }),
        Some(Task::Secret { steps, .. }) => Some(Command::Secret { steps }),
        Some(Task::ShowPage(_)) => Some(Command::ShowPage),
        Some(Task::ShowMsr(word)) => Some(Command::ShowMsr(word)),
        Some(Task::ShowInfo(word)) => Some(Command::ShowInfo(word)),
        Some(Task::Make(number)) => Some(Command::Make(number)),
        None => None,
    }
}
