ghost use Rattle.std.specs.Prelude.{◌≡◌, ◌≤◌, ◌++◌, length, IfOk, OnOk};
ghost use Rattle.report_text.specs.Report.{console_part, count_line, order_part, report_text as text_of};
ghost use Rattle.report_text.specs.Report.{turn_line, turn_lines, vcpu_line, vcpu_lines};
ghost use Rattle.show_text.specs.Number.{labelled};

use event_table::{End, Finished, Turn};
use itoa::Buffer;
use show_text::Text;
use std::alloc::{AllocError as OutOfMemory, Global};
use trace_text::push_end;

/// The line that is a number after its label.
fn count_line_of(label: &str, number: u64) -> Text
    requires room { length label.now ≤ 100 }
    ensures text { result ≡ count_line label.now number }
{
    let mut text = Text::new();
    text.push_number(label, number);
    text.push_str("\n");
    text
}

/// Appends a number in decimal after its label.
fn push_number(text: &mut Vec<u8>, label: &[u8], number: u16) -> Result<(), OutOfMemory>
    ensures text { OnOk result (text.new.items ≡ text.old.items ++ labelled label.now number) }
{
    text.extend_from_slice(label)?;
    text.extend_from_slice(Buffer::new().format(number).as_bytes())
}

/// Appends the line of a turn: its vCPU, and how many accesses it was given.
fn push_turn(text: &mut Vec<u8>, turn: &Turn) -> Result<(), OutOfMemory>
    ensures text { OnOk result (text.new.items ≡ text.old.items ++ turn_line turn.now) }
{
    push_number(text, b"turn ", turn.vcpu)?;
    push_number(text, b" ", turn.count)?;
    text.push(b'\n')?;
    Ok(())
}

/// The line of a vCPU: its number, how it ended, and after how many steps.
fn vcpu_line_of(vcpu: usize, end: &End, steps: u64) -> Text
    ensures text { result ≡ vcpu_line vcpu end.now steps }
{
    let mut text = Text::new();
    text.push_number("vcpu ", vcpu as u64);
    text.push_str(" ");
    push_end(&mut text, end);
    text.push_number(" steps ", steps);
    text.push_str("\n");
    text
}

/// Appends how many bytes the console has, and the bytes.
fn push_console(text: &mut Vec<u8>, console: &[u8]) -> Result<(), OutOfMemory>
    ensures text { OnOk result (text.new.items ≡ text.old.items ++ console_part console.now) }
{
    text.extend_from_slice(count_line_of("console ", console.len() as u64).as_bytes())?;
    text.extend_from_slice(console)?;
    text.push(b'\n')?;
    Ok(())
}

/// Appends a line for each turn.
fn push_turns(text: &mut Vec<u8>, order: &[Turn]) -> Result<(), OutOfMemory>
    ensures text { OnOk result (text.new.items ≡ text.old.items ++ turn_lines order.now) }
{
    for turn in order {
        push_turn(text, turn)?;
    }
    Ok(())
}

/// Appends how many turns there were, and each of them.
fn push_order(text: &mut Vec<u8>, order: &[Turn]) -> Result<(), OutOfMemory>
    ensures text { OnOk result (text.new.items ≡ text.old.items ++ order_part order.now) }
{
    text.extend_from_slice(count_line_of("turns ", order.len() as u64).as_bytes())?;
    push_turns(text, order)
}

/// Appends a line for each vCPU, by its end and its steps.
fn push_vcpus(text: &mut Vec<u8>, ends: &[End], steps: &[u64]) -> Result<(), OutOfMemory>
    ensures text { OnOk result (text.new.items ≡ text.old.items ++ vcpu_lines 0 ends.now steps.now) }
{
    for (vcpu, end) in ends.iter().enumerate() {
        let Some(steps) = steps.get(vcpu) else {
            return Ok(());
        };
        text.extend_from_slice(vcpu_line_of(vcpu, end, *steps).as_bytes())?;
    }
    Ok(())
}

/// The report of a run that put out these bytes: `console N`, the N bytes and a line feed; `turns K` and
/// `turn V C` for each turn, in order; and for each vCPU, ascending, `vcpu I END steps S`.
pub fn report_text(
    alloc: Global,
    console: &[u8],
    finished: &Finished,
) -> Result<Vec<u8>, OutOfMemory>
    ensures text { IfOk result (λ text. text.items ≡ text_of
        console.now finished.now.order.items finished.now.ends.items finished.now.steps.items) }
{
    let mut text = Vec::new(alloc);
    push_console(&mut text, console)?;
    push_order(&mut text, &finished.order)?;
    push_vcpus(&mut text, &finished.ends, &finished.steps)?;
    Ok(text)
}
