// Guests of several vCPUs, over a hypervisor and with the devices alone.
use crate::fixture::words_of;
use crate::{Done, ghcb_main};
use event_table::{End, Turn};
use host_events::{Host, Hypervisor};
use image_samples::sample_file;
use run_io::{MemFiles, MemSink};
use std::alloc::Global;
use std::test::Fail;
use std::thread::Threads;

/// A folder with the file `image` of so many vCPUs with this code, and data behind it, and the file `input`.
pub fn folder(
    alloc: Global,
    vcpus: u8,
    code: &[u8],
    data: &[u8],
    input: &[u8],
) -> Result<MemFiles, Fail> {
    let mut image = sample_file(alloc, code, 0, 0)?;
    image[8] = vcpus;
    let [low, high, ..] = u64::to_le_bytes(data.len() as u64);
    image[20] = low;
    image[21] = high;
    image.extend_from_slice(data)?;
    let mut files = MemFiles::new(alloc);
    files.add("image", &image)?;
    files.add("input", input)?;
    Ok(files)
}

/// What a run is to leave: its text, its order as pairs of vCPU and count, and the steps and the ends of its vCPUs.
#[derive(Clone, Copy)]
struct Wanted<'a> {
    text: &'a [u8],
    order: &'a [(u16, u16)],
    steps: &'a [u64],
    ends: &'a [End],
}

/// Whether these are the turns.
fn are_turns(order: &[Turn], wanted: &[(u16, u16)]) -> bool {
    order.len() == wanted.len()
        && order.iter().zip(wanted).all(|(turn, (vcpu, count))| turn.vcpu == *vcpu
            && turn.count == *count)
}

/// Whether a call was a run that left this.
fn has_left(done: &Done, text: &[u8], wanted: &Wanted<'_>) -> bool {
    done.status == 0
        && text == wanted.text
        && are_turns(&done.order, wanted.order)
        && done.steps.as_slice() == wanted.steps
        && done.ends.as_slice() == wanted.ends
}

/// Whether the run by this name leaves this, and has the host serve so many turns.
fn leaves<R: Threads + Sync>(
    rt: &R,
    alloc: Global,
    name: &str,
    steps: &str,
    files: &mut MemFiles,
    wanted: &Wanted<'_>,
) -> Result<bool, Fail> {
    let words = words_of(alloc, &[name, "image", "input", steps])?;
    let mut out = MemSink::new(alloc, 10_000)?;
    let mut host = Hypervisor::new(alloc);
    let done = ghcb_main(rt, alloc, &words, files, &mut out, &mut host);
    let served = if name == "run" { wanted.order.len() } else { 0 };
    Ok(has_left(&done, out.written(), wanted) && host.turns() == served as u64)
}

/// Whether `run` and `plain` both leave this.
fn both_leave<R: Threads + Sync>(
    rt: &R,
    alloc: Global,
    steps: &str,
    files: &mut MemFiles,
    wanted: &Wanted<'_>,
) -> Result<bool, Fail> {
    Ok(
        leaves(rt, alloc, "run", steps, files, wanted)?
            && leaves(rt, alloc, "plain", steps, files, wanted)?,
    )
}

/// Whether a run with a report prints this.
fn reports<R: Threads + Sync>(
    rt: &R,
    alloc: Global,
    steps: &str,
    files: &mut MemFiles,
    report: &[u8],
) -> Result<bool, Fail> {
    let words = words_of(alloc, &["run", "image", "input", steps, "report"])?;
    let mut out = MemSink::new(alloc, 50_000)?;
    let mut host = Hypervisor::new(alloc);
    let done = ghcb_main(rt, alloc, &words, files, &mut out, &mut host);
    Ok(done.status == 0 && out.written() == report)
}

/// MOV EDX, 3F8h; MOV AL, 48h; OUT DX, AL; HLT.
pub const HELLO: [u8; 9] = [0xBA, 0xF8, 3, 0, 0, 0xB0, 0x48, 0xEE, 0xF4];

/// MOV ESI, 12h; MOV ECX, 2033; MOV EDX, 3F8h; REP OUTSB; HLT.
const LONG_STRING: [u8; 18] = [
    0xBE, 0x12, 0, 0, 0, 0xB9, 0xF1, 7, 0, 0, 0xBA, 0xF8, 3, 0, 0, 0xF3, 0x6E, 0xF4,
];

/// MOV EDI, 18h; STD; MOV ECX, 3; MOV EDX, 500h; REP INSD; HLT: downwards to code bytes.
const DOWN_TO_CODE: [u8; 19] = [
    0xBF, 0x18, 0, 0, 0, 0xFD, 0xB9, 3, 0, 0, 0, 0xBA, 0, 5, 0, 0, 0xF3, 0x6D, 0xF4,
];

/// Puts the input out again, byte by byte, while port 3FDh says that one is left; HLT.
const ECHO: [u8; 20] = [
    0xBA, 0xFD, 3, 0, 0, 0xEC, 0xA8, 1, 0x74, 9, 0xBA, 0xF8, 3, 0, 0, 0xEC, 0xEE, 0xEB, 0xED, 0xF4,
];

#[test]
fn one_byte_goes_out_with_the_devices_alone(rt: HostRuntime) -> Result<(), Fail> {
    let mut files = folder(rt.alloc(), 1, &HELLO, &[], b"")?;
    let wanted = Wanted {
        text: b"H",
        order: &[(0, 1)],
        steps: &[4],
        ends: &[End::Halted],
    };
    assert!(rt; both_leave(&rt, rt.alloc(), "100", &mut files, &wanted)?);
    Ok(())
}

#[test]
fn a_long_string_goes_out_with_the_devices_alone(rt: HostRuntime) -> Result<(), Fail> {
    let mut files = folder(rt.alloc(), 1, &LONG_STRING, &[0x61; 2033], b"")?;
    let whole = Wanted {
        text: &[0x61; 2033],
        order: &[(0, 2032), (0, 1)],
        steps: &[2037],
        ends: &[End::Halted],
    };
    assert!(rt; both_leave(&rt, rt.alloc(), "10000", &mut files, &whole)?);
    let cut = Wanted {
        text: &[0x61; 2032],
        order: &[(0, 2032)],
        steps: &[2035],
        ends: &[End::Spent],
    };
    assert!(rt; both_leave(&rt, rt.alloc(), "4", &mut files, &cut)?);
    Ok(())
}

#[test]
fn elements_stop_at_code_with_the_devices_alone(rt: HostRuntime) -> Result<(), Fail> {
    let mut files = folder(rt.alloc(), 1, &DOWN_TO_CODE, &[], b"")?;
    let wanted = Wanted {
        text: b"",
        order: &[(0, 2)],
        steps: &[6],
        ends: &[End::BadAddress(0x10)],
    };
    assert!(rt; both_leave(&rt, rt.alloc(), "100", &mut files, &wanted)?);
    Ok(())
}

#[test]
fn input_goes_out_again_with_the_devices_alone(rt: HostRuntime) -> Result<(), Fail> {
    let mut files = folder(rt.alloc(), 1, &ECHO, &[], b"hi")?;
    let wanted = Wanted {
        text: b"hi",
        order: &[(0, 1); 7],
        steps: &[21],
        ends: &[End::Halted],
    };
    assert!(rt; both_leave(&rt, rt.alloc(), "100", &mut files, &wanted)?);
    Ok(())
}

/// Two vCPUs put out a letter each, pass it on through a mailbox, and put out the other's and their number's.
pub const LETTERS: [u8; 45] = [
    0x8D, 0x47, 0x41, 0x31, 0xD2, 0xB9, 0, 0x10, 0, 0x40, 0x0F, 0x30, 0xBA, 0xF8, 3, 0, 0, 0xEE,
    0x8D, 0x14, 0xBD, 0, 5, 0, 0, 0xEF, 0x83, 0xF2, 4, 0xED, 0xBA, 0xF8, 3, 0, 0, 0xEE, 0x0F, 0x32,
    0xBA, 0xF8, 3, 0, 0, 0xEE, 0xF4,
];

#[test]
fn two_vcpus_pass_letters_through_mailboxes(rt: HostRuntime) -> Result<(), Fail> {
    let mut files = folder(rt.alloc(), 2, &LETTERS, &[], b"")?;
    let wanted = Wanted {
        text: b"ABBAAB",
        order: &[
            (0, 1),
            (1, 1),
            (0, 1),
            (1, 1),
            (0, 1),
            (1, 1),
            (0, 1),
            (1, 1),
            (0, 1),
            (1, 1),
            (0, 1),
            (1, 1),
            (0, 1),
            (1, 1),
        ],
        steps: &[16, 16],
        ends: &[End::Halted; 2],
    };
    assert!(rt; both_leave(&rt, rt.alloc(), "100", &mut files, &wanted)?);
    Ok(())
}

const LETTERS_REPORT: &str = "console 6
ABBAAB
turns 14
turn 0 1
turn 1 1
turn 0 1
turn 1 1
turn 0 1
turn 1 1
turn 0 1
turn 1 1
turn 0 1
turn 1 1
turn 0 1
turn 1 1
turn 0 1
turn 1 1
vcpu 0 halted steps 16
vcpu 1 halted steps 16
";

#[test]
fn a_run_of_two_vcpus_is_reported(rt: HostRuntime) -> Result<(), Fail> {
    let mut files = folder(rt.alloc(), 2, &LETTERS, &[], b"")?;
    let report = LETTERS_REPORT.as_bytes();
    assert!(rt; reports(&rt, rt.alloc(), "100", &mut files, report)?);
    Ok(())
}

/// LEA EAX, [RDI + 41h]; MOV EDX, 3F8h; OUT DX, AL; TEST EDI, EDI; JZ 1; OUT DX, AL; HLT.
const ONCE_OR_TWICE: [u8; 15] = [
    0x8D, 0x47, 0x41, 0xBA, 0xF8, 3, 0, 0, 0xEE, 0x85, 0xFF, 0x74, 1, 0xEE, 0xF4,
];

const ONCE_OR_TWICE_REPORT: &str = "console 3
ABB
turns 3
turn 0 1
turn 1 1
turn 1 1
vcpu 0 halted steps 6
vcpu 1 halted steps 7
";

#[test]
fn a_vcpu_goes_on_alone_where_the_other_has_ended(rt: HostRuntime) -> Result<(), Fail> {
    let mut files = folder(rt.alloc(), 2, &ONCE_OR_TWICE, &[], b"")?;
    let report = ONCE_OR_TWICE_REPORT.as_bytes();
    assert!(rt; reports(&rt, rt.alloc(), "100", &mut files, report)?);
    Ok(())
}

/// MOV EAX, EDI; MOV EDX, 3F8h; OUT DX, AL; JMP to the OUT.
const NUMBERS: [u8; 10] = [0x89, 0xF8, 0xBA, 0xF8, 3, 0, 0, 0xEE, 0xEB, 0xFD];

/// These bytes, 499 times over.
fn repeated(alloc: Global, round: &[u8]) -> Result<Vec<u8>, Fail> {
    let mut bytes = Vec::new(alloc);
    for _ in 0..499 {
        bytes.extend_from_slice(round)?;
    }
    Ok(bytes)
}

#[test]
fn eight_vcpus_put_out_their_numbers_in_turn(rt: HostRuntime) -> Result<(), Fail> {
    let alloc = rt.alloc();
    let mut files = folder(alloc, 8, &NUMBERS, &[], b"")?;
    let text = repeated(alloc, &[0, 1, 2, 3, 4, 5, 6, 7])?;
    let mut order = Vec::new(alloc);
    for k in 0u16..3992 {
        order.push((k % 8, 1u16))?;
    }
    let wanted = Wanted {
        text: &text,
        order: &order,
        steps: &[1000; 8],
        ends: &[End::Spent; 8],
    };
    assert!(rt; both_leave(&rt, alloc, "1000", &mut files, &wanted)?);
    Ok(())
}

const ROUND: &str = "turn 0 1
turn 1 1
turn 2 1
turn 3 1
turn 4 1
turn 5 1
turn 6 1
turn 7 1
";

const EIGHT_ENDS: &str = "vcpu 0 spent steps 1000
vcpu 1 spent steps 1000
vcpu 2 spent steps 1000
vcpu 3 spent steps 1000
vcpu 4 spent steps 1000
vcpu 5 spent steps 1000
vcpu 6 spent steps 1000
vcpu 7 spent steps 1000
";

#[test]
fn a_run_of_eight_vcpus_is_reported(rt: HostRuntime) -> Result<(), Fail> {
    let alloc = rt.alloc();
    let mut files = folder(alloc, 8, &NUMBERS, &[], b"")?;
    let mut report = Vec::from_slice(alloc, b"console 3992\n")?;
    report.extend_from_slice(&repeated(alloc, &[0, 1, 2, 3, 4, 5, 6, 7])?)?;
    report.extend_from_slice(b"\nturns 3992\n")?;
    report.extend_from_slice(&repeated(alloc, ROUND.as_bytes())?)?;
    report.extend_from_slice(EIGHT_ENDS.as_bytes())?;
    assert!(rt; reports(&rt, alloc, "1000", &mut files, &report)?);
    Ok(())
}

/// A jump to itself.
const FOREVER: [u8; 2] = [0xEB, 0xFE];

#[test]
fn eight_vcpus_that_ask_for_nothing_leave_no_turns(rt: HostRuntime) -> Result<(), Fail> {
    let mut files = folder(rt.alloc(), 8, &FOREVER, &[], b"")?;
    let wanted = Wanted {
        text: b"",
        order: &[],
        steps: &[200_000; 8],
        ends: &[End::Spent; 8],
    };
    assert!(rt; both_leave(&rt, rt.alloc(), "200000", &mut files, &wanted)?);
    Ok(())
}
