// The whole way of a run, from two files to the console, over files, a sink and a hypervisor in memory.
ghost use Rattle.std.specs.Prelude.{None};

use crate::fixture::{self, call, ended, pages_have, took, words_of};
use crate::{Done, Refused, ghcb_main};
use event_table::{End, Reason, Turn};
use hex_rows::Row;
use host_events::{Host, Hypervisor};
use image_file::ImageFault;
use image_samples::sample_file;
use page_words::{Page, Word, Words};
use run_io::{MemFiles, MemSink};
use std::alloc::{AllocError as OutOfMemory, Global};
use std::test::Fail;
use std::thread::Threads;

/// MOV EDX, 3F8h; MOV AL, 48h; OUT DX, AL; HLT.
const HELLO: [u8; 9] = [0xBA, 0xF8, 0x03, 0, 0, 0xB0, 0x48, 0xEE, 0xF4];

/// A folder with the file `image` of this code and an empty file `input`.
fn folder(alloc: Global, code: &[u8]) -> Result<MemFiles, Fail> {
    let mut files = MemFiles::new(alloc);
    let image = sample_file(alloc, code, 0, 0)?;
    files.add("image", &image)?;
    files.add("input", b"")?;
    Ok(files)
}

/// Whether a guest, over the devices, does as its row tells. The cells are its code, the address of its handler of #GP
/// or 0, its input, its most steps, its output, the accesses of each of its events, and its end.
fn runs<R: Threads + Sync>(rt: &R, alloc: Global, row: &str) -> Result<bool, Fail> {
    let mut row = Row::new(row);
    let code = row.bytes(alloc)?;
    let [gp] = row.numbers::<1>()?;
    let input = row.bytes(alloc)?;
    let most = row.text();
    let output = row.bytes(alloc)?;
    let counts = row.list(alloc)?;
    let gp = u32::try_from(gp)?;
    let mut files = fixture::folder(alloc, code.as_slice(), gp, input.as_slice(), "")?;
    let left = call(rt, alloc, &["run", "image", "input", most], &mut files, &[])?;
    let is_told = left.written.as_slice() == output.as_slice() && took(&left, counts.as_slice());
    Ok(is_told && ended(alloc, &left, row.text())?)
}

/// The first row of guests that doesn't do as it tells.
fn misrun<'a, R: Threads + Sync>(
    rt: &R,
    alloc: Global,
    table: &'a str,
) -> Result<Option<&'a str>, Fail> {
    for line in table.lines() {
        if !runs(rt, alloc, line)? {
            return Ok(Some(line));
        }
    }
    Ok(None)
}

/// MOV EDX, 3F8h; MOV AL, 48h; OUT DX, AL; HLT: with a budget that reaches, and with one that doesn't.
const ONE_BYTE: &str = "BA F8 03 00 00 B0 48 EE F4 | 0 | | 100 | 48 | 1 | halted steps 4
BA F8 03 00 00 B0 48 EE F4 | 0 | | 3 | 48 | 1 | spent steps 3";

#[test]
fn one_byte_goes_from_two_files_to_the_console(rt: HostRuntime) -> Result<(), Fail> {
    assert_eq!(rt; misrun(&rt, rt.alloc(), ONE_BYTE)?, None);
    Ok(())
}

/// What a call leaves: the status, the refusal and what was written.
fn says<R: Threads + Sync>(
    rt: &R,
    alloc: Global,
    words: &[&str],
    files: &mut MemFiles,
    out: &mut MemSink,
) -> Result<(u8, Option<Refused>), Fail> {
    let words = words_of(alloc, words)?;
    let mut host = Hypervisor::new(alloc);
    let done = ghcb_main(rt, alloc, &words, files, out, &mut host);
    Ok((done.status, done.refused))
}

/// Whether a call by the words of a line, where `-` stands for a word of no letters, writes the usage line alone.
fn misuses<R: Threads + Sync>(rt: &R, alloc: Global, line: &str) -> Result<bool, Fail> {
    let mut words: Vec<&str> = Vec::new(alloc);
    for word in line.split_whitespace() {
        words.push(if word == "-" { "" } else { word })?;
    }
    let mut files = folder(alloc, &HELLO)?;
    let mut out = MemSink::new(alloc, 100)?;
    let said = says(rt, alloc, words.as_slice(), &mut files, &mut out)?;
    let usage = b"usage: ghcb_run run|plain|hostile|live|secret|show|make\n";
    Ok(said == (2, None) && out.written() == usage.as_slice())
}

/// Words outside the grammar.
const OUTSIDE: &str = "run a b 0
run a b 2097153
run a b 01
run a b 1x
run a b -
run - b 1
run a b
run a b 0 report
run a b 1 reports
run - b 1 report
plain a b 1 report
plain a b 0
plain a b 2097153
plain a b
hostile a b 65537
hostile a - 1
hostile a b
show msr 000000000001010
show page 00
show pages 0000000000010100";

#[test]
fn words_outside_the_grammar_get_the_usage_line(rt: HostRuntime) -> Result<(), Fail> {
    for line in OUTSIDE.lines() {
        assert!(rt; misuses(&rt, rt.alloc(), line)?, "{line}");
    }
    assert!(rt; misuses(&rt, rt.alloc(), "")?);
    Ok(())
}

/// What a run of this image file says, and what it writes.
fn told_of<R: Threads + Sync>(
    rt: &R,
    alloc: Global,
    image: &[u8],
    line: &[u8],
) -> Result<(u8, Option<Refused>, bool), Fail> {
    let mut files = MemFiles::new(alloc);
    files.add("image", image)?;
    let mut out = MemSink::new(alloc, 100)?;
    let words = ["run", "image", "input", "9"];
    let (status, refused) = says(rt, alloc, &words, &mut files, &mut out)?;
    Ok((status, refused, out.written() == line))
}

/// An offset in an image's file and the byte that is put there, the file's length, and what is told.
type Broken<'a> = (usize, u8, usize, Refused, &'a [u8]);

const BROKEN: [Broken; 6] = [
    (
        0,
        0x48,
        73,
        Refused::Image(ImageFault::BadMagic),
        b"refused image 2\n",
    ),
    (
        0,
        0x47,
        63,
        Refused::Image(ImageFault::Truncated),
        b"refused image 1\n",
    ),
    (
        8,
        0,
        73,
        Refused::Image(ImageFault::BadCount),
        b"refused image 3\n",
    ),
    (
        12,
        1,
        73,
        Refused::Image(ImageFault::BadRam),
        b"refused image 4\n",
    ),
    (
        0,
        0x47,
        72,
        Refused::Image(ImageFault::Truncated),
        b"refused image 1\n",
    ),
    (
        0,
        0x47,
        74,
        Refused::Image(ImageFault::TooLong),
        b"refused image 11\n",
    ),
];

#[test]
fn images_that_break_a_rule_are_refused(rt: HostRuntime) -> Result<(), Fail> {
    let alloc = rt.alloc();
    for (at, byte, len, refused, line) in BROKEN {
        let mut image = sample_file(alloc, &HELLO, 0, 0)?;
        if let Some(slot) = image.get_mut(at) {
            *slot = byte;
        }
        image.resize(len, 0)?;
        assert_eq!(rt;
            told_of(&rt, alloc, &image, line)?,
            (3, Some(refused), true)
        );
    }
    Ok(())
}

/// PUSH ES isn't valid in 64-bit mode, and of the two MOV bytes are missing.
const NO_CODE: &str = "06 | 0 | | 9 | | | undecoded steps 0
B0 | 0 | | 9 | | | bad-address 0000000000000001 steps 0
BA 00 00 00 | 0 | | 9 | | | bad-address 0000000000000004 steps 0";

#[test]
fn code_that_is_no_instruction_ends_the_vcpu_at_no_steps(rt: HostRuntime) -> Result<(), Fail> {
    assert_eq!(rt; misrun(&rt, rt.alloc(), NO_CODE)?, None);
    Ok(())
}

/// XOR EAX, EAX; MOV ECX, 3; ADD EAX, ECX; DEC ECX; JNE -6; ADD EAX, 3Ch; MOV EDX, 3F8h; OUT DX, AL; HLT.
/// MOV RAX, 1122334455667788h; MOV EDX, 3F8h; OUT DX, AL; HLT.
/// MOV EAX, without two bytes of its number.
/// JMP to itself.
/// NOP; INSB to address 0, where its own code is.
const ENDINGS: &str =
    "31 C0 B9 03 00 00 00 01 C8 FF C9 75 FA 83 C0 3C BA F8 03 00 00 EE F4 | 0 | | 100 \
    | 42 | 1 | halted steps 15
48 B8 88 77 66 55 44 33 22 11 BA F8 03 00 00 EE F4 | 0 | | 100 | 88 | 1 | halted steps 4
B8 01 | 0 | | 100 | | | bad-address 0000000000000002 steps 0
EB FE | 0 | | 100 | | | spent steps 100
90 6C | 0 | | 100 | | | bad-address 0000000000000000 steps 1";

#[test]
fn guests_run_to_their_ends(rt: HostRuntime) -> Result<(), Fail> {
    assert_eq!(rt; misrun(&rt, rt.alloc(), ENDINGS)?, None);
    Ok(())
}

/// Guests with the input "hi". An echo, at 0: MOV EDX, 3FDh; IN AL, DX; TEST AL, 1; JE to the HLT; MOV EDX, 3F8h;
/// IN AL, DX; OUT DX, AL; JMP 0; HLT.
/// XOR EAX, EAX; XOR ECX, ECX; CPUID; MOV EAX, EBX; MOV EDX, 3F8h; OUT DX, AL; HLT.
/// XOR EAX, EAX; VMMCALL; ADD EAX, 30h; MOV EDX, 3F8h; OUT DX, AL; HLT.
const ASKING: &str =
    "BA FD 03 00 00 EC A8 01 74 09 BA F8 03 00 00 EC EE EB ED F4 | 0 | 68 69 | 100 \
    | 68 69 | 1 1 1 1 1 1 1 | halted steps 21
31 C0 31 C9 0F A2 89 D8 BA F8 03 00 00 EE F4 | 0 | 68 69 | 100 | 41 | 1 1 | halted steps 7
31 C0 0F 01 D9 83 C0 30 BA F8 03 00 00 EE F4 | 0 | 68 69 | 100 | 31 | 1 1 | halted steps 6";

#[test]
fn guests_are_answered_by_the_devices(rt: HostRuntime) -> Result<(), Fail> {
    assert_eq!(rt; misrun(&rt, rt.alloc(), ASKING)?, None);
    Ok(())
}

/// MOV ECX, C0000080h; RDMSR; at 7 MOV AL, 47h; MOV EDX, 3F8h; OUT DX, AL; HLT: without a handler and with one at 7.
/// MOV ECX, 99h; RDMSR; at 7 HLT; the handler at 8 drops the code, steps over RDMSR and returns: ADD RSP, 8;
/// ADD QWORD PTR [RSP], 2; IRETQ.
/// XOR ESP, ESP; RDMSR: the frame of its handler isn't in RAM.
const REFUSED: &str =
    "B9 80 00 00 C0 0F 32 B0 47 BA F8 03 00 00 EE F4 | 0 | | 100 | | 1 | fault 13 steps 1
B9 80 00 00 C0 0F 32 B0 47 BA F8 03 00 00 EE F4 | 7 | | 100 | 47 | 1 1 | halted steps 6
B9 99 00 00 00 0F 32 F4 48 83 C4 08 48 83 04 24 02 48 CF | 8 | | 100 | | 1 | halted steps 6
31 E4 0F 32 F4 | 4 | | 100 | | 1 | bad-address ffffffffffffffd0 steps 1";

#[test]
fn guests_are_refused_by_the_devices(rt: HostRuntime) -> Result<(), Fail> {
    assert_eq!(rt; misrun(&rt, rt.alloc(), REFUSED)?, None);
    Ok(())
}

/// Whether the events of a guest, as many as `count`, show the words of a row, and leave those of another row, and it
/// halts after these steps.
fn talks<R: Threads + Sync>(
    rt: &R,
    alloc: Global,
    code: &str,
    (count, end): (usize, &str),
    [shown, kept]: [&str; 2],
) -> Result<bool, Fail> {
    let code = Row::new(code).bytes(alloc)?;
    let mut files = folder(alloc, code.as_slice())?;
    let left = call(
        rt,
        alloc,
        &["run", "image", "input", "100"],
        &mut files,
        &[],
    )?;
    let is_told = pages_have(alloc, &left.shown, &[], shown)?
        && pages_have(alloc, &left.left, &[], kept)?;
    let pages = left.shown.len().checked_sub(1);
    Ok(is_told && pages == Some(count) && ended(alloc, &left, end)?)
}

/// The words of the guest that prints `H`, and what is left of them.
const OUT_TALK: [&str; 2] = [
    "63:48 114:7B 115:3F80210 116:0 126:8000000000000000 127:1C000000000000 511:10000",
    "63:48 115:0 116:0 126:0 127:18000000000000",
];

/// The words of CPUID of leaf Dh, and then of leaf 1, and what is left of them.
const CPUID_TALK: [&str; 2] = [
    "63:D 97:0 125:1 126:8000000000000000 127:201C000200000000 \
        | 63:1 97:240 126:8000000000000000 127:1C000200000000",
    "63:1 97:240 98:0 99:240 | 63:0 97:0 98:10 99:0",
];

/// What is left of two RDTSC.
const RDTSC_TALK: [&str; 2] = ["", "63:0 98:0 | 63:3E8 98:0"];

#[test]
fn the_page_between_guest_and_host_has_these_words(rt: HostRuntime) -> Result<(), Fail> {
    let alloc = rt.alloc();
    let out = "BA F8 03 00 00 B0 48 EE F4";
    assert!(rt; talks(&rt, alloc, out, (1, "halted steps 4"), OUT_TALK)?);
    // MOV EAX, 0Dh; CPUID; MOV EAX, 1; CPUID; HLT
    let cpuid = "B8 0D 00 00 00 0F A2 B8 01 00 00 00 0F A2 F4";
    assert!(rt; talks(&rt, alloc, cpuid, (2, "halted steps 5"), CPUID_TALK)?);
    // RDTSC; RDTSC; HLT
    assert!(rt;
        talks(
            &rt,
            alloc,
            "0F 31 0F 31 F4",
            (2, "halted steps 3"),
            RDTSC_TALK
        )?
    );
    Ok(())
}

/// A host that tells nothing: its answer to any exit is one MSR word, and one status on the page.
#[derive(Drop)]
struct Mute {
    vcpus: u16,
    answer: u64,
    status: u64,
}

impl Host for Mute {
    ghost told = { λ h. record { vcpus = h.vcpus; devices = None; history = None; pages = None } };

    fn start(&mut self, count: u16, _input: Vec<u8>) -> Result<(), OutOfMemory> {
        self.vcpus = count;
        Ok(())
    }

    fn serve(&mut self, _vcpu: u16, page: &mut Words) -> Result<(), OutOfMemory> {
        page.set_msr(self.answer);
        if let Some(word) = Word::new(115) {
            page.store(word, self.status);
        }
        Ok(())
    }

    fn console(&self) -> &[u8] {
        b""
    }

    fn turns(&self) -> u64 {
        0
    }

    fn turn_at(&self, _index: u64) -> Option<Turn> {
        None
    }
}

/// Whether a run over a host that answers with this MSR word and this status ends for a reason after these turns and
/// these steps.
fn ends_over<R: Threads + Sync>(
    rt: &R,
    alloc: Global,
    (answer, status): (u64, u64),
    turns: usize,
    steps: u64,
    reason: Reason,
) -> Result<bool, Fail> {
    let words = words_of(alloc, &["run", "image", "input", "100"])?;
    let mut files = folder(alloc, &HELLO)?;
    let mut out = MemSink::new(alloc, 1)?;
    let mut host = Mute {
        vcpus: 0,
        answer,
        status,
    };
    let done = ghcb_main(rt, alloc, &words, &mut files, &mut out, &mut host);
    Ok(has_ended(&done, turns, steps, End::Terminated(reason)))
}

/// Whether a call ended with status 0, and its run with so many turns, these steps and this end.
fn has_ended(done: &Done, turns: usize, steps: u64, end: End) -> bool {
    done.status == 0
        && done.order.len() == turns
        && done.steps.as_slice() == [steps].as_slice()
        && done.ends.as_slice() == [end].as_slice()
}

#[test]
fn no_guest_runs_over_a_host_without_version_1(rt: HostRuntime) -> Result<(), Fail> {
    for answer in [0x0002_0002_0000_0001, 0x0001_0001_0000_0002, 2] {
        let reason = Reason::NoProtocol(answer);
        assert!(rt;
            ends_over(&rt, rt.alloc(), (answer, 0), 0, 0, reason)?,
            "{answer:x}"
        );
    }
    Ok(())
}

#[test]
fn a_reply_comes_from_the_host(rt: HostRuntime) -> Result<(), Fail> {
    let host = (0x0001_0001_3300_0001, 3);
    assert!(rt; ends_over(&rt, rt.alloc(), host, 1, 2, Reason::BadStatus(3))?);
    Ok(())
}

/// Whether a run of the guest that prints `H` on a script ends with this status and refusal, and writes this text.
fn writes<R: Threads + Sync>(
    rt: &R,
    alloc: Global,
    script: &str,
    told: (u8, Option<Refused>),
    text: &str,
) -> Result<bool, Fail> {
    let mut files = folder(alloc, &HELLO)?;
    files.add("script", script.as_bytes())?;
    let mut out = MemSink::new(alloc, 1000)?;
    let words = ["hostile", "image", "script", "100"];
    let said = says(rt, alloc, &words, &mut files, &mut out)?;
    Ok(said == told && out.written() == text.as_bytes())
}

/// The run where no version is offered.
const UNOFFERED: &str = "exit 0000000000000002
msr 0000000000000000
exit 0000000000010100
end terminated no-protocol 0000000000000000 steps 0
";

/// The run where version 1 is offered.
const OFFERED: &str = "exit 0000000000000002
msr 0001000133000001
store 126 0000000000000000
store 127 0000000000000000
store 063 0000000000000048
store 114 000000000000007b
store 115 0000000003f80210
store 116 0000000000000000
store 126 8000000000000000
store 127 001c000000000000
store 511 0000000000010000
exit 0000000080000000
load 115 0000000000000000
end halted steps 4
";

#[test]
fn a_guest_runs_on_the_words_of_a_script(rt: HostRuntime) -> Result<(), Fail> {
    let alloc = rt.alloc();
    assert!(rt; writes(&rt, alloc, "", (0, None), UNOFFERED)?);
    assert!(rt; writes(&rt, alloc, "0001000133000001\n", (0, None), OFFERED)?);
    Ok(())
}

#[test]
fn a_script_of_other_lines_is_refused(rt: HostRuntime) -> Result<(), Fail> {
    let alloc = rt.alloc();
    let first = (3, Some(Refused::ScriptLine(1)));
    let text = "refused script line 1\n";
    assert!(rt; writes(&rt, alloc, "0001000133000001", first, text)?);
    assert!(rt; writes(&rt, alloc, "00010001330000011\n", first, text)?);
    let script = "0001000133000001\n0000000000000000\n000000000000000g\n";
    let third = (3, Some(Refused::ScriptLine(3)));
    assert!(rt; writes(&rt, alloc, script, third, "refused script line 3\n")?);
    Ok(())
}

#[test]
fn the_words_that_a_script_gave_are_handed_back(rt: HostRuntime) -> Result<(), Fail> {
    let alloc = rt.alloc();
    let script = "0001000133000001\n0000000000000001\n0000000080000B0d\n";
    let mut files = fixture::folder(alloc, &HELLO, 0, b"", script)?;
    let left = call(
        &rt,
        alloc,
        &["hostile", "image", "script", "100"],
        &mut files,
        &[],
    )?;
    assert!(rt; has_ended(&left.done, 0, 2, End::Fault(13)));
    assert!(rt; took(&left, &[]));
    let told = [0x0001_0001_3300_0001, 1, 0x8000_0B0D];
    assert_eq!(rt; left.done.told.as_slice(), told.as_slice());
    Ok(())
}

/// A file's name and the number of its bytes, the words that have it read, and what comes of them.
type Limit<'a> = (&'a str, usize, &'a [&'a str], (u8, Option<Refused>));

const RUN: [&str; 4] = ["run", "image", "input", "9"];

const HOSTILE: [&str; 4] = ["hostile", "image", "script", "9"];

const LIMITS: [Limit; 6] = [
    (
        "image",
        16_777_280,
        &RUN,
        (3, Some(Refused::Image(ImageFault::BadMagic))),
    ),
    ("image", 16_777_281, &RUN, (3, Some(Refused::ImageLimit))),
    ("input", 16_777_216, &RUN, (0, None)),
    ("input", 16_777_217, &RUN, (3, Some(Refused::InputLimit))),
    (
        "script",
        16_777_216,
        &HOSTILE,
        (3, Some(Refused::ScriptLine(1))),
    ),
    (
        "script",
        16_777_217,
        &HOSTILE,
        (3, Some(Refused::ScriptLimit)),
    ),
];

#[test]
fn each_file_has_a_limit(rt: HostRuntime) -> Result<(), Fail> {
    let alloc = rt.alloc();
    for (name, size, words, told) in LIMITS {
        let mut files = MemFiles::new(alloc);
        let zeros = vec![in alloc; 0u8; size]?;
        files.add(name, &zeros)?;
        let image = sample_file(alloc, &HELLO, 0, 0)?;
        files.add("image", &image)?;
        let mut out = MemSink::new(alloc, 100)?;
        assert_eq!(rt; says(&rt, alloc, words, &mut files, &mut out)?, told);
    }
    Ok(())
}

#[test]
fn each_read_and_each_write_may_fail(rt: HostRuntime) -> Result<(), Fail> {
    let alloc = rt.alloc();
    let words = ["run", "image", "input", "9"];
    // 73 bytes and the end of the image, and the end of the input: the 76th call isn't made.
    for call in 1..77 {
        let mut files = folder(alloc, &HELLO)?;
        files.set_piece(1);
        files.fail(call)?;
        let mut out = MemSink::new(alloc, 100)?;
        let status = if call < 76 { 4 } else { 0 };
        assert_eq!(rt;
            says(&rt, alloc, &words, &mut files, &mut out)?,
            (status, None)
        );
    }
    let mut absent = MemFiles::new(alloc);
    let mut out = MemSink::new(alloc, 100)?;
    assert_eq!(rt; says(&rt, alloc, &words, &mut absent, &mut out)?, (4, None));
    for (words, first, written) in [
        (&words[..], 0, &b""[..]),
        (&words, 3, b"H"),
        (&words[..3], 3, b"usa"),
    ] {
        let mut files = folder(alloc, &HELLO)?;
        let mut out = MemSink::new(alloc, 100)?;
        out.fail(1, first)?;
        assert_eq!(rt; says(&rt, alloc, words, &mut files, &mut out)?, (5, None));
        assert_eq!(rt; out.written(), written);
    }
    Ok(())
}

/// Whether the words of a line are answered with its text.
fn shows<R: Threads + Sync>(rt: &R, alloc: Global, line: &str) -> Result<bool, Fail> {
    let mut row = Row::new(line);
    let mut words: Vec<&str> = Vec::new(alloc);
    for word in row.text().split_whitespace() {
        words.push(word)?;
    }
    let mut files = MemFiles::new(alloc);
    let mut out = MemSink::new(alloc, 100)?;
    let said = says(rt, alloc, words.as_slice(), &mut files, &mut out)?;
    let text = format!(in alloc; "{}\n", row.text())?;
    Ok(said == (0, None) && out.written() == text.as_str().as_bytes())
}

/// Words, and what they mean.
const READINGS: &str = "show msr 0000000000010100 | terminate set 0 code 1
show msr 0000000000000003 | unknown 003
show msr 0000000000011002 | reserved 0000000000011000
show info 0000000003F80210 | out size 8 address 64 segment 0 port 1016
show info 0000000000000000 | bad size 0000000000000000
show info 0000000000000010 | bad address 0000000000000010";

#[test]
fn readings_are_shown(rt: HostRuntime) -> Result<(), Fail> {
    for line in READINGS.lines() {
        assert!(rt; shows(&rt, rt.alloc(), line)?, "{line}");
    }
    Ok(())
}
