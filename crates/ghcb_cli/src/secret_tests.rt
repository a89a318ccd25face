// Verdicts on the secrets of small guests.
use crate::fixture::{Left, call};
use hex_rows::Row;
use image_samples::sample_file;
use run_io::MemFiles;
use std::alloc::Global;
use std::test::Fail;
use std::thread::Threads;

/// A guest by its code, its data, and the address and the length of its secret; the words of the host after that which
/// offers version 1; and the verdict, a line after another.
const VERDICTS: &str =
    "8A 04 25 16 0 0 0 02 04 25 17 0 0 0 88 04 25 18 0 0 0 F4 | 5 7 0 | 16 2 | | clean, end halted steps 4 ; MOV AL; ADD AL; MOV
8A 04 25 11 0 0 0 02 04 25 12 0 0 0 74 0 F4 | 5 7 | 11 2 | | flows 2 branch ; MOV AL; ADD AL; JZ
8A 04 25 E 0 0 0 BA F8 3 0 0 EE F4 | 41 | e 1 | | flows 2 named ; MOV AL; OUT
8A 04 25 A 0 0 0 8A 0 F4 | 5 | a 1 | | flows 1 address ; MOV AL; MOV AL, [RAX]
8A 04 25 F 0 0 0 BA F8 3 0 0 ED EE F4 | 41 | f 1 | 0 8000000000000000 42 | clean, end halted steps 5 ; IN EAX takes the label away
8A 04 25 F 0 0 0 BA F8 3 0 0 EC EE F4 | 41 | f 1 | 0 8000000000000000 42 | flows 3 named ; IN AL keeps it
6A 10 68 0 10 0 0 48 8B 4 25 1A 0 0 0 50 6A 8 6A 16 48 CF 31 DB 6E F4 | 2 4 0 0 0 0 0 0 | 1a 8 | | flows 6 branch ; IRETQ of a labelled word";

/// The file of an image with this code, this data, and a secret of a length at an address.
fn file_of(alloc: Global, code: &[u8], data: &[u8], secret: [u64; 2]) -> Result<Vec<u8>, Fail> {
    let mut file = sample_file(alloc, code, 0, 0)?;
    let [start, length] = secret;
    let fields = [(20, data.len() as u64), (36, start), (40, length)];
    for (at, value) in fields {
        if let Some(slot) = file.get_mut(at) {
            *slot = (value % 0x100) as u8;
        }
    }
    file.extend_from_slice(data)?;
    Ok(file)
}

/// A script that offers version 1, and then these words.
fn script_of(alloc: Global, words: &[u64]) -> Result<String, Fail> {
    let mut script = String::from_str(alloc, "0001000133000001\n")?;
    for word in words {
        script.push_str(format!(in alloc; "{word:016x}\n")?.as_str())?;
    }
    Ok(script)
}

/// What the verdict of a row leaves.
fn judged<R: Threads + Sync>(rt: &R, alloc: Global, row: &mut Row) -> Result<Left, Fail> {
    let code = row.bytes(alloc)?;
    let data = row.bytes(alloc)?;
    let secret = row.numbers::<2>()?;
    let words = row.list(alloc)?;
    let mut files = MemFiles::new(alloc);
    files.add(
        "image",
        &file_of(alloc, code.as_slice(), data.as_slice(), secret)?,
    )?;
    files.add("script", script_of(alloc, words.as_slice())?.as_bytes())?;
    call(
        rt,
        alloc,
        &["secret", "image", "script", "100"],
        &mut files,
        &[],
    )
}

#[test]
fn a_verdict_is_written(rt: HostRuntime) -> Result<(), Fail> {
    let alloc = rt.alloc();
    for line in VERDICTS.lines() {
        let mut row = Row::new(line);
        let left = judged(&rt, alloc, &mut row)?;
        let text = String::from_utf8(left.written)?.replace(alloc, "\n", ", ")?;
        let verdict = format!(in alloc; "{}, ", row.text())?;
        assert_eq!(rt; left.done.status, 0, "{line}");
        assert_eq!(rt; text.as_str(), verdict.as_str());
        assert!(rt; left.done.ends.is_empty() && left.done.told.is_empty());
    }
    Ok(())
}

/// MOV EDX, 3F8h; MOV AL, 48h; OUT DX, AL; HLT.
const PRINTS: &str = "BA F8 3 0 0 B0 48 EE F4 | | 0 0";

#[test]
fn a_run_without_a_version_is_clean(rt: HostRuntime) -> Result<(), Fail> {
    let alloc = rt.alloc();
    let mut row = Row::new(PRINTS);
    let code = row.bytes(alloc)?;
    let mut files = MemFiles::new(alloc);
    files.add("image", &sample_file(alloc, code.as_slice(), 0, 0)?)?;
    files.add("script", b"")?;
    let left = call(
        &rt,
        alloc,
        &["secret", "image", "script", "65536"],
        &mut files,
        &[],
    )?;
    let text = b"clean\nend terminated no-protocol 0000000000000000 steps 0\n";
    assert_eq!(rt; left.written.as_slice(), text.as_slice());
    Ok(())
}
