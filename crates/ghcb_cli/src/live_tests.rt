// Guests on a page that another thread changes. The values that a page may hold are made here by the generator anew.
use crate::fixture::{Left, call, folder, words_of};
use crate::{Command, parse};
use answered_runs::run_over;
use hex_rows::Row;
use image_samples::sample_image;
use page_words::Script;
use std::alloc::Global;
use std::test::Fail;
use std::thread::Threads;

/// MOV EDX, 3F8h; MOV AL, 48h; OUT DX, AL; HLT.
const PRINTS: [u8; 9] = [0xBA, 0xF8, 3, 0, 0, 0xB0, 0x48, 0xEE, 0xF4];

/// MOV EDX, 3F8h; IN EAX, DX; HLT.
const READS: [u8; 7] = [0xBA, 0xF8, 3, 0, 0, 0xED, 0xF4];

/// What the guest of a code leaves on a page that is changed by a seed.
fn live<R: Threads + Sync>(rt: &R, alloc: Global, code: &[u8], seed: u64) -> Result<Left, Fail> {
    let seed = format!(in alloc; "{seed}")?;
    let words = ["live", "image", seed.as_str(), "100"];
    let mut files = folder(alloc, code, 0, b"", "")?;
    call(rt, alloc, &words, &mut files, &[])
}

/// How the run of the guest that prints may end: the status is 0; or a store of 1 fell between the exit and the load of
/// the status, and the exception was there by then; or it wasn't.
const ENDS: [&str; 3] = [
    "end halted steps 4",
    "end fault 13 steps 2",
    "end terminated bad-exception 0000000000000000 steps 2",
];

#[test]
fn the_text_is_that_of_the_words_that_came(rt: HostRuntime) -> Result<(), Fail> {
    let alloc = rt.alloc();
    let left = live(&rt, alloc, &PRINTS, 1)?;
    let image = sample_image(alloc, &PRINTS, 0, 0)?;
    let script = Script::new(left.done.told.as_slice().to_vec(alloc)?);
    let run = run_over(alloc, &image, script, 100)?;
    assert_eq!(rt; left.done.status, 0);
    assert_eq!(rt; left.written.as_slice(), run.text.as_slice());
    assert_eq!(rt; left.done.told.as_slice(), run.heard.as_slice());
    assert_eq!(rt; left.done.ends.as_slice(), run.finished.ends.as_slice());
    assert!(rt; left.done.order.is_empty() && left.turns.is_empty());
    let last = str::from_utf8(&left.written)?.lines().last();
    assert!(rt; last.is_some_and(|line| ENDS.contains(&line)));
    Ok(())
}

/// The values that lines of a text have of loads of word 63.
fn loaded(alloc: Global, text: &[u8]) -> Result<Vec<u64>, Fail> {
    let mut values = Vec::new(alloc);
    for line in str::from_utf8(text)?.lines() {
        if let Some(digits) = line.strip_prefix("load 063 ") {
            values.push(u64::from_str_radix(digits, 16)?)?;
        }
    }
    Ok(values)
}

/// Whether the changes of a seed store this value at word 63.
fn is_stored(seed: u64, value: u64) -> bool {
    let mut number = seed;
    for _ in 0..1_048_576 {
        number = number
            .wrapping_mul(6_364_136_223_846_793_005)
            .wrapping_add(1_442_695_040_888_963_407);
        if (number >> 33) % 512 == 63 && number == value {
            return true;
        }
    }
    false
}

#[test]
fn what_is_loaded_was_stored(rt: HostRuntime) -> Result<(), Fail> {
    let mut is_loaded = false;
    for seed in 1..21 {
        let left = live(&rt, rt.alloc(), &READS, seed)?;
        assert_eq!(rt; left.done.status, 0);
        for value in &loaded(rt.alloc(), &left.written)? {
            assert!(rt; is_stored(seed, *value), "{seed}: {value:x}");
            is_loaded = true;
        }
    }
    assert!(rt; is_loaded);
    Ok(())
}

/// The command that the words of a line ask for, where `-` stands for a word of no letters.
fn asked(alloc: Global, line: &str) -> Result<Option<Command>, Fail> {
    let mut words: Vec<&str> = Vec::new(alloc);
    for word in line.split_whitespace() {
        words.push(if word == "-" { "" } else { word })?;
    }
    Ok(parse(&words_of(alloc, &words)?))
}

/// Words outside the grammar.
const OUTSIDE: &str = "live a 18446744073709551616 1
live a 00 1
live a 01 1
live a -1 1
live a x 1
live a - 1
live a 1
live - 1 1
live a 1 0
live a 1 65537
live a 1 01
live a 1 1 report";

/// Words of the grammar, and in hexadecimal the seed and the steps.
const INSIDE: &str = "live a 0 1 | 0 | 1
live a 1 65536 | 1 | 10000
live a 18446744073709551615 9 | ffffffffffffffff | 9";

#[test]
fn a_seed_is_any_number_of_64_bits(rt: HostRuntime) -> Result<(), Fail> {
    for line in OUTSIDE.lines() {
        assert_eq!(rt; asked(rt.alloc(), line)?, None, "{line}");
    }
    for line in INSIDE.lines() {
        let mut row = Row::new(line);
        let words = row.text();
        let [seed] = row.numbers::<1>()?;
        let [steps] = row.numbers::<1>()?;
        let live = Some(Command::Live { seed, steps });
        assert_eq!(rt; asked(rt.alloc(), words)?, live, "{line}");
    }
    Ok(())
}
