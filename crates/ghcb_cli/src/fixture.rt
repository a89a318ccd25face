// What the tests of whole calls begin with: a call over files, a sink and a hypervisor in memory, and what it leaves.
ghost use Rattle.std.specs.Prelude.{None};
ghost use Rattle.host_events.specs.Hypervised.{telling};

use crate::{Done, ghcb_main};
use event_table::Turn;
use hex_rows::Row;
use host_events::{Host, Hypervisor};
use image_samples::sample_file;
use page_words::{Page, Word, Words};
use run_io::{MemFiles, MemSink};
use std::alloc::{AllocError as OutOfMemory, Global};
use std::test::Fail;
use std::thread::Threads;
use trace_text::trace_text;

/// Words of a page by their numbers.
pub type WordsAt<'a> = &'a [(u16, u64)];

/// A hypervisor that keeps each page as it was handed in, and as it was left. Behind that it changes words of
/// each page that it leaves, so it tells nothing.
#[derive(Drop)]
pub struct Watching<'a> {
    host: Hypervisor,
    changes: WordsAt<'a>,
    shown: Vec<Words>,
    left: Vec<Words>,
}

impl<'a> Watching<'a> {
    fn new(alloc: Global, changes: WordsAt<'a>) -> Watching<'a> {
        Watching {
            host: Hypervisor::new(alloc),
            changes,
            shown: Vec::new(alloc),
            left: Vec::new(alloc),
        }
    }
}

impl<'a> Host for Watching<'a> {
    ghost told = { λ w. record { vcpus = (telling w.host).vcpus; devices = None; history = None; pages = None } };

    fn start(&mut self, count: u16, input: Vec<u8>) -> Result<(), OutOfMemory> {
        self.host.start(count, input)
    }

    fn serve(&mut self, vcpu: u16, page: &mut Words) -> Result<(), OutOfMemory> {
        self.shown.reserve(1)?;
        self.left.reserve(1)?;
        let shown = page.clone()?;
        self.host.serve(vcpu, page)?;
        let _ = self.shown.push(shown);
        if let Ok(left) = page.clone() {
            let _ = self.left.push(left);
        }
        for (number, value) in self.changes {
            if let Some(word) = Word::new(*number) {
                page.store(word, *value);
            }
        }
        Ok(())
    }

    fn console(&self) -> &[u8] {
        self.host.console()
    }

    fn turns(&self) -> u64 {
        self.host.turns()
    }

    fn turn_at(&self, index: u64) -> Option<Turn> {
        self.host.turn_at(index)
    }
}

/// What a call leaves: what it says, what was written, the turns that the hypervisor keeps, and its pages as they
/// were handed in and as they were left.
#[derive(Drop)]
pub struct Left {
    pub done: Done,
    pub written: Vec<u8>,
    pub turns: Vec<Turn>,
    pub shown: Vec<Words>,
    pub left: Vec<Words>,
}

pub fn words_of(alloc: Global, words: &[&str]) -> Result<Vec<String>, Fail> {
    let mut all = Vec::new(alloc);
    for word in words {
        all.push(String::from_str(alloc, *word)?)?;
    }
    Ok(all)
}

/// The turns that a hypervisor keeps.
pub fn turns_of(alloc: Global, host: &Hypervisor) -> Result<Vec<Turn>, Fail> {
    let mut turns = Vec::new(alloc);
    for number in 0..host.turns() {
        if let Some(turn) = host.turn_at(number) {
            turns.push(turn)?;
        }
    }
    Ok(turns)
}

/// What a call by these words leaves, over a hypervisor that changes these words of each page.
pub fn call<R: Threads + Sync>(
    rt: &R,
    alloc: Global,
    words: &[&str],
    files: &mut MemFiles,
    changes: WordsAt,
) -> Result<Left, Fail> {
    let words = words_of(alloc, words)?;
    let mut out = MemSink::new(alloc, 10_000)?;
    let mut host = Watching::new(alloc, changes);
    let done = ghcb_main(rt, alloc, &words, files, &mut out, &mut host);
    Ok(Left {
        done,
        written: out.written().to_vec(alloc)?,
        turns: turns_of(alloc, &host.host)?,
        shown: host.shown,
        left: host.left,
    })
}

/// A folder with the files `image`, of a code with its handler of #GP or none, `input` and `script`.
pub fn folder(
    alloc: Global,
    code: &[u8],
    gp: u32,
    input: &[u8],
    script: &str,
) -> Result<MemFiles, Fail> {
    let mut files = MemFiles::new(alloc);
    files.add("image", &sample_file(alloc, code, 0, gp)?)?;
    files.add("input", input)?;
    files.add("script", script.as_bytes())?;
    Ok(files)
}

/// Whether a call ended with status 0, and its run of one vCPU with this end and these steps, as a trace's last line
/// has them.
pub fn ended(alloc: Global, left: &Left, end: &str) -> Result<bool, Fail> {
    let ([at], [steps]) = (left.done.ends.as_slice(), left.done.steps.as_slice()) else {
        return Ok(false);
    };
    let line = trace_text(alloc, &[], at, *steps)?;
    let want = format!(in alloc; "end {end}\n")?;
    Ok(left.done.status == 0 && line.as_slice() == want.as_str().as_bytes())
}

/// Whether the events of a run were of vCPU 0 alone and had so many accesses each, and the hypervisor keeps the same
/// turns.
pub fn took(left: &Left, counts: &[u64]) -> bool {
    let order = left.done.order.as_slice();
    let is_turn = |(turn, count): (&Turn, &u64)| turn.vcpu == 0 && u64::from(turn.count) == *count;
    order.len() == counts.len()
        && order == left.turns.as_slice()
        && order.iter().zip(counts).all(is_turn)
}

/// Whether a page is there and has these words.
pub fn has_words(page: Option<&Words>, words: WordsAt) -> bool {
    let Some(page) = page else {
        return false;
    };
    words.iter().all(|(number, value)| match Word::new(*number) {
        Some(word) => page.word(word) == *value,
        None => false,
    })
}

/// The words that are left of each event that was accepted and has no result in a register.
pub const OF_REPLIES: [(u16, u64); 4] = [
    (115, 0),
    (116, 0),
    (126, 0),
    (127, 0x0018_0000_0000_0000),
];

/// Whether of each event the page has these words and those of its cell of a row. The first page is that of the
/// exchange of versions.
pub fn pages_have(
    alloc: Global,
    pages: &[Words],
    of_each: WordsAt,
    row: &str,
) -> Result<bool, Fail> {
    let mut row = Row::new(row);
    for page in pages.iter().skip(1) {
        let own = row.words(alloc)?;
        if !has_words(Some(page), of_each) || !has_words(Some(page), own.as_slice()) {
            return Ok(false);
        }
    }
    Ok(true)
}

/// Whether a run on a folder's script ends with status 0 and writes these texts, one after another.
pub fn answers<R: Threads + Sync>(
    rt: &R,
    alloc: Global,
    files: &mut MemFiles,
    texts: &[&str],
) -> Result<bool, Fail> {
    let left = call(
        rt,
        alloc,
        &["hostile", "image", "script", "100"],
        files,
        &[],
    )?;
    let mut want = Vec::new(alloc);
    for text in texts {
        want.extend_from_slice(text.as_bytes())?;
    }
    Ok(left.done.status == 0 && left.written.as_slice() == want.as_slice())
}
