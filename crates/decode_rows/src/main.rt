//! Decodes each line of hexadecimal bytes, and prints the instruction or why there is none. The words
//! `bytes`, `pairs` and `repeated` decode every input of one byte, of two bytes, and of 15 times the
//! same byte, and print how often each answer came and a digest.
#![tactic(auto)]

mod tally;
mod text;

use insn_decode::decode;
use std::alloc::{AllocError, Global};
use std::io::{self, BufRead, BufReader, BufWriter, Write};
use tally::Tally;
use text::line_of;

/// The answer to a line.
fn answer(alloc: Global, line: &str) -> Result<String, AllocError> {
    let tally = match line {
        "bytes" => Tally::bytes(alloc)?,
        "pairs" => Tally::pairs(alloc)?,
        "repeated" => Tally::repeated(alloc)?,
        _ => {
            return match hex::decode(alloc, line) {
                Ok(bytes) => line_of(alloc, decode(bytes.as_slice())),
                Err(_) => String::from_str(alloc, "bad line"),
            };
        }
    };
    format!(in alloc; "{tally}")
}

fn main(rt: HostRuntime) -> io::Result<()> {
    let alloc = rt.alloc();
    let mut out = BufWriter::new(alloc, io::writer(&rt))?;
    for line in BufReader::new(alloc, rt.reader())?.lines(alloc) {
        let text = answer(alloc, line?.as_str())?;
        writeln!(out, "{text}")?;
    }
    out.flush()
}
