//! Answers each line `BITS OP A B FLAGS`, with the numbers and the flags word in hexadecimal digits, by
//! the result and the flags word after it. A line of another form is answered by `bad line`.
#![tactic(auto)]

mod row;

use row::Row;
use std::io::{self, BufRead, BufReader, BufWriter, Write};

fn main(rt: HostRuntime) -> io::Result<()> {
    let alloc = rt.alloc();
    let mut out = BufWriter::new(alloc, io::writer(&rt))?;
    for line in BufReader::new(alloc, rt.reader())?.lines(alloc) {
        match Row::parse(line?.as_str()) {
            Some(row) => writeln!(out, "{}", row.answer())?,
            None => writeln!(out, "bad line")?,
        }
    }
    out.flush()
}
