//! Serves pages over a hypervisor. The lines `vcpus N`, `input BYTES`, `page BYTES` and `msr WORD`, with bytes
//! and words in hexadecimal digits, say what is served; `vcpu I` serves it for vCPU I over opened devices, and
//! prints what became of the page and of the devices.
#![tactic(auto)]

mod desk;
mod served;

use desk::Desk;
use std::io::{self, BufRead, BufReader, BufWriter, Write};

fn main(rt: HostRuntime) -> io::Result<()> {
    let alloc = rt.alloc();
    let mut out = BufWriter::new(alloc, io::writer(&rt))?;
    let mut desk = Desk::new(alloc);
    for line in BufReader::new(alloc, rt.reader())?.lines(alloc) {
        let text = desk.answer(alloc, line?.as_str())?;
        out.write_all(text.as_bytes())?;
    }
    out.flush()
}
