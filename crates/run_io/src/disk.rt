// The real files and the standard output.
ghost use Rattle.std.specs.Prelude.{◌≡◌, ◌≤◌, None, false, IfOk, length};

use crate::outside::{Failed, Files, Sink};
use std::alloc::Global;
use std::io::{self, Read, Seek, SeekFrom, Write};
use std::{fs, rt};

/// A file that is open, its name, and how far it was read.
#[derive(Drop)]
struct OpenFile<F: Read + Seek + Drop> {
    name: String,
    file: F,
    at: u64,
}

/// Opens a file to be read from offset `at` on. At offset 0 it needn't be one that can be sought in.
fn open_at<R: rt::Files>(
    rt: &R,
    alloc: Global,
    name: &str,
    at: u64,
) -> io::Result<OpenFile<R::File>> {
    let mut file = fs::open(rt, name)?;
    if at > 0 {
        file.seek(SeekFrom::Start(at))?;
    }
    let name = String::from_str(alloc, name)?;
    Ok(OpenFile { name, file, at })
}

/// The files of the system. A file is opened where it is read from its beginning, and read on where it
/// stands, so that a pipe serves as well, and one that is replaced meanwhile is read to its end. They tell
/// no content; each error counts as a fault.
#[derive(Drop)]
pub struct DiskFiles<'a, R: rt::Files> {
    rt: &'a R,
    alloc: Global,
    open: Option<OpenFile<R::File>>,
    faults: u64,
}

impl<'a, R: rt::Files> DiskFiles<'a, R> {
    /// The files that the runtime reaches, with no fault yet.
    pub fn new(rt: &'a R, alloc: Global) -> DiskFiles<'a, R>
        ensures faults { result.faults ≡ 0 }
    {
        DiskFiles {
            rt,
            alloc,
            open: None,
            faults: 0,
        }
    }

    /// Reads on in the file that is open, if it has this name and stands at `at`, or else in one that is opened there.
    fn read_on(&mut self, name: &str, at: u64, into: &mut [u8]) -> io::Result<usize>
        ensures bound { IfOk result (λ n. n ≤ length into.old) }
        ensures size { length into.new ≡ length into.old }
        ensures faults { self.new.faults ≡ self.old.faults }
    {
        let mut open = match self.open.take() {
            Some(open) if at > 0 && open.at == at && open.name.as_str() == name => open,
            _ => open_at(self.rt, self.alloc, name, at)?,
        };
        let n = open.file.read(into)?;
        open.at = at.saturating_add(n as u64);
        self.open = Some(open);
        Ok(n)
    }
}

impl<'a, R: rt::Files> Files for DiskFiles<'a, R> {
    ghost told = { λ d. record { folder = None; faults = d.faults; is_reliable = false } };

    fn read(&mut self, name: &str, at: u64, into: &mut [u8]) -> Result<usize, Failed> {
        match self.read_on(name, at, into) {
            Ok(n) => Ok(n),
            Err(_) => {
                self.faults = self.faults.saturating_add(1);
                Err(Failed)
            }
        }
    }
}

/// The standard output. It tells no content; each error counts as a fault, and so does a write that
/// takes no byte.
#[derive(Drop)]
pub struct OutSink<'a, R: Print> {
    rt: &'a R,
    faults: u64,
}

impl<'a, R: Print> OutSink<'a, R> {
    /// The runtime's standard output, with no fault yet.
    pub fn new(rt: &'a R) -> OutSink<'a, R>
        ensures faults { result.faults ≡ 0 }
    {
        OutSink { rt, faults: 0 }
    }
}

/// Writes the bytes to the standard output, and nothing of them is kept back.
fn write_all<R: Print>(rt: &R, bytes: &[u8]) -> io::Result<()> {
    let mut out = io::writer(rt);
    out.write_all(bytes)?;
    out.flush()
}

impl<'a, R: Print> Sink for OutSink<'a, R> {
    ghost told = { λ o. record { written = None; faults = o.faults; room = None } };

    fn put(&mut self, bytes: &[u8]) -> Result<(), Failed> {
        match write_all(self.rt, bytes) {
            Ok(()) => Ok(()),
            Err(_) => {
                self.faults = self.faults.saturating_add(1);
                Err(Failed)
            }
        }
    }
}
