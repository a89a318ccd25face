// Files in memory.
ghost use Rattle.std.specs.Prelude.{◌≡◌, ◌≢◌, ◌≤◌, ◌-◌, ◌^◌, ◌⊎◌, ◌++◌, ◌∷◌, [], find, length, take, drop, OnOk, OnErr};
ghost use Rattle.std.specs.Option.{option_copied};
ghost use Rattle.std.specs.Str.{bytes_eq};
ghost use Rattle.std.specs.String.{string_bytes};

use crate::outside::{Failed, Files};
use std::alloc::{AllocError as OutOfMemory, Global};

/// A file in memory.
#[derive(Drop)]
pub struct File {
    name: String,
    bytes: Vec<u8>,
}

/// A folder in memory that tells everything: a read gives at most so many bytes at once, and the calls
/// whose numbers are listed, from 1 on, fail.
#[derive(Drop)]
pub struct MemFiles {
    alloc: Global,
    files: Vec<File>,
    most: usize,
    failing: Vec<u64>,
    calls: u64,
    faults: u64,
    ghost some: { most ≢ 0 },
}

/// The file of that name.
fn file_of<'a>(files: &'a [File], name: &str) -> Option<&'a File>
    ensures { option_copied result ≡ find (λ f. bytes_eq (string_bytes f.name) name.now) files.now }
{
    files.iter().find(|f| f.name.as_str() == name)
}

/// Copies bytes from `at` on, as many as there are, as fit, and at most so many.
fn copy_from(bytes: &[u8], at: u64, most: usize, into: &mut [u8]) -> usize
    requires some { most ≢ 0 }
    ensures bound { result ≤ length into.old }
    ensures size { length into.new ≡ length into.old }
    ensures copied { take result into.new ≡ take result (drop at bytes.now) }
    ensures within { result ≤ length bytes.now - at }
    ensures ended { result ≡ 0 → (length into.new ≡ 0) ⊎ (length bytes.now ≤ at) }
{
    if at >= bytes.len() as u64 {
        return 0;
    }
    let from = at as usize;
    let n = most.min(into.len()).min(bytes.len() - from);
    into[..n].copy_from_slice(&bytes[from..from + n]);
    n
}

impl MemFiles {
    ghost use Rattle.run_io.specs.Memory.{files_in, habits};

    /// An empty folder whose reads give as much as is asked, and none of whose calls fails.
    pub fn new(alloc: Global) -> MemFiles
        ensures files { files_in result ≡ [] }
        ensures habits { habits result ≡ (2 ^ 64 - 1, [], 0, 0) }
    {
        MemFiles {
            alloc,
            files: Vec::new(alloc),
            most: usize::MAX,
            failing: Vec::new(alloc),
            calls: 0,
            faults: 0,
        }
    }

    /// Adds a file after the others; of two files of one name the first is read. Refused, the folder is
    /// as before.
    pub fn add(&mut self, name: &str, bytes: &[u8]) -> Result<(), OutOfMemory>
        ensures added { OnOk result (files_in self.new ≡ files_in self.old ++ ((name.now, bytes.now) ∷ [])) }
        ensures refused { OnErr result (files_in self.new ≡ files_in self.old) }
        ensures habits { habits self.new ≡ habits self.old }
    {
        let file = File {
            name: String::from_str(self.alloc, name)?,
            bytes: bytes.to_vec(self.alloc)?,
        };
        self.files.push(file)?;
        Ok(())
    }

    /// Lets a read give at most so many bytes.
    pub fn set_piece(&mut self, most: usize)
        requires some { most ≢ 0 }
        ensures files { files_in self.new ≡ files_in self.old }
        ensures most { habits self.new ≡ (most, self.old.failing.items, self.old.calls, self.old.faults) }
    {
        self.most = most;
    }

    /// Lets the call of that number fail; the first is 1. Refused, all is as before.
    pub fn fail(&mut self, call: u64) -> Result<(), OutOfMemory>
        ensures files { files_in self.new ≡ files_in self.old }
        ensures failing { OnOk result (habits self.new
            ≡ (self.old.most, self.old.failing.items ++ (call ∷ []), self.old.calls, self.old.faults)) }
        ensures refused { OnErr result (habits self.new ≡ habits self.old) }
    {
        self.failing.push(call)?;
        Ok(())
    }
}

impl Files for MemFiles {
    ghost use Rattle.run_io.specs.Memory.{folder_told};

    ghost told = { folder_told };

    fn read(&mut self, name: &str, at: u64, into: &mut [u8]) -> Result<usize, Failed> {
        self.calls = self.calls.saturating_add(1);
        if !self.failing.contains(&self.calls) {
            if let Some(file) = file_of(&self.files, name) {
                return Ok(copy_from(&file.bytes, at, self.most, into));
            }
        }
        self.faults = self.faults.saturating_add(1);
        Err(Failed)
    }
}
