// A sink in memory.
ghost use Rattle.std.specs.Prelude.{◌≡◌, ◌≤◌, ◌-◌, ◌++◌, ◌∷◌, [], Some, false, min, length, vec_capacity, IfOk, OnOk, OnErr};

use crate::outside::{Failed, Sink};
use std::alloc::{AllocError as OutOfMemory, Global};

/// A call that fails, and how many bytes go out first.
#[derive(Clone, Copy, Drop)]
struct Failure {
    call: u64,
    first: usize,
}

/// A sink in memory that tells everything: it has room for so many bytes, and the calls whose numbers
/// are listed, from 1 on, fail.
#[derive(Drop)]
pub struct MemSink {
    written: Vec<u8>,
    room: usize,
    failing: Vec<Failure>,
    calls: u64,
    faults: u64,
    ghost reserved: { room ≤ vec_capacity written },
}

impl MemSink {
    ghost use Rattle.run_io.specs.Memory.{failures, counts};

    /// An empty sink with room for so many bytes, and none of whose calls fails.
    pub fn new(alloc: Global, room: usize) -> Result<MemSink, OutOfMemory>
        ensures written { IfOk result (λ sink. sink.written.items ≡ []) }
        ensures failures { IfOk result (λ sink. failures sink ≡ []) }
        ensures counts { IfOk result (λ sink. counts sink ≡ (room, 0, 0)) }
    {
        Ok(MemSink {
            written: Vec::with_capacity(alloc, room)?,
            room,
            failing: Vec::new(alloc),
            calls: 0,
            faults: 0,
        })
    }

    /// What was written.
    pub fn written(&self) -> &[u8]
        ensures bytes { result.now ≡ self.now.written.items }
    {
        &self.written
    }

    /// Lets the call of that number fail, the first being 1, once at most `first` bytes have gone out.
    /// Refused, all is as before.
    pub fn fail(&mut self, call: u64, first: usize) -> Result<(), OutOfMemory>
        ensures written { self.new.written.items ≡ self.old.written.items }
        ensures failing { OnOk result (failures self.new ≡ failures self.old ++ ((call, first) ∷ [])) }
        ensures refused { OnErr result (failures self.new ≡ failures self.old) }
        ensures counts { counts self.new ≡ counts self.old }
    {
        self.failing.push(Failure { call, first })?;
        Ok(())
    }

    /// How many of the bytes go out at this call.
    fn going(&self, bytes: &[u8]) -> usize
        ensures within { result ≤ length bytes.now }
        ensures room { result ≤ self.now.room - length self.now.written.items }
        ensures fits { self.now.failing.items ≡ []
            → result ≡ min (length bytes.now) (self.now.room - length self.now.written.items) }
    {
        let fits = bytes
            .len()
            .min(self.room.saturating_sub(self.written.len()));
        match self.failing.iter().find(|f| f.call == self.calls) {
            Some(failure) => fits.min(failure.first),
            None => fits,
        }
    }

    /// Whether this call is to fail.
    fn is_failing(&self) -> bool
        ensures none { self.now.failing.items ≡ [] → result ≡ false }
    {
        self.failing.iter().any(|f| f.call == self.calls)
    }
}

impl Sink for MemSink {
    ghost use Rattle.run_io.specs.Memory.{paper_told};

    ghost told = { paper_told };

    fn put(&mut self, bytes: &[u8]) -> Result<(), Failed> {
        self.calls = self.calls.saturating_add(1);
        let is_failing = self.is_failing();
        let going = self.going(bytes);
        let put = self.written.extend_from_slice(&bytes[..going]);
        if put.is_err() || going < bytes.len() || is_failing {
            self.faults = self.faults.saturating_add(1);
            return Err(Failed);
        }
        Ok(())
    }
}
