// Files and a sink, whoever stands behind them.
ghost use Rattle.std.specs.Prelude.{◌≡◌, ◌-◌, ◌≤◌, IfSome, IfOk, IsOk, OnOk, OnErr, option_map, length};
ghost use Rattle.run_io.specs.Outside.{FilesTold, SinkTold, Rose, Piece, Puts, IsReadable, HasSpace, wrote};

/// A read or a write failed.
#[derive(Clone, Copy, Debug, PartialEq, Eq)]
pub struct Failed;

/// Files by their names.
pub trait Files {
    /// What is in the folder, where it is told, how many faults there were, and whether it is told that no
    /// read of a file that is there is to fail.
    ghost told: { Self → FilesTold };

    /// Reads bytes of a file from offset `at` on into the slice, and says how many came: 0 for a slice
    /// that isn't empty is the file's end. An absent name is a fault.
    fn read(&mut self, name: &str, at: u64, into: &mut [u8]) -> Result<usize, Failed>
        ensures bound { IfOk result (λ n. n ≤ length into.old) }
        ensures size { length into.new ≡ length into.old }
        ensures bytes { IfOk result (λ n. IfSome (told self.old).folder (λ folder.
            Piece folder name.now at n into.new)) }
        ensures folder { (told self.new).folder ≡ (told self.old).folder }
        ensures later { (told self.old).faults ≤ (told self.new).faults }
        ensures failed { OnErr result (Rose (told self.old).faults (told self.new).faults) }
        ensures readable { IsReadable (told self.old) name.now
            → IsOk result × ((told self.new).faults ≡ (told self.old).faults) }
        ensures reliable { (told self.new).is_reliable ≡ (told self.old).is_reliable };
}

/// A place to write to.
pub trait Sink {
    /// What was written, where it is told, how many faults there were, and how many bytes can be put without
    /// one, where that is told.
    ghost told: { Self → SinkTold };

    /// Writes the bytes; refused, a prefix of them was written.
    fn put(&mut self, bytes: &[u8]) -> Result<(), Failed>
        ensures ok { OnOk result ((told self.new).written ≡ wrote (told self.old).written bytes.now) }
        ensures later { (told self.old).faults ≤ (told self.new).faults }
        ensures failed { OnErr result (Rose (told self.old).faults (told self.new).faults) }
        ensures part { OnErr result (Puts (told self.old).written bytes.now (told self.new).written) }
        ensures fits { HasSpace (told self.old) (length bytes.now)
            → IsOk result × ((told self.new).faults ≡ (told self.old).faults) }
        ensures room { (told self.new).room ≡ option_map (λ room. room - length bytes.now) (told self.old).room };
}
