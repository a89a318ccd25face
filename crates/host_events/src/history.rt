// The history: the events that were served, in few bytes each.
ghost use Rattle.std.specs.Prelude.{◌≡◌, ◌<◌, ◌≤◌, ◌^◌, List, ℕ, [], ◌∷◌, ◌++◌, OnOk, OnErr, length, map, slice_get};
ghost use Rattle.event_table.specs.declared.event.Event.TheVariants.{One, Many};
ghost use Rattle.event_table.specs.Lawful.{count_of};
ghost use Rattle.event_table.specs.Turns.{turn_of};
ghost use Rattle.host_events.specs.Kept.{event_kept};

use event_table::{Access, Block, Turn};
use std::alloc::{AllocError as OutOfMemory, Global};
use std::marker::Model;

/// A block, and where its bytes stand among those of all blocks.
#[derive(Clone, Copy)]
struct KeptBlock {
    start: usize,
    len: u16,
    port: u16,
    count: u16,
    size: u8,
    input: bool,
    rep: bool,
}

/// What was served.
#[derive(Clone, Copy)]
enum KeptEvent {
    One(Access),
    Many(KeptBlock),
}

impl KeptEvent {
    /// How many accesses it is.
    fn count(&self) -> u16
        ensures count { (bytes : List ℕ) → result ≡ count_of (event_kept bytes self.now) }
    {
        match self {
            KeptEvent::One(_) => 1,
            KeptEvent::Many(block) => block.count,
        }
    }
}

/// An event with the vCPU that asked for it.
#[derive(Clone, Copy)]
struct KeptEntry {
    vcpu: u16,
    event: KeptEvent,
}

/// The events that were served, in order. An event takes at most 48 bytes, and its bytes of output.
#[derive(Drop)]
pub struct History {
    entries: Vec<KeptEntry>,
    bytes: Vec<u8>,
}

impl Model for History {
    ghost use Rattle.std.specs.Prelude.{List, length};
    ghost use Rattle.event_table.specs.declared.turn.Entry.{Entry};

    ghost Value = { List Entry };

    ghost use Rattle.host_events.specs.Kept.{AreWithin, entries_kept};

    ghost view = { λ h. entries_kept h.bytes.items h.entries.items };

    ghost invariant = { λ h. AreWithin (length h.bytes.items) h.entries.items };
}

impl History {
    /// No events.
    pub fn new(alloc: Global) -> History
        ensures empty { result ≡ [] }
    {
        History {
            entries: Vec::new(alloc),
            bytes: Vec::new(alloc),
        }
    }

    /// Forgets all.
    pub fn clear(&mut self)
        ensures empty { self.new ≡ [] }
    {
        self.entries.clear();
        self.bytes.clear();
    }

    /// Appends an access. Refused, all is as before.
    pub fn push_access(&mut self, vcpu: u16, access: &Access) -> Result<(), OutOfMemory>
        ensures ok { OnOk result (self.new ≡ self.old ++ record { vcpu = vcpu; event = One access.now } ∷ []) }
        ensures err { OnErr result (self.new ≡ self.old) }
    {
        self.entries.reserve(1)?;
        self.entries.push_reserved(KeptEntry {
            vcpu,
            event: KeptEvent::One(*access),
        });
        Ok(())
    }

    /// Appends a block. Refused, all is as before.
    pub fn push_block(&mut self, vcpu: u16, block: &Block) -> Result<(), OutOfMemory>
        requires few { length block.now.bytes ≤ 2032 }
        ensures ok { OnOk result (self.new ≡ self.old ++ record { vcpu = vcpu; event = Many block.now } ∷ []) }
        ensures err { OnErr result (self.new ≡ self.old) }
    {
        let start = self.bytes.len();
        let bytes = block.bytes.as_slice();
        self.entries.reserve(1)?;
        self.bytes.extend_from_slice(bytes)?;
        self.entries.push_reserved(KeptEntry {
            vcpu,
            event: KeptEvent::Many(KeptBlock {
                start,
                len: bytes.len() as u16,
                port: block.port,
                count: block.count,
                size: block.size,
                input: block.input,
                rep: block.rep,
            }),
        });
        Ok(())
    }

    /// How many events there are: fewer than 2^63.
    pub fn len(&self) -> u64
        ensures count { result ≡ length self.now }
        ensures few { length self.now < 2 ^ 63 }
    {
        self.entries.len() as u64
    }

    /// The vCPU and the count of an event; none exactly where there are fewer.
    pub fn turn(&self, index: u64) -> Option<Turn>
        ensures turn { result ≡ slice_get (map turn_of self.now) index }
    {
        let entry = self.entries.get(index as usize)?;
        Some(Turn {
            vcpu: entry.vcpu,
            count: entry.event.count(),
        })
    }
}

#[cfg(test)]
mod tests {
    use super::{History, KeptEntry, KeptEvent};
    use event_table::{Access, Block, Bytes, Turn};
    use std::alloc::{AllocError as OutOfMemory, Global};
    use std::mem::size_of;
    use std::test::Fail;

    /// A block of output with these bytes, or of input where there are none.
    fn block(bytes: &[u8], count: u16) -> Block
        requires few { length bytes.now ≤ 2032 }
        ensures few { length result.bytes ≤ 2032 }
    {
        let mut shown = Bytes::new();
        shown.extend_from_slice(bytes);
        Block {
            port: 0x3F8,
            size: 1,
            input: bytes.is_empty(),
            rep: true,
            count,
            bytes: shown,
        }
    }

    #[test]
    fn an_entry_takes_at_most_48_bytes(rt: HostRuntime) {
        assert!(rt; size_of::<KeptEntry>() <= 48);
    }

    #[test]
    fn blocks_have_their_counts_and_their_bytes(rt: HostRuntime) -> Result<(), Fail> {
        let mut history = History::new(rt.alloc());
        history.push_block(0, &block(b"abc", 3))?;
        history.push_access(1, &Access::Rdtsc)?;
        history.push_block(2, &block(b"", 700))?;
        history.push_block(3, &block(b"de", 2))?;
        assert_eq!(rt; history.len(), 4);
        assert_eq!(rt; history.turn(0), Some(Turn { vcpu: 0, count: 3 }));
        assert_eq!(rt; history.turn(1), Some(Turn { vcpu: 1, count: 1 }));
        assert_eq!(rt;
            history.turn(2),
            Some(Turn {
                vcpu: 2,
                count: 700
            })
        );
        assert_eq!(rt; history.turn(3), Some(Turn { vcpu: 3, count: 2 }));
        assert_eq!(rt; history.turn(4), None);
        assert_eq!(rt; history.bytes.as_slice(), b"abcde".as_slice());
        let places: [(usize, u16); 4] = [(0, 3), (0, 0), (3, 0), (3, 2)];
        for (entry, place) in history.entries.iter().zip(places) {
            let kept = match entry.event {
                KeptEvent::One(_) => (0, 0),
                KeptEvent::Many(block) => (block.start, block.len),
            };
            assert_eq!(rt; kept, place);
        }
        history.clear();
        assert_eq!(rt; history.len(), 0);
        assert_eq!(rt; history.turn(0), None);
        Ok(())
    }

    /// What the bytes of a block are, by its number.
    fn filling(number: u32) -> u8 {
        (number % 251) as u8
    }

    /// So many blocks of so many bytes each, with the bytes of their numbers.
    fn filled<const LEN: usize>(alloc: Global, many: u32) -> Result<History, OutOfMemory>
        requires few { LEN ≤ 2032 }
    {
        let mut history = History::new(alloc);
        let mut block = block(b"", LEN as u16);
        for number in 0..many {
            block.bytes.truncate(0);
            block.bytes.extend_from_slice(&[filling(number); LEN]);
            history.push_block(1, &block)?;
        }
        Ok(history)
    }

    /// The bytes of an entry: none where it is no block.
    fn bytes_of<'a>(history: &'a History, entry: &KeptEntry) -> &'a [u8] {
        match entry.event {
            KeptEvent::One(_) => &[],
            KeptEvent::Many(block) => history
                .bytes
                .get(block.start..)
                .and_then(|rest| rest.get(..usize::from(block.len)))
                .unwrap_or(&[]),
        }
    }

    /// Whether an entry is the block of that number with so many bytes.
    fn is_block(history: &History, number: u32, len: usize) -> bool {
        let Some(entry) = history.entries.get(number as usize) else {
            return false;
        };
        let bytes = bytes_of(history, entry);
        entry.vcpu == 1 && bytes.len() == len && bytes.iter().all(|byte| *byte == filling(number))
    }

    /// Whether the entries are so many such blocks.
    fn are_blocks(history: &History, many: u32, len: u16) -> bool {
        let turn = Some(Turn {
            vcpu: 1,
            count: len,
        });
        history.len() == u64::from(many)
            && (0..many).all(|number| history.turn(u64::from(number)) == turn
                && is_block(history, number, usize::from(len)))
    }

    #[test]
    fn a_million_blocks_of_one_byte_are_read_back(rt: HostRuntime) -> Result<(), Fail> {
        let history = filled::<1>(rt.alloc(), 1_000_000)?;
        assert!(rt; are_blocks(&history, 1_000_000, 1));
        Ok(())
    }

    #[test]
    fn a_thousand_full_blocks_are_read_back(rt: HostRuntime) -> Result<(), Fail> {
        let history = filled::<2032>(rt.alloc(), 1000)?;
        assert!(rt; are_blocks(&history, 1000, 2032));
        Ok(())
    }
}
