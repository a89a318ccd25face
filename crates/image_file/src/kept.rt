// The instructions that were decoded last, by the low six bits of their addresses.
ghost use Rattle.std.specs.Prelude.{◌≡◌, ◌%◌, IfOk, option_map, replicate, slice_set};
ghost use Rattle.image_file.specs.Kept.{kept_at, kept_insn, no_insn};

use std::alloc::{AllocError as OutOfMemory, Global};
use std::marker::Model;
use x86_base::Insn;

/// An instruction that was decoded at an address, or none yet.
#[derive(Clone, Copy)]
pub struct Kept {
    pub at: u64,
    pub insn: Option<Insn>,
}

impl Kept {
    /// None yet.
    pub const NONE: Kept = Kept { at: 0, insn: None };
}

/// What is kept in 64 slots: an address has that of its low six bits.
#[derive(Drop)]
pub struct Slots {
    items: Vec<Kept>,
}

impl Model for Slots {
    ghost use Rattle.std.specs.Prelude.{◌≡◌, List, vec_len};
    ghost use Rattle.image_file.specs.declared.kept.Kept.{Kept};

    ghost Value = { List Kept };

    ghost view = { λ s. s.items.items };

    ghost invariant = { λ s. vec_len s.items ≡ 64 };
}

impl Slots {
    /// Slots that keep nothing.
    pub fn new(alloc: Global) -> Result<Slots, OutOfMemory>
        ensures none { IfOk result (λ slots. slots ≡ replicate 64 no_insn) }
    {
        let mut items = Vec::with_capacity(alloc, 64)?;
        items.resize(64, Kept::NONE)?;
        Ok(Slots { items })
    }

    /// The instruction that is kept of an address.
    pub fn at(&self, address: u64) -> Option<&Insn>
        ensures kept { option_map (λ insn. insn.now) result ≡ kept_at self.now address }
    {
        let kept = &self.items[(address % 64) as usize];
        if kept.at == address {
            kept.insn.as_ref()
        } else {
            None
        }
    }

    /// Keeps an instruction of an address, in the place of what its slot kept.
    pub fn keep(&mut self, address: u64, insn: &Insn)
        ensures kept { self.new ≡ slice_set self.old (address % 64) (kept_insn address insn.now) }
    {
        self.items[(address % 64) as usize] = Kept {
            at: address,
            insn: Some(*insn),
        };
    }
}
