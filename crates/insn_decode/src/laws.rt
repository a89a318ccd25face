// What holds of every spelling, and of what bytes are read as.
ghost use Rattle.std.specs.Prelude.{◌≡◌, ◌++◌, ◌↔◌, [], List, ℕ, Ok, Err};
ghost use Rattle.insn_decode.specs.Laws.{HasCondition};
ghost use Rattle.insn_decode.specs.Reading.{decode_of};
ghost use Rattle.insn_decode.specs.Refusals.{IsShort, IsTooLong, SpellsNothing};
ghost use Rattle.insn_decode.specs.declared.fault.DecodeFault.{DecodeFault};
ghost use Rattle.insn_decode.specs.declared.fault.DecodeFault.TheVariants.{Short, TooLong, Undecoded};
ghost use Rattle.x86_base.specs.declared.insn.Insn.{Insn};
ghost use Rattle.x86_base.specs.Spelling.{AreBytes, Begins, Spells};

/// Bytes spell one instruction at most, and no spelling is a proper prefix of another.
pub fn one_spelling()
    ensures law { (a x : List ℕ) (m n : Insn) → Spells a m → Spells (a ++ x) n → (x ≡ []) × (m ≡ n) }
{}

/// The condition of a Jcc, Setcc or Cmovcc that has a spelling is below 16.
pub fn conditions()
    ensures law { (bytes : List ℕ) (insn : Insn) → Spells bytes insn → HasCondition insn.op }
{}

/// What `decode_of` says of any list of bytes, each below 256, by the spellings alone: the instruction
/// whose spelling of at most 15 bytes stands at the front, and else which of the three refusals.
pub fn read_by_spelling()
    ensures instruction { (bytes : List ℕ) (insn : Insn) → AreBytes bytes →
        (decode_of bytes ≡ Ok insn) ↔ Begins bytes insn }
    ensures too_long { (bytes : List ℕ) → AreBytes bytes → (decode_of bytes ≡ Err TooLong) ↔ IsTooLong bytes }
    ensures short { (bytes : List ℕ) → AreBytes bytes → (decode_of bytes ≡ Err Short) ↔ IsShort bytes }
    ensures undecoded { (bytes : List ℕ) → AreBytes bytes → (decode_of bytes ≡ Err Undecoded) ↔ SpellsNothing bytes }
{}
