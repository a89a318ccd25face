ghost use Rattle.std.specs.Prelude.{◌≡◌, ◌<◌, ◌==◌, ◌↔◌};
ghost use Rattle.std.specs.List.{find};
ghost use Rattle.ghcb_layout.specs.Field.{name_of, offset_of, word_number, field_from};

use page_words::Word;

/// A value of the page that has a name and a bit in the valid bitmap.
#[derive(Clone, Copy, Debug, PartialEq, Eq)]
pub enum Field {
    /// The current privilege level, one byte.
    Cpl,
    Xss,
    Dr7,
    Rip,
    Rsp,
    Rax,
    Rcx,
    Rdx,
    Rbx,
    Rbp,
    Rsi,
    Rdi,
    R8,
    R9,
    R10,
    R11,
    R12,
    R13,
    R14,
    R15,
    ExitCode,
    ExitInfo1,
    ExitInfo2,
    Scratch,
    Xcr0,
}

/// An offset at which no field begins.
#[derive(Clone, Copy, Debug, PartialEq, Eq)]
pub struct NotAField;

/// Each field once, in the order of the page.
const FIELDS: [Field; 25] = [
    Field::Cpl,
    Field::Xss,
    Field::Dr7,
    Field::Rip,
    Field::Rsp,
    Field::Rax,
    Field::Rcx,
    Field::Rdx,
    Field::Rbx,
    Field::Rbp,
    Field::Rsi,
    Field::Rdi,
    Field::R8,
    Field::R9,
    Field::R10,
    Field::R11,
    Field::R12,
    Field::R13,
    Field::R14,
    Field::R15,
    Field::ExitCode,
    Field::ExitInfo1,
    Field::ExitInfo2,
    Field::Scratch,
    Field::Xcr0,
];

/// A field's name in print and the offset of its first byte: the table of the page.
fn row_of(field: Field) -> (&'static str, u16)
    ensures name { result.0.now ≡ name_of field }
    ensures offset { result.1 ≡ offset_of field }
    ensures in_bitmap { result.1 < 1024 }
{
    match field {
        Field::Cpl => ("cpl", 0x0CB),
        Field::Xss => ("xss", 0x140),
        Field::Dr7 => ("dr7", 0x160),
        Field::Rip => ("rip", 0x178),
        Field::Rsp => ("rsp", 0x1D8),
        Field::Rax => ("rax", 0x1F8),
        Field::Rcx => ("rcx", 0x308),
        Field::Rdx => ("rdx", 0x310),
        Field::Rbx => ("rbx", 0x318),
        Field::Rbp => ("rbp", 0x328),
        Field::Rsi => ("rsi", 0x330),
        Field::Rdi => ("rdi", 0x338),
        Field::R8 => ("r8", 0x340),
        Field::R9 => ("r9", 0x348),
        Field::R10 => ("r10", 0x350),
        Field::R11 => ("r11", 0x358),
        Field::R12 => ("r12", 0x360),
        Field::R13 => ("r13", 0x368),
        Field::R14 => ("r14", 0x370),
        Field::R15 => ("r15", 0x378),
        Field::ExitCode => ("exitcode", 0x390),
        Field::ExitInfo1 => ("exitinfo1", 0x398),
        Field::ExitInfo2 => ("exitinfo2", 0x3A0),
        Field::Scratch => ("scratch", 0x3A8),
        Field::Xcr0 => ("xcr0", 0x3E8),
    }
}

/// The field's name in print.
pub fn name(field: Field) -> &'static str
    ensures value { result.now ≡ name_of field }
{
    row_of(field).0
}

/// The offset of the field's first byte in the page.
pub fn offset(field: Field) -> u16
    ensures value { result ≡ offset_of field }
{
    row_of(field).1
}

/// The word that holds the field.
pub fn word_of(field: Field) -> Word
    ensures value { result ≡ word_number field }
{
    Word::new(row_of(field).1 / 8).unwrap()
}

/// The field's bit in the valid bitmap, which is the number of its word.
pub fn bit_of(field: Field) -> u8
    ensures number { result ≡ word_number field }
    ensures in_bitmap { result < 128 }
{
    (row_of(field).1 / 8) as u8
}

/// The field whose first byte is at an offset.
pub fn field_at(offset: u16) -> Result<Field, NotAField>
    ensures value { result ≡ field_from offset }
    ensures ok { (field : Field) → (result ≡ Ok field) ↔ (offset_of field ≡ offset) }
{
    field_in(&FIELDS, offset).ok_or(NotAField)
}

/// The first of these fields whose first byte is at an offset.
fn field_in(fields: &[Field], at: u16) -> Option<Field>
    ensures { result ≡ find (λ field. offset_of field == at) fields.now }
{
    fields.iter().copied().find(|field| offset(*field) == at)
}
