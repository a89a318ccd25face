// What is written on a page.
ghost use Rattle.std.specs.Prelude.{◌≡◌, ◌<◌, ◌≤◌, ◌+◌, true, length, map};
ghost use Rattle.event_table.specs.Elements.{bytes_of};
ghost use Rattle.event_table.specs.Lawful.{IsLawfulAccess};
ghost use Rattle.device_bus.specs.declared.answer.Answer.TheVariants.{Done};
ghost use Rattle.page_words.specs.Told.{kept_after_all, store};
ghost use Rattle.ghcb_layout.specs.Bitmap.{bit_if as bit_of_field, bitmap_of as bits_of_words, word_if};
ghost use Rattle.host_events.specs.Served as replies;
ghost use Rattle.host_events.specs.Served.{IsLawfulAnswer, bitmap_words, stores_of};

use device_bus::{Answer, cpuid_register};
use event_table::{Access, Results, Values, kind_of, row_of};
use exit_info::Inject;
use ghcb_layout::{Bitmap, Field, bit_if, word_of};
use msr_protocol::{MsrWord, write};
use page_words::{Page, Word, Words};
use string_io::store_buffer;

/// The exception that answers a page that breaks a rule: #GP with the error code 0.
const REFUSAL: Inject = Inject {
    vector: 13,
    code: 0,
};

/// What answers `SevInfoRequest`: version 1 alone, and bit 51 of a page table entry marks encrypted memory.
const SEV_INFO: MsrWord = MsrWord::SevInfo {
    max: 1,
    min: 1,
    c_bit: 51,
};

/// Stores the valid bitmap.
fn store_bitmap(page: &mut Words, bitmap: &Bitmap)
    ensures stored { page.new ≡ kept_after_all page.old (map store (bitmap_words bitmap.now)) }
{
    page.store(Word::BITMAP_LOW, bitmap.low);
    page.store(Word::BITMAP_HIGH, bitmap.high);
}

/// Stores a result, where the row has it.
fn store_if(page: &mut Words, field: Field, wanted: bool, value: u64)
    ensures stored { page.new ≡ kept_after_all page.old (map store (word_if field wanted value)) }
{
    if wanted {
        page.store(word_of(field), value);
    }
}

/// The bits of both exit infos, in the upper word of the valid bitmap.
fn infos() -> u64
    ensures value { result ≡ bit_of_field Field.ExitInfo1 true + bit_of_field Field.ExitInfo2 true }
{
    bit_if(Field::ExitInfo1, true) + bit_if(Field::ExitInfo2, true)
}

/// The valid bitmap of a reply: the bits of both exit infos, and of the results.
fn bitmap_of(results: &Results) -> Bitmap
    ensures done { (values : Values) → result ≡ bits_of_words (replies.done_words results.now values) }
{
    let upper = bit_if(Field::Rcx, results.c)
        + bit_if(Field::Rdx, results.d)
        + bit_if(Field::Rbx, results.b);
    Bitmap {
        low: bit_if(Field::Rax, results.a),
        high: infos() + upper,
    }
}

/// Stores status 0 and the results.
fn store_done(page: &mut Words, results: &Results, values: &Values)
    ensures stored { page.new ≡ kept_after_all page.old (stores_of (replies.done_words results.now values.now)) }
{
    page.store(word_of(Field::ExitInfo1), 0);
    page.store(word_of(Field::ExitInfo2), 0);
    store_if(page, Field::Rax, results.a, values.a);
    store_if(page, Field::Rcx, results.c, values.c);
    store_if(page, Field::Rdx, results.d, values.d);
    store_if(page, Field::Rbx, results.b, values.b);
    store_bitmap(page, &bitmap_of(results));
}

/// Stores status 1 and the exception.
fn store_raise(page: &mut Words, word: u64)
    ensures stored { page.new ≡ kept_after_all page.old (stores_of (replies.raise_words word)) }
{
    page.store(word_of(Field::ExitInfo1), 1);
    page.store(word_of(Field::ExitInfo2), word);
    store_bitmap(
        page,
        &Bitmap {
            low: 0,
            high: infos(),
        },
    );
}

/// Refuses a page that breaks a rule.
pub fn store_refusal(page: &mut Words)
    ensures stored { page.new ≡ kept_after_all page.old replies.refusal }
{
    store_raise(page, REFUSAL.write());
}

/// Stores a reply with its data in the shared buffer: status 0, and the bytes that come back.
pub fn store_buffer_reply(bytes: &[u8], page: &mut Words)
    requires few { length bytes.now ≤ 2032 }
    ensures stored { page.new ≡ kept_after_all page.old (replies.buffer_reply bytes.now) }
{
    page.store(word_of(Field::ExitInfo1), 0);
    page.store(word_of(Field::ExitInfo2), 0);
    store_buffer(bytes, page);
    store_bitmap(page, &Bitmap::from_words(0, infos()));
}

/// Stores the reply to an MMIO read: status 0, and the low bytes of a value.
fn store_value(len: u8, value: u64, page: &mut Words)
    requires len { len ≤ 8 }
    ensures stored { page.new ≡ kept_after_all page.old (replies.buffer_reply (bytes_of len value)) }
{
    store_buffer_reply(&value.to_le_bytes()[..usize::from(len)], page);
}

/// Stores the reply to an access that is done.
fn store_values(access: &Access, values: &Values, page: &mut Words)
    requires access { IsLawfulAccess access.now }
    ensures stored { page.new ≡ kept_after_all page.old (replies.access_reply access.now (Done values.now)) }
{
    match *access {
        Access::MmioRead { len, .. } => store_value(len, values.a, page),
        _ => store_done(page, &row_of(&kind_of(access)).results, values),
    }
}

/// Stores the reply to an access: its data, or the exception that the guest is to raise.
pub fn store_reply(access: &Access, answer: &Answer, page: &mut Words)
    requires access { IsLawfulAccess access.now }
    requires answer { IsLawfulAnswer answer.now }
    ensures stored { page.new ≡ kept_after_all page.old (replies.access_reply access.now answer.now) }
{
    match *answer {
        Answer::Done(values) => store_values(access, &values, page),
        Answer::Raise { vector, code } => store_raise(page, Inject { vector, code }.write()),
    }
}

/// The MSR word that answers `SevInfoRequest`.
pub fn sev_info() -> u64
    ensures word { result ≡ replies.sev_info }
{
    write(&SEV_INFO)
}

/// The MSR word that answers `CpuidRequest`.
pub fn cpuid_response(vcpu: u16, function: u32, register: u8) -> u64
    requires vcpu { vcpu < 256 }
    requires register { register < 4 }
    ensures word { result ≡ replies.cpuid_response vcpu function register }
{
    let value = cpuid_register(vcpu, function, register);
    write(&MsrWord::CpuidResponse { value, register })
}
