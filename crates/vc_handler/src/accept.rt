// How the words of a reply are taken.
ghost use Rattle.std.specs.Prelude.{◌≡◌, ℕ, ◌≤◌, ◌+◌, []};
ghost use Rattle.page_words.specs.Dialogue.{Reads};
ghost use Rattle.exit_info.specs.Inject.{request_of};
ghost use Rattle.image_file.specs.Number.{IsLength};
ghost use Rattle.event_table.specs.declared.access.Access.TheVariants as access;
ghost use Rattle.event_table.specs.declared.event.Event.TheVariants.{One, Many};
ghost use Rattle.event_table.specs.declared.outcome.Outcome.TheVariants.{Done};
ghost use Rattle.event_table.specs.declared.outcome.Reply.{Reply};
ghost use Rattle.event_table.specs.Lawful.{IsLawfulAccess, IsLawfulBlock, IsLawfulEvent};
ghost use Rattle.string_io.specs.Buffers.{room_of};
ghost use Rattle.vc_handler.specs.Accept as accepting;
ghost use Rattle.vc_handler.specs.Accept.{no_values, outcome_done, outcome_in, reply_of};

use event_table::{Access, Block, Bytes, Event, Reason, Reply, Results, Values, kind_of, row_of};
use exit_info::Inject;
use ghcb_layout::{Bitmap, Field, bit_of, word_of};
use mmio_access::accept_mmio;
use page_words::{Page, Word};
use string_io::accept_block;

/// What the reply to an event comes to, where the reply itself stands in a place that was handed in: it is
/// there, an exception is to be raised, or the guest terminates.
#[derive(Clone, Copy, Debug, PartialEq, Eq)]
pub enum Answer {
    Done,
    Raise { vector: u8, code: u32 },
    Terminate(Reason),
}

/// The results of an event that has none.
const NO_VALUES: Values = Values {
    a: 0,
    c: 0,
    d: 0,
    b: 0,
};

/// No results and no bytes.
pub fn empty_reply() -> Reply
    ensures value { result ≡ reply_of no_values [] }
{
    Reply {
        values: NO_VALUES,
        bytes: Bytes::new(),
    }
}

/// Loads a word, where it is wanted, and else gives 0.
fn load_if<P: Page>(page: &mut P, wanted: bool, word: Word) -> u64
    requires room { 1 ≤ room_of (P.told page.old) }
    ensures reads { Reads (accepting.load_if wanted word) result (P.told page.old) (P.told page.new) }
    ensures room { room_of (P.told page.old) ≤ room_of (P.told page.new) + 1 }
{
    if wanted { page.load(word) } else { 0 }
}

/// Whether the upper word of the valid bitmap has a bit of a result.
fn has_upper(results: &Results) -> bool
    ensures value { result ≡ accepting.has_upper results.now }
{
    results.c || results.d || results.b
}

/// Whether a register is a result.
fn has_any(results: &Results) -> bool
    ensures value { result ≡ accepting.has_any results.now }
{
    results.a || has_upper(results)
}

/// Loads the words of the valid bitmap that have a bit of a result.
fn load_bitmap<P: Page>(page: &mut P, results: &Results) -> Bitmap
    requires room { 2 ≤ room_of (P.told page.old) }
    ensures reads { Reads (accepting.bitmap results.now) result (P.told page.old) (P.told page.new) }
    ensures room { room_of (P.told page.old) ≤ room_of (P.told page.new) + 2 }
{
    let low = load_if(page, results.a, Word::BITMAP_LOW);
    let high = load_if(page, has_upper(results), Word::BITMAP_HIGH);
    Bitmap { low, high }
}

/// Whether each result has its bit.
fn has_all(results: &Results, bitmap: &Bitmap) -> bool
    ensures value { result ≡ accepting.has_all results.now bitmap.now }
{
    (!results.a || bitmap.has(bit_of(Field::Rax)))
        && (!results.c || bitmap.has(bit_of(Field::Rcx)))
        && (!results.d || bitmap.has(bit_of(Field::Rdx)))
        && (!results.b || bitmap.has(bit_of(Field::Rbx)))
}

/// Loads the words of the results.
fn load_values<P: Page>(page: &mut P, results: &Results) -> Values
    requires room { 4 ≤ room_of (P.told page.old) }
    ensures reads { Reads (accepting.loaded_values results.now) result (P.told page.old) (P.told page.new) }
    ensures room { room_of (P.told page.old) ≤ room_of (P.told page.new) + 4 }
{
    let a = load_if(page, results.a, word_of(Field::Rax));
    let c = load_if(page, results.c, word_of(Field::Rcx));
    let d = load_if(page, results.d, word_of(Field::Rdx));
    let b = load_if(page, results.b, word_of(Field::Rbx));
    Values { a, c, d, b }
}

/// Takes the results of an access, once the status says that they are there: into their place, where each
/// has its bit.
fn take_values<P: Page>(page: &mut P, results: &Results, values: &mut Values) -> Answer
    requires room { 6 ≤ room_of (P.told page.old) }
    ensures reads { Reads (accepting.loaded_results results.now 0 outcome_done)
        (outcome_in result (reply_of values.new [])) (P.told page.old) (P.told page.new) }
    ensures room { room_of (P.told page.old) ≤ room_of (P.told page.new) + 6 }
{
    if !has_any(results) {
        *values = NO_VALUES;
        return Answer::Done;
    }
    let bitmap = load_bitmap(page, results);
    if !has_all(results, &bitmap) {
        return Answer::Terminate(Reason::MissingResult(bitmap.low, bitmap.high));
    }
    *values = load_values(page, results);
    Answer::Done
}

/// Takes the bytes of a block, once the status says that they are there; it has no results in registers.
#[inline(never)]
fn take_block<P: Page>(page: &mut P, block: &Block, reply: &mut Reply)
    requires lawful { IsLawfulBlock block.now }
    requires room { 254 ≤ room_of (P.told page.old) }
    ensures reads { Reads (accepting.loaded_reply (Many block.now)) (Done reply.new)
        (P.told page.old) (P.told page.new) }
    ensures room { room_of (P.told page.old) ≤ room_of (P.told page.new) + 254 }
{
    reply.values = NO_VALUES;
    reply.bytes = accept_block(block, page);
}

/// Takes the number of an MMIO read, once the status says that it is there.
fn take_number<P: Page>(page: &mut P, len: u8) -> Values
    requires len { IsLength len }
    requires room { 1 ≤ room_of (P.told page.old) }
    ensures reads { (at : ℕ) → Reads (accepting.loaded_reply (One (access.MmioRead at len))) (Done (reply_of result []))
        (P.told page.old) (P.told page.new) }
    ensures room { room_of (P.told page.old) ≤ room_of (P.told page.new) + 1 }
{
    Values {
        a: accept_mmio(len, page),
        ..NO_VALUES
    }
}

/// Takes what comes back of an access, once the status says that it is there.
fn take_access<P: Page>(page: &mut P, access: &Access, values: &mut Values) -> Answer
    requires lawful { IsLawfulAccess access.now }
    requires room { 6 ≤ room_of (P.told page.old) }
    ensures reads { Reads (accepting.loaded_reply (One access.now)) (outcome_in result (reply_of values.new []))
        (P.told page.old) (P.told page.new) }
    ensures room { room_of (P.told page.old) ≤ room_of (P.told page.new) + 6 }
{
    if let Access::MmioRead { len, .. } = *access {
        *values = take_number(page, len);
        return Answer::Done;
    }
    let row = row_of(&kind_of(access));
    take_values(page, &row.results, values)
}

/// Takes what comes back, once the status says that it is there: the results of an access, or the bytes of
/// a block.
fn take_done<P: Page>(page: &mut P, event: &Event, reply: &mut Reply) -> Answer
    requires lawful { IsLawfulEvent event.now }
    requires room { 260 ≤ room_of (P.told page.old) }
    ensures reads { Reads (accepting.loaded_reply event.now) (outcome_in result reply.new)
        (P.told page.old) (P.told page.new) }
    ensures room { room_of (P.told page.old) ≤ room_of (P.told page.new) + 260 }
{
    match event {
        Event::One(access) => {
            reply.bytes.truncate(0);
            take_access(page, access, &mut reply.values)
        }
        Event::Many(block) => {
            take_block(page, block, reply);
            Answer::Done
        }
    }
}

/// What a word of SW_EXITINFO2 asks for.
fn requested(word: u64) -> Answer
    ensures value { (reply : Reply) → outcome_in result reply ≡ accepting.outcome_requested word (request_of word) }
{
    match Inject::read(word) {
        Ok(Inject { vector, code }) => Answer::Raise { vector, code },
        Err(_) => Answer::Terminate(Reason::BadException(word)),
    }
}

/// Takes the exception, once the status says that one is asked for.
fn take_exception<P: Page>(page: &mut P) -> Answer
    requires room { 1 ≤ room_of (P.told page.old) }
    ensures reads { (reply : Reply) →
        Reads accepting.loaded_exception (outcome_in result reply) (P.told page.old) (P.told page.new) }
    ensures room { room_of (P.told page.old) ≤ room_of (P.told page.new) + 1 }
{
    let word = page.load(word_of(Field::ExitInfo2));
    requested(word)
}

/// Takes the reply to an event, by its status.
pub fn take_reply<P: Page>(page: &mut P, event: &Event, reply: &mut Reply) -> Answer
    requires lawful { IsLawfulEvent event.now }
    requires room { 261 ≤ room_of (P.told page.old) }
    ensures reads { Reads (accepting.accepting event.now) (outcome_in result reply.new)
        (P.told page.old) (P.told page.new) }
    ensures room { room_of (P.told page.old) ≤ room_of (P.told page.new) + 261 }
{
    let status = page.load(word_of(Field::ExitInfo1));
    match status & 0xFFFF_FFFF {
        0 => take_done(page, event, reply),
        1 => take_exception(page),
        _ => Answer::Terminate(Reason::BadStatus(status)),
    }
}
