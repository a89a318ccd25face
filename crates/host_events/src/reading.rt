// How a page is read.
ghost use Rattle.std.specs.Prelude.{◌≡◌, Some, None, true, IfOk, IfErr, IfSome, OnOk};
ghost use Rattle.image_file.specs.Number.{IsLength};
ghost use Rattle.event_table.specs.Lawful.{IsCount, IsInPage, IsKind, IsSize};
ghost use Rattle.exit_info.specs.IoInfo.{info_of};
ghost use Rattle.host_events.specs.Reading as page_reading;
ghost use Rattle.host_events.specs.Reading.{HasSize, word_in};
ghost use Rattle.host_events.specs.Call as call;
ghost use Rattle.host_events.specs.Calls as rules;
ghost use Rattle.host_events.specs.Calls.{IsLawfulRequest, buffer_rules, call_of, call_on, first_broken_rule, kind_rules, page_rules};

use crate::{BadPage, Request};
use event_table::{Kind, PAGE_START, Row, row_of};
use exit_info::{ExitCode, IoInfo, UnknownCode};
use ghcb_layout::{Bitmap, Field, bit_of, ghcb_of, protocol_of, word_of};
use msr_protocol::{MsrWord, read};
use page_words::{Word, Words};

/// Where the shared buffer begins in a page (AMD 56421, "GHCB Layout").
const BUFFER: u64 = 0x800;

/// How many bytes the page of devices has.
const PAGE_SIZE: u64 = 0x1000;

/// The word of a field.
pub fn field_in(page: &Words, field: Field) -> u64
    ensures value { result ≡ page_reading.field_in (word_in page.now) field }
{
    page.word(word_of(field))
}

/// The valid bitmap.
fn bitmap_in(page: &Words) -> Bitmap
    ensures value { result ≡ page_reading.bitmap_in (word_in page.now) }
{
    Bitmap {
        low: page.word(Word::BITMAP_LOW),
        high: page.word(Word::BITMAP_HIGH),
    }
}

/// Whether a field's bit is set.
fn has(bitmap: &Bitmap, field: Field) -> bool
    ensures value { result ≡ page_reading.has bitmap.now field }
{
    bitmap.has(bit_of(field))
}

/// Whether the exit code and both exit infos have their bits.
fn has_infos(bitmap: &Bitmap) -> bool
    ensures value { result ≡ page_reading.has_infos bitmap.now }
{
    has(bitmap, Field::ExitCode) && has(bitmap, Field::ExitInfo1) && has(bitmap, Field::ExitInfo2)
}

/// Whether each word that a row shows has its bit.
#[inline(always)]
fn has_shown(row: &Row, a: u64, bitmap: &Bitmap) -> bool
    ensures value { result ≡ page_reading.has_shown row.now a bitmap.now }
{
    (!row.shows.cpl || has(bitmap, Field::Cpl))
        && (!row.shows.a || has(bitmap, Field::Rax))
        && (!row.shows.c || has(bitmap, Field::Rcx))
        && (!row.shows.d || has(bitmap, Field::Rdx))
        && (!row.shows_xcr0(a) || has(bitmap, Field::Xcr0))
}

/// Whether an exit code is one of the event table.
fn is_event(code: &Result<ExitCode, UnknownCode>) -> bool
    ensures value { result ≡ page_reading.is_event code.now }
{
    code.is_ok()
}

/// Port I/O by SW_EXITINFO1, and string I/O with its count.
fn io_kind(info: u64, count: u64) -> Option<Kind>
    ensures value { result ≡ page_reading.io_kind (info_of info) count }
    ensures size { IfSome result (λ kind. HasSize kind) }
{
    let info = IoInfo::read(info).ok()?;
    let (port, size, rep) = (info.port, info.size / 8, info.rep);
    Some(match (info.string, info.input) {
        (false, false) => Kind::Out { port, size },
        (false, true) => Kind::In { port, size },
        (true, false) => Kind::Outs {
            port,
            size,
            rep,
            count,
        },
        (true, true) => Kind::Ins {
            port,
            size,
            rep,
            count,
        },
    })
}

/// RDMSR or WRMSR by SW_EXITINFO1.
fn msr_kind(info: u64) -> Option<Kind>
    ensures value { result ≡ page_reading.msr_kind info }
    ensures size { IfSome result (λ kind. HasSize kind) }
{
    match info {
        0 => Some(Kind::Rdmsr),
        1 => Some(Kind::Wrmsr),
        _ => None,
    }
}

/// The kind of the event that the exit code and the exit infos name.
fn kind_by(code: &Result<ExitCode, UnknownCode>, info: u64, count: u64) -> Option<Kind>
    ensures value { result ≡ page_reading.kind_by code.now info count }
    ensures size { IfSome result (λ kind. HasSize kind) }
{
    match *code {
        Ok(ExitCode::Io) => io_kind(info, count),
        Ok(ExitCode::Msr) => msr_kind(info),
        Ok(ExitCode::Cpuid) => Some(Kind::Cpuid),
        Ok(ExitCode::Rdtsc) => Some(Kind::Rdtsc),
        Ok(ExitCode::Rdtscp) => Some(Kind::Rdtscp),
        Ok(ExitCode::Rdpmc) => Some(Kind::Rdpmc),
        Ok(ExitCode::Wbinvd) => Some(Kind::Wbinvd),
        Ok(ExitCode::Vmmcall) => Some(Kind::Vmmcall),
        Ok(ExitCode::MmioRead) => Some(Kind::MmioRead {
            at: info,
            len: count,
        }),
        Ok(ExitCode::MmioWrite) => Some(Kind::MmioWrite {
            at: info,
            len: count,
        }),
        Err(_) => None,
    }
}

/// Whether SW_SCRATCH has its bit, where the event has its data in the shared buffer.
fn has_scratch(row: &Row, bitmap: &Bitmap) -> bool
    ensures value { result ≡ page_reading.has_scratch row.now bitmap.now }
{
    !row.scratch || has(bitmap, Field::Scratch)
}

/// Whether SW_SCRATCH is the address of the buffer of the vCPU's page, where the event has its data there.
fn names_buffer(vcpu: u16, row: &Row, scratch: u64) -> bool
    ensures value { result ≡ page_reading.names_buffer vcpu row.now scratch }
{
    !row.scratch || scratch == ghcb_of(vcpu) + BUFFER
}

/// Whether a block can have so many elements.
fn is_count(size: u8, rep: bool, count: u64) -> bool
    requires size { IsSize size }
    ensures value { result ≡ page_reading.is_count size rep count }
    ensures lawful { result ≡ true → IsCount size rep count }
{
    1 <= count && count <= 2032 / u64::from(size) && (rep || count == 1)
}

/// Whether an operand can have so many bytes.
fn is_length(len: u64) -> bool
    ensures value { result ≡ page_reading.is_length len }
    ensures lawful { result ≡ true → IsLength len }
{
    matches!(len, 1 | 2 | 4 | 8)
}

/// Whether an operand can have so many bytes, and all from an address on lie in the page of devices.
fn is_in_page(at: u64, len: u64) -> bool
    ensures value { result ≡ page_reading.is_in_page at len }
    ensures lawful { result ≡ true → IsInPage at len }
{
    is_length(len) && PAGE_START <= at && at - PAGE_START <= PAGE_SIZE - len
}

/// Whether the count of string I/O is one that a block can have, and the bytes of MMIO lie in the page of devices.
fn is_allowed(kind: &Kind) -> bool
    requires size { HasSize kind.now }
    ensures value { result ≡ page_reading.is_allowed kind.now }
    ensures lawful { result ≡ true → IsKind kind.now }
{
    match *kind {
        Kind::Outs {
            size,
            rep,
            count,
            ..
        }
        | Kind::Ins {
            size,
            rep,
            count,
            ..
        } => { is_count(size, rep, count) }
        Kind::MmioRead { at, len } | Kind::MmioWrite { at, len } => is_in_page(at, len),
        _ => true,
    }
}

/// Tests the rules of data in the shared buffer; the error is the first that the page breaks.
fn fits_buffer(vcpu: u16, page: &Words, bitmap: Bitmap, kind: Kind) -> Result<(), BadPage>
    requires size { HasSize kind }
    ensures kept { OnOk result (first_broken_rule (buffer_rules vcpu kind (word_in page.now) bitmap) ≡ None) }
    ensures broken { IfErr result (λ bad.
        first_broken_rule (buffer_rules vcpu kind (word_in page.now) bitmap) ≡ Some bad) }
    ensures lawful { OnOk result (IsKind kind) }
{
    let row = row_of(&kind);
    if !has_scratch(&row, &bitmap) {
        return Err(BadPage::Missing);
    }
    if !names_buffer(vcpu, &row, field_in(page, Field::Scratch)) {
        return Err(BadPage::Buffer);
    }
    if !is_allowed(&kind) {
        return Err(BadPage::Invalid);
    }
    Ok(())
}

/// Tests the rules of a page that are of its kind of event; the error is the first that it breaks.
#[inline(always)]
fn fits(vcpu: u16, page: &Words, bitmap: &Bitmap, kind: &Kind) -> Result<(), BadPage>
    requires size { HasSize kind.now }
    ensures kept { OnOk result (first_broken_rule (kind_rules vcpu kind.now (word_in page.now) bitmap.now) ≡ None) }
    ensures broken { let tests = kind_rules vcpu kind.now (word_in page.now) bitmap.now in
        IfErr result (λ bad. first_broken_rule tests ≡ Some bad) }
    ensures lawful { OnOk result (IsKind kind.now) }
{
    match kind {
        // These show no register.
        Kind::Outs { .. } | Kind::Ins { .. } | Kind::MmioRead { .. } | Kind::MmioWrite { .. } => {
            fits_buffer(vcpu, page, *bitmap, *kind)
        }
        _ => {
            if has_shown(&row_of(kind), field_in(page, Field::Rax), bitmap) {
                Ok(())
            } else {
                Err(BadPage::Missing)
            }
        }
    }
}

/// The kind of event that an event's page asks for; the error is the first rule that it breaks.
#[inline(always)]
fn asked(vcpu: u16, page: &Words) -> Result<Kind, BadPage>
    ensures kept { let word = word_in page.now in
        IfOk result (λ kind. rules.page_call vcpu word ≡ call.Asked (page_reading.event_in word kind)) }
    ensures broken { IfErr result (λ bad. first_broken_rule (page_rules vcpu (word_in page.now)) ≡ Some bad) }
    ensures lawful { IfOk result (λ kind. IsKind kind) }
{
    let (version, usage) = protocol_of(page.word(Word::LAST));
    if version != 1 {
        return Err(BadPage::Invalid);
    }
    if usage != 0 {
        return Err(BadPage::Usage);
    }
    let bitmap = bitmap_in(page);
    if !has_infos(&bitmap) {
        return Err(BadPage::Missing);
    }
    let code = ExitCode::read(field_in(page, Field::ExitCode));
    if !is_event(&code) {
        return Err(BadPage::Unknown);
    }
    let info = field_in(page, Field::ExitInfo1);
    let Some(kind) = kind_by(&code, info, field_in(page, Field::ExitInfo2)) else {
        return Err(BadPage::Invalid);
    };
    fits(vcpu, page, &bitmap, &kind)?;
    Ok(kind)
}

/// What the page that a vCPU's MSR word names asks for.
#[inline(always)]
fn page_request(vcpu: u16, page: &Words) -> Request
    ensures call { let word = word_in page.now in call_on word result ≡ rules.page_call vcpu word }
    ensures lawful { IsLawfulRequest result }
{
    match asked(vcpu, page) {
        Ok(kind) => Request::Asked(kind),
        Err(bad) => Request::Malformed(bad),
    }
}

/// What a vCPU asks for by its MSR word and its page.
#[inline(always)]
pub fn read_request(vcpu: u16, page: &Words) -> Request
    ensures call { call_on (word_in page.now) result ≡ call_of vcpu page.now }
    ensures lawful { IsLawfulRequest result }
{
    let word = page.msr_word();
    if word == ghcb_of(vcpu) {
        return page_request(vcpu, page);
    }
    match read(word) {
        Ok(MsrWord::SevInfoRequest) => Request::SevInfo,
        Ok(MsrWord::CpuidRequest { function, register }) => Request::Cpuid { function, register },
        _ => Request::Nothing,
    }
}
