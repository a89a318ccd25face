// How the words of an event are shown.
ghost use Rattle.std.specs.Prelude.{◌≡◌, ◌<◌, ◌≤◌, ◌+◌, ◌^◌, ◌++◌, ℕ, [], ◌∷◌, map};
ghost use Rattle.page_words.specs.Told.{Makes, store as store_item};
ghost use Rattle.ghcb_layout.specs.Bitmap.{bitmap_of as bits_of_words, word_if};
ghost use Rattle.page_words.specs.declared.item.Item.TheVariants.{Exit};
ghost use Rattle.event_table.specs.declared.event.Event.TheVariants.{One, Many};
ghost use Rattle.event_table.specs.Lawful.{IsLawfulAccess, IsLawfulBlock, IsLawfulEvent};
ghost use Rattle.string_io.specs.Buffers.{room_of};
ghost use Rattle.vc_handler.specs.Wire.{cleared_words, event_wire, last_words, shown_words};

use event_table::{
    Access, Block, Event, Registers, Row, kind_of, kind_of_block, registers_of, row_of,
};
use ghcb_layout::{Bitmap, Field, bit_if, protocol_word, word_of};
use mmio_access::show_mmio;
use page_words::{Page, Word};
use string_io::show_block;

/// Shows a field, where its row has it.
fn show_if<P: Page>(page: &mut P, field: Field, wanted: bool, value: u64)
    requires room { 1 ≤ room_of (P.told page.old) }
    ensures makes { Makes (P.told page.old) (map store_item (word_if field wanted value)) (P.told page.new) }
    ensures room { room_of (P.told page.old) ≤ room_of (P.told page.new) + 1 }
{
    if wanted {
        page.store(word_of(field), value);
    }
}

/// The valid bitmap of the words that are shown: the value of none of them has a part in it.
fn bitmap_of(row: &Row, registers: &Registers) -> Bitmap
    ensures value { (ghcb : ℕ) → result ≡ bits_of_words (shown_words ghcb row.now registers.now) }
{
    let low = bit_if(Field::Cpl, row.shows.cpl) + bit_if(Field::Rax, row.shows.a);
    let registers_high = bit_if(Field::Rcx, row.shows.c) + bit_if(Field::Rdx, row.shows.d);
    let infos = bit_if(Field::ExitCode, true)
        + bit_if(Field::ExitInfo1, true)
        + bit_if(Field::ExitInfo2, true);
    let scratch = bit_if(Field::Scratch, row.scratch);
    let xcr0 = bit_if(Field::Xcr0, row.shows_xcr0(registers.a));
    Bitmap {
        low,
        high: registers_high + infos + scratch + xcr0,
    }
}

/// Shows the words of a row, in the order of the page.
fn show_row<P: Page>(page: &mut P, row: &Row, registers: &Registers, ghcb: u64)
    requires page { ghcb < 2 ^ 63 }
    requires room { 9 ≤ room_of (P.told page.old) }
    ensures makes { Makes (P.told page.old)
        (map store_item (shown_words ghcb row.now registers.now)) (P.told page.new) }
    ensures room { room_of (P.told page.old) ≤ room_of (P.told page.new) + 9 }
{
    let xcr = row.shows_xcr0(registers.a);
    show_if(page, Field::Cpl, row.shows.cpl, 0);
    show_if(page, Field::Rax, row.shows.a, registers.a);
    show_if(page, Field::Rcx, row.shows.c, registers.c);
    show_if(page, Field::Rdx, row.shows.d, registers.d);
    show_if(page, Field::ExitCode, true, row.code);
    show_if(page, Field::ExitInfo1, true, row.info);
    show_if(page, Field::ExitInfo2, true, row.count);
    show_if(page, Field::Scratch, row.scratch, ghcb + 0x800);
    show_if(page, Field::Xcr0, xcr, 1);
}

/// Clears the old bitmap, so that no bit of it stands beside a new word.
fn clear_bitmap<P: Page>(page: &mut P)
    requires room { 2 ≤ room_of (P.told page.old) }
    ensures makes { Makes (P.told page.old) (map store_item cleared_words) (P.told page.new) }
    ensures room { room_of (P.told page.old) ≤ room_of (P.told page.new) + 2 }
{
    page.store(Word::BITMAP_LOW, 0);
    page.store(Word::BITMAP_HIGH, 0);
}

/// Stores the bitmap of what is shown, and version 1 with usage 0, and exits.
fn leave<P: Page>(page: &mut P, bitmap: &Bitmap, ghcb: u64)
    requires room { 4 ≤ room_of (P.told page.old) }
    ensures makes { Makes (P.told page.old)
        (map store_item (last_words bitmap.now) ++ Exit ghcb ∷ []) (P.told page.new) }
{
    page.store(Word::BITMAP_LOW, bitmap.low);
    page.store(Word::BITMAP_HIGH, bitmap.high);
    page.store(Word::LAST, protocol_word(1, 0));
    page.exit(ghcb);
}

/// Stores all words of an access, and exits.
fn show_access<P: Page>(page: &mut P, access: &Access, ghcb: u64)
    requires lawful { IsLawfulAccess access.now }
    requires page { ghcb < 2 ^ 63 }
    requires room { 16 ≤ room_of (P.told page.old) }
    ensures makes { Makes (P.told page.old) (event_wire ghcb (One access.now)) (P.told page.new) }
{
    let row = row_of(&kind_of(access));
    let registers = registers_of(access);
    clear_bitmap(page);
    show_row(page, &row, &registers, ghcb);
    show_mmio(access, page);
    leave(page, &bitmap_of(&row, &registers), ghcb);
}

/// Stores all words of a block, and among them its bytes in the shared buffer, and exits.
#[inline(never)]
fn show_bytes<P: Page>(page: &mut P, block: &Block, ghcb: u64)
    requires lawful { IsLawfulBlock block.now }
    requires page { ghcb < 2 ^ 63 }
    requires room { 269 ≤ room_of (P.told page.old) }
    ensures makes { Makes (P.told page.old) (event_wire ghcb (Many block.now)) (P.told page.new) }
{
    let row = row_of(&kind_of_block(block));
    let registers = Registers { a: 0, c: 0, d: 0 };
    clear_bitmap(page);
    show_row(page, &row, &registers, ghcb);
    show_block(block, page);
    leave(page, &bitmap_of(&row, &registers), ghcb);
}

/// Stores all words of an event, and exits.
pub fn show_event<P: Page>(page: &mut P, event: &Event, ghcb: u64)
    requires lawful { IsLawfulEvent event.now }
    requires page { ghcb < 2 ^ 63 }
    requires room { 269 ≤ room_of (P.told page.old) }
    ensures makes { Makes (P.told page.old) (event_wire ghcb event.now) (P.told page.new) }
{
    match event {
        Event::One(access) => show_access(page, access, ghcb),
        Event::Many(block) => show_bytes(page, block, ghcb),
    }
}
