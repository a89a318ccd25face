// What a write stores, and what a read makes of the word that it loads.
ghost use Rattle.event_table.specs.Lawful.{IsLawfulAccess};
ghost use Rattle.image_file.specs.Number.{IsLength};

use crate::{accept_mmio, show_mmio};
use event_table::Access;
use page_words::{Item, Page, Recorded, Word, Words};
use std::alloc::AllocError as OutOfMemory;
use std::test::Fail;

const PAGE: u64 = 0xFEB0_0000;

/// The buffer's first word.
const FIRST: u16 = 256;

/// Shows an access on a page that has room for it.
fn show(access: Access, page: &mut Recorded<Words>) -> Result<(), OutOfMemory>
    requires lawful { IsLawfulAccess access }
{
    page.reserve(1)?;
    show_mmio(&access, page);
    Ok(())
}

#[test]
fn a_write_stores_one_word_and_any_other_access_none(rt: HostRuntime) -> Result<(), Fail> {
    let mut page = Recorded::new(rt.alloc(), Words::new());
    let last = Access::MmioWrite {
        at: PAGE + 0xFFF,
        len: 1,
        value: 0x80,
    };
    show(last, &mut page)?;
    show(Access::MmioRead { at: PAGE, len: 8 }, &mut page)?;
    show(Access::Wbinvd, &mut page)?;
    let whole = Access::MmioWrite {
        at: PAGE,
        len: 8,
        value: u64::MAX,
    };
    show(whole, &mut page)?;
    let first = Word::new(FIRST).unwrap();
    assert_eq!(rt; page.items().len(), 2);
    assert_eq!(rt; page.items()[0], Item::Store(first, 0x80));
    assert_eq!(rt; page.items()[1], Item::Store(first, u64::MAX));
    Ok(())
}

/// The number of so many bytes that a page gives, which has room for the load.
fn number(len: u8, page: &mut Recorded<Words>) -> Result<u64, OutOfMemory>
    requires len { IsLength len }
{
    page.reserve(1)?;
    Ok(accept_mmio(len, page))
}

#[test]
fn a_read_loads_the_word_once_and_cuts_it(rt: HostRuntime) -> Result<(), Fail> {
    let mut page = Recorded::new(rt.alloc(), Words::new());
    let value = 0xFEDC_BA98_7654_3210;
    page.reserve(1)?;
    page.store(Word::new(FIRST).unwrap(), value);
    assert_eq!(rt; number(1, &mut page)?, 0x10);
    assert_eq!(rt; number(2, &mut page)?, 0x3210);
    assert_eq!(rt; number(4, &mut page)?, 0x7654_3210);
    assert_eq!(rt; number(8, &mut page)?, value);
    assert_eq!(rt; page.items().len(), 5);
    Ok(())
}
