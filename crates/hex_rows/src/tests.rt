use crate::{Row, RowError};
use std::test::Fail;

#[test]
fn a_row_is_read_cell_by_cell(rt: HostRuntime) -> Result<(), Fail> {
    let mut row = Row::new(
        "8A 0f | 1 FEB00800 |115:ffffffffffffffff 511:0 | 2 3 | two words; a note | 4",
    );
    assert_eq!(rt; row.bytes(rt.alloc())?.as_slice(), [0x8A, 0x0F].as_slice());
    assert_eq!(rt; row.numbers()?, [1, 0xFEB0_0800]);
    let words = [(115, u64::MAX), (511, 0)];
    assert_eq!(rt; row.words(rt.alloc())?.as_slice(), words.as_slice());
    assert_eq!(rt; row.list(rt.alloc())?.as_slice(), [2, 3].as_slice());
    assert_eq!(rt; row.text(), "two words");
    assert_eq!(rt; row.text(), "");
    Ok(())
}

#[test]
fn another_kind_or_count_is_refused(rt: HostRuntime) {
    assert_eq!(rt; Row::new("1 2").numbers::<1>(), Err(RowError::BadCell));
    assert_eq!(rt; Row::new("1 2").numbers::<3>(), Err(RowError::BadCell));
    assert_eq!(rt;
        Row::new("100").bytes(rt.alloc()).err(),
        Some(RowError::BadCell)
    );
    assert_eq!(rt;
        Row::new("1x").list(rt.alloc()).err(),
        Some(RowError::BadCell)
    );
    assert_eq!(rt;
        Row::new("1").words(rt.alloc()).err(),
        Some(RowError::BadCell)
    );
}
