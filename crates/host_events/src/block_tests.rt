// Pages of string I/O, served.
use crate::tests::{DONE, REFUSED, WordsAt, broken, leaves, page_of, put, started};
use crate::{BadPage, Host, Request, read_request};
use event_table::{Kind, Turn};
use page_words::Words;
use std::test::Fail;

/// The page of vCPU 0 with REP OUTSB of "abc" at the console's data port.
pub const BLOCK_OUT: [(u16, u64); 7] = [
    (511, 0x1_0000),
    (127, 0x003C_0000_0000_0000),
    (114, 0x7B),
    (115, 0x03F8_0E1C),
    (116, 3),
    (117, 0x8000_0800),
    (256, 0xFF63_6261),
];

/// That page, with some other words.
fn block_page(words: WordsAt) -> Words {
    let mut page = page_of(0x8000_0000, &BLOCK_OUT);
    put(&mut page, words);
    page
}

#[test]
fn a_block_is_its_accesses_and_one_entry(rt: HostRuntime) -> Result<(), Fail> {
    let mut host = started(rt.alloc(), 1, b"hi")?;
    assert!(rt; leaves(&mut host, &BLOCK_OUT, &[], &DONE, &[])?);
    assert_eq!(rt; host.console(), b"abc".as_slice());
    assert_eq!(rt; host.turns(), 1);
    assert_eq!(rt; host.turn_at(0), Some(Turn { vcpu: 0, count: 3 }));
    // Of an input the last word is padded with zero bytes, and the other words stay.
    let input = [(115, 0x03F8_021D), (256, u64::MAX), (257, u64::MAX)];
    assert!(rt; leaves(&mut host, &BLOCK_OUT, &input, &DONE, &[(256, 0x6968)])?);
    assert_eq!(rt; host.turn_at(1), Some(Turn { vcpu: 0, count: 3 }));
    Ok(())
}

#[test]
fn a_broken_rule_of_a_block_is_refused(rt: HostRuntime) -> Result<(), Fail> {
    let alloc = rt.alloc();
    let cases: [(WordsAt, BadPage, u8); 10] = [
        // SW_SCRATCH has no bit; that its word and the count are wrong comes later.
        (
            &[(127, 0x001C_0000_0000_0000), (117, 0), (116, 0)],
            BadPage::Missing,
            4,
        ),
        // It names the buffer of vCPU 1, a page's beginning, and an address without its upper bits.
        (&[(117, 0x8000_1800), (116, 0)], BadPage::Buffer, 3),
        (&[(117, 0x8000_0000)], BadPage::Buffer, 3),
        (&[(117, 0x800), (116, 0)], BadPage::Buffer, 3),
        // No element, and one more than the buffer has room for, of each size.
        (&[(116, 0)], BadPage::Invalid, 5),
        (&[(116, 2033)], BadPage::Invalid, 5),
        (&[(115, 0x03F8_0E2C), (116, 1017)], BadPage::Invalid, 5),
        (&[(115, 0x03F8_0E4C), (116, 509)], BadPage::Invalid, 5),
        (&[(116, 0x1_0000_0001)], BadPage::Invalid, 5),
        // Without REP there is one element.
        (&[(115, 0x03F8_0E14), (116, 2)], BadPage::Invalid, 5),
    ];
    for (words, bad, code) in cases {
        assert_eq!(rt; broken(0, &block_page(words)), Some(bad), "{words:?}");
        assert_eq!(rt; bad.code(), code);
        let mut host = started(alloc, 1, b"")?;
        assert!(rt;
            leaves(&mut host, &BLOCK_OUT, words, &REFUSED, &[])?,
            "{words:?}"
        );
        assert_eq!(rt; host.turns(), 0);
        assert_eq!(rt; host.console(), b"".as_slice());
    }
    Ok(())
}

#[test]
fn the_longest_blocks_are_asked_for(rt: HostRuntime) {
    for words in [
        [(115, 0x03F8_0E1C), (116, 2032)],
        [(115, 0x03F8_0E2C), (116, 1016)],
        [(115, 0x03F8_0E4C), (116, 508)],
        [(115, 0x03F8_0E14), (116, 1)],
    ] {
        let page = block_page(&words);
        assert!(rt;
            matches!(read_request(0, &page), Request::Asked(Kind::Outs { .. })),
            "{words:?}"
        );
    }
}

#[test]
fn elements_of_each_size_are_read_and_written(rt: HostRuntime) -> Result<(), Fail> {
    let mut host = started(rt.alloc(), 1, b"0123456789")?;
    // Ten bytes of the input; the second word is padded.
    let bytes = [(115, 0x03F8_021D), (116, 10), (257, u64::MAX)];
    let read = [(256, 0x3736_3534_3332_3130), (257, 0x3938)];
    assert!(rt; leaves(&mut host, &BLOCK_OUT, &bytes, &DONE, &read)?);
    // At the console's port two bytes are no device: three elements of ones.
    let ones = [(115, 0x03F8_022D), (116, 3)];
    assert!(rt;
        leaves(
            &mut host,
            &BLOCK_OUT,
            &ones,
            &DONE,
            &[(256, 0xFFFF_FFFF_FFFF)]
        )?
    );
    // The last of three elements of four bytes stays in the mailbox, and is read twice.
    let words = [
        (115, 0x0500_0E4C),
        (256, 0x2222_2222_1111_1111),
        (257, 0xFFFF_FFFF_3333_3333),
    ];
    assert!(rt; leaves(&mut host, &BLOCK_OUT, &words, &DONE, &[])?);
    let mailbox = [(115, 0x0500_024D), (116, 2)];
    assert!(rt;
        leaves(
            &mut host,
            &BLOCK_OUT,
            &mailbox,
            &DONE,
            &[(256, 0x3333_3333_3333_3333)]
        )?
    );
    // Two bytes of a mailbox are no device.
    let halves = [(115, 0x0500_0E2C), (116, 2), (256, 0x7777_7777)];
    assert!(rt; leaves(&mut host, &BLOCK_OUT, &halves, &DONE, &[])?);
    assert!(rt;
        leaves(
            &mut host,
            &BLOCK_OUT,
            &mailbox,
            &DONE,
            &[(256, 0x3333_3333_3333_3333)]
        )?
    );
    assert_eq!(rt; host.console(), b"".as_slice());
    assert_eq!(rt; host.turns(), 6);
    assert_eq!(rt; host.turn_at(0), Some(Turn { vcpu: 0, count: 10 }));
    assert_eq!(rt; host.turn_at(3), Some(Turn { vcpu: 0, count: 2 }));
    assert_eq!(rt; host.turn_at(6), None);
    Ok(())
}
