use crate::run_rounds;
use event_table::End;
use host_events::{Host, Hypervisor, Watch};
use image_samples::sample_image;
use page_words::{Word, Words};
use std::test::Fail;

/// MOV EDX, 3F8h; MOV AL, 'H'; OUT DX, AL; HLT
const HELLO: [u8; 9] = [0xBA, 0xF8, 3, 0, 0, 0xB0, 0x48, 0xEE, 0xF4];

/// The number of the first word of a page that isn't as told, where all others are 0.
fn unlike(page: &Words, words: &[(u16, u64)]) -> Option<u16> {
    for number in 0..512 {
        let mut want = 0;
        for (other, value) in words {
            if *other == number {
                want = *value;
            }
        }
        if page.word(Word::new(number).unwrap()) != want {
            return Some(number);
        }
    }
    None
}

#[test]
fn a_host_is_given_the_wire_form_alone(rt: HostRuntime) -> Result<(), Fail> {
    let image = sample_image(rt.alloc(), &HELLO, 0, 0)?;
    let mut host = Watch::new(rt.alloc(), Hypervisor::new(rt.alloc()));
    let finished = run_rounds(rt.alloc(), &image, Vec::new(rt.alloc()), 100, &mut host)?;
    assert_eq!(rt; finished.ends.as_slice(), [End::Halted].as_slice());
    assert_eq!(rt; host.console(), b"H".as_slice());
    let pages = host.pages();
    assert_eq!(rt; pages.len(), 2);
    let (first, second) = (&pages[0], &pages[1]);
    assert_eq!(rt; (first.0, first.1.msr_word()), (0, 0x002));
    assert_eq!(rt; unlike(&first.1, &[]), None);
    assert_eq!(rt; (second.0, second.1.msr_word()), (0, 0x8000_0000));
    let shown = [
        (63, 0x48),
        (114, 0x7B),
        (115, 0x03F8_0210),
        (126, 1 << 63),
        (127, 0x001C_0000_0000_0000),
        (511, 0x1_0000),
    ];
    assert_eq!(rt; unlike(&second.1, &shown), None);
    Ok(())
}
