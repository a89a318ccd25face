use crate::{
    Bitmap, Field, NotAField, bit_if, bit_of, field_at, ghcb_of, name, offset, page_from_bytes,
    page_to_bytes, protocol_of, protocol_word, word_of,
};
use page_words::Word;

#[test]
fn fields_stand_where_the_standard_has_them(rt: HostRuntime) {
    let cases = [
        (Field::Cpl, "cpl", 0x0CB, 25),
        (Field::Xss, "xss", 0x140, 40),
        (Field::Dr7, "dr7", 0x160, 44),
        (Field::Rip, "rip", 0x178, 47),
        (Field::Rsp, "rsp", 0x1D8, 59),
        (Field::Rax, "rax", 0x1F8, 63),
        (Field::Rcx, "rcx", 0x308, 97),
        (Field::Rdx, "rdx", 0x310, 98),
        (Field::Rbx, "rbx", 0x318, 99),
        (Field::Rbp, "rbp", 0x328, 101),
        (Field::Rsi, "rsi", 0x330, 102),
        (Field::Rdi, "rdi", 0x338, 103),
        (Field::R8, "r8", 0x340, 104),
        (Field::R15, "r15", 0x378, 111),
        (Field::ExitCode, "exitcode", 0x390, 114),
        (Field::ExitInfo1, "exitinfo1", 0x398, 115),
        (Field::ExitInfo2, "exitinfo2", 0x3A0, 116),
        (Field::Scratch, "scratch", 0x3A8, 117),
        (Field::Xcr0, "xcr0", 0x3E8, 125),
    ];
    for (field, text, at, word) in cases {
        assert_eq!(rt; name(field), text);
        assert_eq!(rt; offset(field), at);
        assert_eq!(rt; word_of(field).number(), u16::from(word));
        assert_eq!(rt; bit_of(field), word);
        assert_eq!(rt; field_at(at), Ok(field));
    }
}

#[test]
fn no_field_at_other_offsets(rt: HostRuntime) {
    for at in [
        0x000, 0x0C8, 0x1F9, 0x200, 0x3F0, 0x3F8, 0x800, 0xFFA, 0xFFFF,
    ] {
        assert_eq!(rt; field_at(at), Err(NotAField), "at {at:#x}");
    }
}

#[test]
fn a_bit_for_each_word(rt: HostRuntime) {
    let bitmap = Bitmap::from_words(0, 0).with(0).with(63).with(97).with(97);
    assert_eq!(rt; bitmap.to_words(), (0x8000_0000_0000_0001, 0x2_0000_0000));
    for bit in 0..128 {
        assert_eq!(rt;
            bitmap.has(bit),
            bit == 0 || bit == 63 || bit == 97,
            "bit {bit}"
        );
    }
}

#[test]
fn version_and_usage(rt: HostRuntime) {
    assert_eq!(rt; protocol_of(0x1_0000), (1, 0));
    assert_eq!(rt; protocol_of(0x1234_5678_0002_FFFF), (2, 0x1234_5678));
    assert_eq!(rt; protocol_word(2, 0x1234_5678), 0x1234_5678_0002_0000);
}

#[test]
fn a_page_of_bytes(rt: HostRuntime) {
    let mut bytes = [0; 4096];
    bytes[0x1F8] = 0x48;
    bytes[0x1FF] = 0x80;
    bytes[0xFFA] = 1;
    let page = page_from_bytes(&bytes);
    assert_eq!(rt; page.word(word_of(Field::Rax)), 0x8000_0000_0000_0048);
    assert_eq!(rt; protocol_of(page.word(Word::LAST)), (1, 0));
    assert_eq!(rt; page.msr_word(), 0);
    let mut written = [0xFF; 4096];
    page_to_bytes(&page, &mut written);
    assert_eq!(rt; written, bytes);
}

#[test]
fn a_bit_where_it_is_wanted(rt: HostRuntime) {
    assert_eq!(rt; bit_if(Field::Rax, true), 1 << 63);
    assert_eq!(rt; bit_if(Field::Rcx, true), 1 << 33);
    assert_eq!(rt; bit_if(Field::Rcx, false), 0);
}

#[test]
fn a_page_for_each_vcpu(rt: HostRuntime) {
    assert_eq!(rt; ghcb_of(0), 0x8000_0000);
    assert_eq!(rt; ghcb_of(7), 0x8000_7000);
}
