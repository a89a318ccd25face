use crate::{Text, info_text, msr_text, page_from_hex, page_text, word_from_hex};
use page_words::Words;

#[test]
fn messages_in_print(rt: HostRuntime) {
    let messages = [
        ("0000000000010100", "terminate set 0 code 1\n"),
        ("0000000000000003", "unknown 003\n"),
        ("0000000000011002", "reserved 0000000000011000\n"),
        ("000200013300fFF0", "unknown ff0\n"),
        ("0002000133000001", "sev-info max 2 min 1 c-bit 51\n"),
        ("FEDCBA9876543000", "ghcb fedcba9876543000\n"),
        (
            "8000001f40000004",
            "cpuid-request function 2147483679 register 1\n",
        ),
    ];
    for (digits, line) in messages {
        let word = word_from_hex(digits.as_bytes());
        assert!(rt; word.is_some());
        assert_eq!(rt; msr_text(word.unwrap_or(0)).as_bytes(), line.as_bytes());
    }
}

#[test]
fn accesses_in_print(rt: HostRuntime) {
    let accesses = [
        (
            "0000000003f80210",
            "out size 8 address 64 segment 0 port 1016\n",
        ),
        (
            "000000000500024D",
            "in string rep size 32 address 64 segment 0 port 1280\n",
        ),
        ("0000000000000000", "bad size 0000000000000000\n"),
        ("0000000000000010", "bad address 0000000000000010\n"),
        ("0000000100000210", "reserved 0000000100000210\n"),
    ];
    for (digits, line) in accesses {
        let word = word_from_hex(digits.as_bytes());
        assert!(rt; word.is_some());
        assert_eq!(rt; info_text(word.unwrap_or(0)).as_bytes(), line.as_bytes());
    }
}

#[test]
fn a_word_has_sixteen_digits(rt: HostRuntime) {
    for digits in [
        "",
        "000000000000000",
        "00000000000000000",
        "000000000000000g",
    ] {
        assert!(rt; word_from_hex(digits.as_bytes()).is_none());
    }
}

/// The lines of the page of these digits.
fn printed(digits: &[u8]) -> Text {
    page_text(&page_from_hex(digits).unwrap_or(Words::new()))
}

#[test]
fn pages_in_print(rt: HostRuntime) {
    let mut digits = [b'0'; 8192];
    assert_eq!(rt;
        printed(&digits).as_bytes(),
        b"version 0\nusage 0\n".as_slice()
    );

    // Word 63 is 48, word 126 has bit 63, and word 511 has version 1.
    digits[1008] = b'4';
    digits[1009] = b'8';
    digits[2030] = b'8';
    digits[8181] = b'1';
    let rax = b"rax 0000000000000048\nversion 1\nusage 0\n".as_slice();
    assert_eq!(rt; printed(&digits).as_bytes(), rax);

    // The privilege level is ab, and words 126 and 127 have bits 0, 25 and 127 too.
    digits[406] = b'a';
    digits[407] = b'B';
    digits[2017] = b'1';
    digits[2023] = b'2';
    digits[2046] = b'8';
    let all = b"word 000 0000000000000000
cpl 00000000000000ab
rax 0000000000000048
word 127 8000000000000000
version 1
usage 0
"
        .as_slice();
    assert_eq!(rt; printed(&digits).as_bytes(), all);

    digits[8191] = b'G';
    assert!(rt; page_from_hex(&digits).is_none());
    assert!(rt; page_from_hex(&digits[2..]).is_none());
}
