use crate::{bits_in_place, number_in_bits};

#[test]
fn numbers_in_bits(rt: HostRuntime) {
    let word = 0xFEDC_BA98_7654_3210;
    let cases = [
        (63, 0, 0xFEDC_BA98_7654_3210),
        (63, 63, 1),
        (0, 0, 0),
        (11, 0, 0x210),
        (63, 52, 0xFED),
        (31, 29, 3),
    ];
    for (high, low, number) in cases {
        assert_eq!(rt;
            number_in_bits(word, high, low),
            number,
            "bits {high}:{low}"
        );
    }
    assert_eq!(rt; bits_in_place(word, 63, 52), 0xFED0_0000_0000_0000);
    assert_eq!(rt; bits_in_place(word, 31, 29), 0x6000_0000);
}
