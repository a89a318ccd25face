use crate::{BadMsr, MsrWord, read, write};

/// A word for each message, with the message.
const MESSAGES: [(u64, MsrWord); 11] = [
    (0x8000_1000, MsrWord::GhcbAddress(0x8000_1000)),
    (
        0x0002_0001_3300_0001,
        MsrWord::SevInfo {
            max: 2,
            min: 1,
            c_bit: 51,
        },
    ),
    (0x002, MsrWord::SevInfoRequest),
    (
        0x8000_001F_4000_0004,
        MsrWord::CpuidRequest {
            function: 0x8000_001F,
            register: 1,
        },
    ),
    (
        0x0000_0240_C000_0005,
        MsrWord::CpuidResponse {
            value: 0x240,
            register: 3,
        },
    ),
    (0x006, MsrWord::ApHoldRequest),
    (
        0xFFFF_FFFF_FFFF_F007,
        MsrWord::ApHoldResponse(0xF_FFFF_FFFF_FFFF),
    ),
    (0x080, MsrWord::FeatureRequest),
    (0x3081, MsrWord::FeatureResponse(3)),
    (0x1_0100, MsrWord::Terminate { set: 0, code: 1 }),
    (
        0xAB_F100,
        MsrWord::Terminate {
            set: 15,
            code: 0xAB,
        },
    ),
];

#[test]
fn words_of_each_message(rt: HostRuntime) {
    for (word, msr) in MESSAGES {
        assert_eq!(rt; read(word), Ok(msr));
        if let Ok(message) = read(word) {
            assert_eq!(rt; write(&message), word);
        }
    }
}

#[test]
fn each_reserved_bit_is_refused(rt: HostRuntime) {
    let rows = [
        (0x001, 12, 24),
        (0x002, 12, 64),
        (0x004, 12, 30),
        (0x005, 12, 30),
        (0x006, 12, 64),
        (0x080, 12, 64),
        (0x100, 24, 64),
    ];
    for (info, from, to) in rows {
        for place in from..to {
            let bit = 1u64.wrapping_shl(place);
            assert_eq!(rt;
                read(info | bit),
                Err(BadMsr::ReservedSet(bit)),
                "bit {place} of {info:#x}"
            );
        }
    }
}

#[test]
fn refusals_hold_the_bits(rt: HostRuntime) {
    assert_eq!(rt; read(0x003), Err(BadMsr::UnknownInfo(0x003)));
    assert_eq!(rt;
        read(0xFFFF_FFFF_FFFF_FFFF),
        Err(BadMsr::UnknownInfo(0xFFF))
    );
    assert_eq!(rt; read(0x1_1002), Err(BadMsr::ReservedSet(0x1_1000)));
}
