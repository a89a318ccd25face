use crate::{BadInfo, BadInject, ExitCode, Inject, IoInfo, UnknownCode};

#[test]
fn codes_of_each_event(rt: HostRuntime) {
    let cases = [
        (0x6E, Ok(ExitCode::Rdtsc)),
        (0x6F, Ok(ExitCode::Rdpmc)),
        (0x72, Ok(ExitCode::Cpuid)),
        (0x7B, Ok(ExitCode::Io)),
        (0x7C, Ok(ExitCode::Msr)),
        (0x81, Ok(ExitCode::Vmmcall)),
        (0x87, Ok(ExitCode::Rdtscp)),
        (0x89, Ok(ExitCode::Wbinvd)),
        (0x8000_0001, Ok(ExitCode::MmioRead)),
        (0x8000_0002, Ok(ExitCode::MmioWrite)),
        (0x400, Err(UnknownCode(0x400))),
        (0x1_0000_007B, Err(UnknownCode(0x1_0000_007B))),
    ];
    for (word, expected) in cases {
        assert_eq!(rt; ExitCode::read(word), expected);
        if let Ok(event) = expected {
            assert_eq!(rt; event.write(), word);
        }
    }
}

#[test]
fn each_pattern_of_size_and_address(rt: HostRuntime) {
    let sizes = [None, Some(8), Some(16), None, Some(32), None, None, None];
    let addresses = [None, Some(16), Some(32), None, Some(64), None, None, None];
    let mut word: u64 = 0x03F8_0000;
    for address in addresses {
        for size in sizes {
            let expected = match (size, address) {
                (None, _) => Err(BadInfo::BadSize(word)),
                (Some(_), None) => Err(BadInfo::BadAddress(word)),
                (Some(size), Some(address)) => Ok(out(size, address)),
            };
            assert_eq!(rt; IoInfo::read(word), expected);
            word = word.wrapping_add(0x10);
        }
    }
}

fn out(size: u8, address: u8) -> IoInfo {
    IoInfo {
        port: 0x3F8,
        input: false,
        string: false,
        rep: false,
        size,
        address,
        segment: 0,
    }
}

#[test]
fn words_of_accesses(rt: HostRuntime) {
    let outs = IoInfo {
        string: true,
        rep: true,
        segment: 3,
        ..out(8, 64)
    };
    let ins = IoInfo {
        port: 0x500,
        input: true,
        string: true,
        rep: true,
        ..out(32, 64)
    };
    let input = IoInfo {
        input: true,
        ..out(8, 64)
    };
    let cases = [
        (0x03F8_0210, out(8, 64)),
        (0x03F8_0211, input),
        (0x03F8_0E1C, outs),
        (0x0500_024D, ins),
    ];
    for (word, expected) in cases {
        assert_eq!(rt; IoInfo::read(word), Ok(expected));
        if let Ok(info) = IoInfo::read(word) {
            assert_eq!(rt; info.write(), word);
        }
    }
}

#[test]
fn each_reserved_bit_is_refused(rt: HostRuntime) {
    for place in (1u32..2).chain(13..16).chain(32..64) {
        let word = 1u64.wrapping_shl(place);
        assert_eq!(rt;
            IoInfo::read(word),
            Err(BadInfo::Reserved(word)),
            "bit {place}"
        );
    }
}

#[test]
fn requests_of_exceptions(rt: HostRuntime) {
    let cases = [
        (0x8000_0306, Ok(Inject { vector: 6, code: 0 })),
        (0x0000_0005_8000_0B06, Ok(Inject { vector: 6, code: 0 })),
        (
            0x0000_0005_8000_0B0D,
            Ok(Inject {
                vector: 13,
                code: 5,
            }),
        ),
        (
            0x0000_0005_8000_030D,
            Ok(Inject {
                vector: 13,
                code: 0,
            }),
        ),
        (0x0000_0B0E, Err(BadInject::NotValid(0x0000_0B0E))),
        (0x8000_0A0E, Err(BadInject::BadType(0x8000_0A0E))),
        (0x8000_0B0E, Err(BadInject::BadVector(0x8000_0B0E))),
    ];
    for (word, expected) in cases {
        assert_eq!(rt; Inject::read(word), expected);
    }
    assert_eq!(rt; Inject { vector: 6, code: 0 }.write(), 0x8000_0306);
    assert_eq!(rt;
        Inject {
            vector: 13,
            code: 5
        }
        .write(),
        0x0000_0005_8000_0B0D
    );
}
