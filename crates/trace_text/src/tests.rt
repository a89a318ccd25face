use crate::trace_text;
use event_table::{End, Reason};
use page_words::{Item, Word};
use std::test::Fail;

#[test]
fn a_run_in_print(rt: HostRuntime) -> Result<(), Fail> {
    let items = [
        Item::Exit(2),
        Item::Msr(0x0001_0001_3300_0001),
        Item::Store(Word::new(63).unwrap(), 0x48),
        Item::Load(Word::new(115).unwrap(), 1),
        Item::Load(Word::new(7).unwrap(), u64::MAX),
    ];
    let text = trace_text(rt.alloc(), &items, &End::Fault(13), 65_536)?;
    let lines = b"exit 0000000000000002
msr 0001000133000001
store 063 0000000000000048
load 115 0000000000000001
load 007 ffffffffffffffff
end fault 13 steps 65536
";
    assert_eq!(rt; text.as_slice(), lines.as_slice());
    Ok(())
}

#[test]
fn each_end_in_print(rt: HostRuntime) -> Result<(), Fail> {
    let ends = [
        (End::Halted, "end halted steps 0\n"),
        (End::Spent, "end spent steps 0\n"),
        (End::Undecoded, "end undecoded steps 0\n"),
        (
            End::BadAddress(0xFEB0_0FFF),
            "end bad-address 00000000feb00fff steps 0\n",
        ),
        (
            End::Terminated(Reason::NoProtocol(0)),
            "end terminated no-protocol 0000000000000000 steps 0\n",
        ),
        (
            End::Terminated(Reason::BadStatus(2)),
            "end terminated bad-status 0000000000000002 steps 0\n",
        ),
        (
            End::Terminated(Reason::BadException(0x8000_0B0E)),
            "end terminated bad-exception 0000000080000b0e steps 0\n",
        ),
        (
            End::Terminated(Reason::MissingResult(1, 0xF)),
            "end terminated missing-result 0000000000000001 000000000000000f steps 0\n",
        ),
    ];
    for (end, line) in ends {
        let text = trace_text(rt.alloc(), &[], &end, 0)?;
        assert_eq!(rt; text.as_slice(), line.as_bytes());
    }
    Ok(())
}
