use crate::{report_text, summary_text};
use event_table::{End, Finished, Turn};
use std::test::Fail;

#[test]
fn a_report_in_print(rt: HostRuntime) -> Result<(), Fail> {
    let alloc = rt.alloc();
    let finished = Finished {
        order: vec![in alloc;
            Turn { vcpu: 1, count: 1 },
            Turn {
                vcpu: 0,
                count: 2032
            },
        ]?,
        steps: vec![in alloc; 2_035, 16]?,
        ends: vec![in alloc; End::Spent, End::Fault(13)]?,
    };
    let text = report_text(alloc, b"A\n", &finished)?;
    let lines = b"console 2
A

turns 2
turn 1 1
turn 0 2032
vcpu 0 spent steps 2035
vcpu 1 fault 13 steps 16
";
    assert_eq!(rt; text.as_slice(), lines.as_slice());
    Ok(())
}

#[test]
fn a_report_of_nothing(rt: HostRuntime) -> Result<(), Fail> {
    let alloc = rt.alloc();
    let finished = Finished {
        order: Vec::new(alloc),
        steps: vec![in alloc; 0]?,
        ends: vec![in alloc; End::Undecoded]?,
    };
    let text = report_text(alloc, b"", &finished)?;
    assert_eq!(rt;
        text.as_slice(),
        b"console 0\n\nturns 0\nvcpu 0 undecoded steps 0\n".as_slice()
    );
    Ok(())
}

#[test]
fn a_summary_in_print(rt: HostRuntime) {
    let text = summary_text(7, 20_000, 4_000, b"\xFF\xFFA");
    assert!(rt;
        text.is_some_and(|text| text.as_bytes()
            == b"make 7 code 20000 turns 4000 console 3 sum 575\n".as_slice())
    );
}
