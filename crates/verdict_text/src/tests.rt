use crate::verdict_text;
use event_table::{End, Reason};
use secret_labels::{Verdict, What};

#[test]
fn each_verdict_in_print(rt: HostRuntime) {
    let verdicts = [
        (
            Verdict::Clean {
                end: End::Halted,
                steps: 4,
            },
            "clean\nend halted steps 4\n",
        ),
        (
            Verdict::Clean {
                end: End::Terminated(Reason::NoProtocol(0)),
                steps: 0,
            },
            "clean\nend terminated no-protocol 0000000000000000 steps 0\n",
        ),
        (
            Verdict::Flows {
                step: 2,
                what: What::Branch,
            },
            "flows 2 branch\n",
        ),
        (
            Verdict::Flows {
                step: 65_535,
                what: What::Address,
            },
            "flows 65535 address\n",
        ),
        (
            Verdict::Flows {
                step: 0,
                what: What::Named,
            },
            "flows 0 named\n",
        ),
    ];
    for (verdict, text) in verdicts {
        assert!(rt; verdict_text(&verdict).as_bytes() == text.as_bytes());
    }
}
