// Guests with a secret that ask for events: what they show the host, and what comes back.
use crate::tests::is_so;
use std::test::Fail;

/// What is shown: a port, a register of the event's row, or what a move writes to the page of devices.
const SHOWN: &str = "\
14 | EE | | 0 0 | named | 1 ; OUT DX, AL
04 | E6 10 | | 0 0 | named | 1 ; OUT 10, AL
14 | E6 10 F4 | | 0 0 | halted | 3
14 | EC | | 0 0 | named | 1 ; IN AL, DX
04 | 0F A2 | | 0 0 | named | 1 ; CPUID
0C | 0F A2 | | 0 0 | named | 1
0C | 0F 32 | | 0 0 | named | 1 ; RDMSR
0C | 0F 30 | | 0 0 | named | 1 ; WRMSR
04 | 0F 30 | | 0 0 | named | 1
14 | 0F 30 | | 0 0 | named | 1
0C | 0F 33 | | 0 0 | named | 1 ; RDPMC
04 | 0F 01 D9 | | 0 0 | named | 1 ; VMMCALL
04 | 0F 09 F4 | | 0 0 | halted | 3 ; WBINVD
04 | BB 00 00 B0 FE 88 03 | | 0 0 | named | 2 ; MOV [RBX], AL
04 | BB 00 00 B0 FE C6 03 05 F4 | | 0 0 | halted | 4";

/// What comes back has no label: a register keeps its own where it is written at 8 or 16 bits.
const RESULTS: &str = "\
04 | EC EE | 0 8000000000000000 42 | 0 0 | named | 2 ; IN AL, DX
04 | 66 ED EE | 0 8000000000000000 42 | 0 0 | named | 2 ; IN AX, DX
04 | ED EE F4 | 0 8000000000000000 42 | 0 0 | halted | 4 ; IN EAX, DX
04 | 0F 31 EE F4 | 0 8000000000000000 400000000 | 0 0 | halted | 4 ; RDTSC
14 | 0F 31 EE F4 | 0 8000000000000000 400000000 | 0 0 | halted | 4
1C | 0F A2 8A 03 F4 | 0 8000000000000000 E00000000 | 0 0 | halted | 4 ; CPUID; MOV AL, [RBX]
04 | BB 00 00 B0 FE 8A 03 EE | | 0 0 | named | 3 ; MOV AL, [RBX]
04 | BB 00 00 B0 FE 8B 03 EE F4 | | 0 0 | halted | 5 ; MOV EAX, [RBX]";

#[test]
fn registers_are_shown_and_written(rt: HostRuntime) -> Result<(), Fail> {
    for rows in [SHOWN, RESULTS] {
        for line in rows.lines() {
            assert!(rt; is_so(rt.alloc(), line)?, "{line}");
        }
    }
    Ok(())
}

/// OUTS: with REP the count goes into addresses, and where it isn't 0 the pointer does, also where nothing can be moved;
/// then the port and each byte of the block are shown.
const OUTPUTS: &str = "\
34 | 6E | | 0 0 | address | 1 ; OUTSB
0C | F3 6E | | 0 0 | address | 1 ; REP OUTSB, where RCX is 0
34 | F3 6E F4 | | 0 0 | halted | 3 ; whose pointer isn't looked at then
34 | B9 01 00 00 00 F3 6E | | 0 0 | address | 2
0C | 6E F4 | | 0 0 | halted | 3
14 | 6E | | 0 0 | named | 1
14 | F3 6E F4 | | 0 0 | halted | 3
34 | 48 8B 14 25 00 01 00 00 6E | | 0 0 | address | 2
14 | 48 8B 0C 25 00 01 00 00 F3 6E | | 0 0 | address | 2
| BE 00 01 00 00 6E | | 0 0 | named | 1
| BE FF 00 00 00 66 6F | | 0 0 | named | 1 ; OUTSW
| BE FE 00 00 00 66 6F F4 | | 0 0 | halted | 3
| BE F8 00 00 00 B9 08 00 00 00 F3 6E F4 | | 0 0 | halted | B
| BE F8 00 00 00 B9 09 00 00 00 F3 6E | | 0 0 | named | 2
| FD BE 17 01 00 00 B9 08 00 00 00 F3 6E F4 | | 0 0 | halted | C ; downwards
| FD BE 17 01 00 00 B9 09 00 00 00 F3 6E | | 0 0 | named | 3";

/// INS: the bytes that it writes lose their labels, and no others.
const INPUTS: &str = "\
3C | 6C | | 0 0 | address | 1 ; INSB, which could write code alone
0C | F3 6C | | 0 0 | address | 1
3C | F3 6C F4 | | 0 0 | halted | 3 ; REP INSB, where RCX is 0
3C | B9 01 00 00 00 F3 6C | | 0 0 | address | 2
14 | 6C | | 0 0 | bad-address | 1
14 | BF 00 01 00 00 6C | | 0 0 | named | 2
| BF 00 01 00 00 6C 8A 04 25 00 01 00 00 EE F4 | | 0 0 | halted | 5
| BF 00 01 00 00 6C 8A 04 25 01 01 00 00 EE | | 0 0 | named | 3
| BF 00 01 00 00 B9 02 00 00 00 66 F3 6D 8A 04 25 03 01 00 00 EE F4 | | 0 0 | halted | 7 ; REP INSW
| BF 00 01 00 00 B9 02 00 00 00 66 F3 6D 8A 04 25 04 01 00 00 EE | | 0 0 | named | 5
| FD BF 01 01 00 00 B9 02 00 00 00 F3 6C 8A 04 25 00 01 00 00 EE F4 | | 0 0 | halted | 8 ; downwards
| FD BF 01 01 00 00 B9 02 00 00 00 F3 6C 8A 04 25 02 01 00 00 EE | | 0 0 | named | 6";

#[test]
fn blocks_are_shown_and_written(rt: HostRuntime) -> Result<(), Fail> {
    for rows in [OUTPUTS, INPUTS] {
        for line in rows.lines() {
            assert!(rt; is_so(rt.alloc(), line)?, "{line}");
        }
    }
    Ok(())
}

/// The host raises #GP or #UD in the place of IN AL, DX. The handler pops down to the flags word, which has the flags'
/// label; what else was pushed has none, also over labelled bytes; and the flags keep theirs. RSP goes into an address
/// once the reply was accepted, and not before.
const EXCEPTIONS: &str = "\
04 | 84 C0 EC 58 58 58 58 EE | 1 80000B0D | 0 B | named | 7
04 | 84 C0 EC 58 58 58 EE F4 | 1 80000B0D | 0 B | halted | 8
04 | 84 C0 EC 58 58 58 EE | 1 80000B06 | B 0 | named | 6
04 | EC 58 58 58 58 EE F4 | 1 80000B0D | 0 9 | halted | 8
04 | 50 50 50 50 50 50 5B 5B 5B 5B 5B 5B EC 58 58 58 EE F4 | 1 80000B0D | 0 15 | halted | 13
04 | 84 C0 EC 74 00 | 1 80000B0D | 0 B | branch | 3
24 | EC 90 | 1 80000B0D | 0 9 | address | 1
24 | EC 90 | 1 80000B0D | 9 0 | fault | 1
24 | EC 90 | 1 80000B0E | 0 9 | terminated | 1
24 | 48 8B 14 25 00 01 00 00 EC | 1 80000B0D | 0 9 | named | 2";

#[test]
fn exceptions_push_the_flags(rt: HostRuntime) -> Result<(), Fail> {
    for line in EXCEPTIONS.lines() {
        assert!(rt; is_so(rt.alloc(), line)?, "{line}");
    }
    Ok(())
}
