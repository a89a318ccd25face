use crate::{PlainDone, run_plain};
use event_table::{End, Turn};
use image_file::Image;
use image_samples::sample_file;
use std::alloc::Global;
use std::test::Fail;

/// An image of so many vCPUs with this code, data behind it, and a handler of #GP.
fn image_of(alloc: Global, vcpus: u8, code: &[u8], data: &[u8], gp: u32) -> Result<Image, Fail> {
    let mut file = sample_file(alloc, code, 0, gp)?;
    file[8] = vcpus;
    let [low, high, ..] = u64::to_le_bytes(data.len() as u64);
    file[20] = low;
    file[21] = high;
    file.extend_from_slice(data)?;
    Ok(Image::read(alloc, &file)?)
}

/// What the run of an image with one handler leaves.
fn run(
    alloc: Global,
    vcpus: u8,
    code: &[u8],
    gp: u32,
    input: &[u8],
    budget: u32,
) -> Result<PlainDone, Fail> {
    let image = image_of(alloc, vcpus, code, &[], gp)?;
    Ok(run_plain(alloc, &image, input.to_vec(alloc)?, u64::from(budget))?)
}

/// The vCPUs and the counts of an order.
fn is_order(order: &[Turn], want: &[(u16, u16)]) -> bool {
    order.len() == want.len()
        && order.iter().zip(want).all(|(turn, (vcpu, count))| turn.vcpu == *vcpu
            && turn.count == *count)
}

/// MOV EDX, 3F8h; MOV AL, 'H'; OUT DX, AL; HLT
const HELLO: [u8; 9] = [0xBA, 0xF8, 3, 0, 0, 0xB0, 0x48, 0xEE, 0xF4];

#[test]
fn a_byte_is_put_out(rt: HostRuntime) -> Result<(), Fail> {
    let done = run(rt.alloc(), 1, &HELLO, 0, b"", 100)?;
    assert_eq!(rt; done.console.as_slice(), b"H".as_slice());
    assert!(rt; is_order(&done.finished.order, &[(0, 1)]));
    assert_eq!(rt; done.finished.steps.as_slice(), [4u64].as_slice());
    assert_eq!(rt; done.finished.ends.as_slice(), [End::Halted].as_slice());
    Ok(())
}

#[test]
fn a_budget_ends_it(rt: HostRuntime) -> Result<(), Fail> {
    for (budget, console, turns, end) in [
        (1, b"".as_slice(), 0, End::Spent),
        (2, b"".as_slice(), 0, End::Spent),
        (3, b"H".as_slice(), 1, End::Spent),
        (4, b"H".as_slice(), 1, End::Halted),
    ] {
        let done = run(rt.alloc(), 1, &HELLO, 0, b"", budget)?;
        assert_eq!(rt; done.console.as_slice(), console);
        assert_eq!(rt; done.finished.order.len(), turns);
        assert_eq!(rt;
            done.finished.steps.as_slice(),
            [u64::from(budget)].as_slice()
        );
        assert_eq!(rt; done.finished.ends.as_slice(), [end].as_slice());
    }
    Ok(())
}

#[test]
fn a_string_goes_out_in_blocks(rt: HostRuntime) -> Result<(), Fail> {
    // MOV ESI, 12h; MOV ECX, 7F1h; MOV EDX, 3F8h; REP OUTSB; HLT; and from 12h on 2,033 bytes
    let code = [
        0xBE, 0x12, 0, 0, 0, 0xB9, 0xF1, 7, 0, 0, 0xBA, 0xF8, 3, 0, 0, 0xF3, 0x6E, 0xF4,
    ];
    let mut data = Vec::new(rt.alloc());
    for k in 0u16..2033 {
        data.push((k % 251) as u8)?;
    }
    let image = image_of(rt.alloc(), 1, &code, &data, 0)?;
    let all = run_plain(rt.alloc(), &image, Vec::new(rt.alloc()), 10_000)?;
    assert_eq!(rt; all.console.as_slice(), data.as_slice());
    assert!(rt; is_order(&all.finished.order, &[(0, 2032), (0, 1)]));
    assert_eq!(rt; all.finished.steps.as_slice(), [2037u64].as_slice());
    assert_eq!(rt; all.finished.ends.as_slice(), [End::Halted].as_slice());
    // A block that begins within the budget is done whole.
    let spent = run_plain(rt.alloc(), &image, Vec::new(rt.alloc()), 4)?;
    assert_eq!(rt; spent.console.len(), 2032);
    assert!(rt; data.starts_with(&spent.console));
    assert!(rt; is_order(&spent.finished.order, &[(0, 2032)]));
    assert_eq!(rt; spent.finished.steps.as_slice(), [2035u64].as_slice());
    assert_eq!(rt; spent.finished.ends.as_slice(), [End::Spent].as_slice());
    Ok(())
}

#[test]
fn no_element_is_asked_of_none(rt: HostRuntime) -> Result<(), Fail> {
    // REP OUTSB; HLT
    let done = run(rt.alloc(), 1, &[0xF3, 0x6E, 0xF4], 0, b"", 100)?;
    assert_eq!(rt; done.console.as_slice(), b"".as_slice());
    assert!(rt; done.finished.order.is_empty());
    assert_eq!(rt; done.finished.steps.as_slice(), [2u64].as_slice());
    Ok(())
}

#[test]
fn a_block_stops_before_an_element_with_code_bytes(rt: HostRuntime) -> Result<(), Fail> {
    // MOV EDI, 18h; STD; MOV ECX, 3; MOV EDX, 500h; REP INSD; HLT
    let code = [
        0xBF, 0x18, 0, 0, 0, 0xFD, 0xB9, 3, 0, 0, 0, 0xBA, 0, 5, 0, 0, 0xF3, 0x6D, 0xF4,
    ];
    let done = run(rt.alloc(), 1, &code, 0, b"", 100)?;
    assert!(rt; is_order(&done.finished.order, &[(0, 2)]));
    assert_eq!(rt; done.finished.steps.as_slice(), [6u64].as_slice());
    assert_eq!(rt;
        done.finished.ends.as_slice(),
        [End::BadAddress(0x10)].as_slice()
    );
    Ok(())
}

#[test]
fn an_exception_of_the_devices_is_delivered(rt: HostRuntime) -> Result<(), Fail> {
    // MOV ECX, 99h; RDMSR; HLT; the handler: ADD RSP, 8; ADD QWORD [RSP], 2; IRETQ
    let code = [
        0xB9, 0x99, 0, 0, 0, 0x0F, 0x32, 0xF4, 0x48, 0x83, 0xC4, 8, 0x48, 0x83, 0x04, 0x24, 2,
        0x48, 0xCF,
    ];
    let handled = run(rt.alloc(), 1, &code, 8, b"", 100)?;
    assert!(rt; is_order(&handled.finished.order, &[(0, 1)]));
    assert_eq!(rt; handled.finished.steps.as_slice(), [6u64].as_slice());
    assert_eq!(rt; handled.finished.ends.as_slice(), [End::Halted].as_slice());
    // With no handler it ends the vCPU, and the access is an item still.
    let none = run(rt.alloc(), 1, &code, 0, b"", 100)?;
    assert!(rt; is_order(&none.finished.order, &[(0, 1)]));
    assert_eq!(rt; none.finished.steps.as_slice(), [1u64].as_slice());
    assert_eq!(rt; none.finished.ends.as_slice(), [End::Fault(13)].as_slice());
    Ok(())
}

#[test]
fn a_page_of_devices_keeps_what_is_written(rt: HostRuntime) -> Result<(), Fail> {
    // MOV EBX, FEB00FFFh; MOV BYTE [RBX], 80h; MOVSX EAX, BYTE [RBX]; MOV EDX, 3F8h; OUT DX, AL;
    // MOV AX, [RBX]
    let code = [
        0xBB, 0xFF, 0x0F, 0xB0, 0xFE, 0xC6, 3, 0x80, 0x0F, 0xBE, 3, 0xBA, 0xF8, 3, 0, 0, 0xEE,
        0x66, 0x8B, 3, 0xF4,
    ];
    let done = run(rt.alloc(), 1, &code, 0, b"", 100)?;
    assert_eq!(rt; done.console.as_slice(), [0x80u8].as_slice());
    assert!(rt; is_order(&done.finished.order, &[(0, 1), (0, 1), (0, 1)]));
    assert_eq!(rt; done.finished.steps.as_slice(), [5u64].as_slice());
    assert_eq!(rt;
        done.finished.ends.as_slice(),
        [End::BadAddress(0xFEB0_0FFF)].as_slice()
    );
    Ok(())
}

#[test]
fn what_comes_in_goes_out(rt: HostRuntime) -> Result<(), Fail> {
    let code = [
        0xBA, 0xFD, 3, 0, 0, 0xEC, 0xA8, 1, 0x74, 9, 0xBA, 0xF8, 3, 0, 0, 0xEC, 0xEE, 0xEB, 0xED,
        0xF4,
    ];
    let done = run(rt.alloc(), 1, &code, 0, b"hi", 100)?;
    assert_eq!(rt; done.console.as_slice(), b"hi".as_slice());
    assert_eq!(rt; done.finished.order.len(), 7);
    assert_eq!(rt; done.finished.steps.as_slice(), [21u64].as_slice());
    assert_eq!(rt; done.finished.ends.as_slice(), [End::Halted].as_slice());
    Ok(())
}

#[test]
fn two_vcpus_pass_letters_through_mailboxes(rt: HostRuntime) -> Result<(), Fail> {
    let code = [
        0x8D, 0x47, 0x41, 0x31, 0xD2, 0xB9, 0, 0x10, 0, 0x40, 0x0F, 0x30, 0xBA, 0xF8, 3, 0, 0,
        0xEE, 0x8D, 0x14, 0xBD, 0, 5, 0, 0, 0xEF, 0x83, 0xF2, 4, 0xED, 0xBA, 0xF8, 3, 0, 0, 0xEE,
        0x0F, 0x32, 0xBA, 0xF8, 3, 0, 0, 0xEE, 0xF4,
    ];
    let done = run(rt.alloc(), 2, &code, 0, b"", 100)?;
    assert_eq!(rt; done.console.as_slice(), b"ABBAAB".as_slice());
    let order = &done.finished.order;
    assert_eq!(rt; order.len(), 14);
    for (k, turn) in order.iter().enumerate() {
        assert_eq!(rt; usize::from(turn.vcpu), k % 2);
        assert_eq!(rt; turn.count, 1);
    }
    assert_eq!(rt; done.finished.steps.as_slice(), [16u64, 16].as_slice());
    assert_eq!(rt; done.finished.ends.as_slice(), [End::Halted; 2].as_slice());
    Ok(())
}

#[test]
fn eight_vcpus_put_out_their_numbers_in_turn(rt: HostRuntime) -> Result<(), Fail> {
    // MOV EAX, EDI; MOV EDX, 3F8h; OUT DX, AL; JMP -3
    let code = [0x89, 0xF8, 0xBA, 0xF8, 3, 0, 0, 0xEE, 0xEB, 0xFD];
    let done = run(rt.alloc(), 8, &code, 0, b"", 1000)?;
    let order = &done.finished.order;
    assert_eq!(rt; (done.console.len(), order.len()), (3992, 3992));
    for (k, (byte, turn)) in done.console.iter().zip(order).enumerate() {
        assert_eq!(rt; usize::from(*byte), k % 8);
        assert_eq!(rt; (usize::from(turn.vcpu), turn.count), (k % 8, 1));
    }
    assert_eq!(rt; done.finished.steps.as_slice(), [1000u64; 8].as_slice());
    assert_eq!(rt; done.finished.ends.as_slice(), [End::Spent; 8].as_slice());
    Ok(())
}

#[test]
fn one_that_has_ended_gets_no_more_items(rt: HostRuntime) -> Result<(), Fail> {
    // MOV EDX, 3F8h; LEA EAX, [RDI+41h]; OUT DX, AL; DEC RDI; JNS -5; HLT: vCPU i puts out i + 1 letters
    let code = [
        0xBA, 0xF8, 3, 0, 0, 0x8D, 0x47, 0x41, 0xEE, 0x48, 0xFF, 0xCF, 0x79, 0xFA, 0xF4,
    ];
    let done = run(rt.alloc(), 3, &code, 0, b"", 100)?;
    assert_eq!(rt; done.console.as_slice(), b"ABCBCC".as_slice());
    let want = [(0, 1), (1, 1), (2, 1), (1, 1), (2, 1), (2, 1)];
    assert!(rt; is_order(&done.finished.order, &want));
    assert_eq!(rt; done.finished.steps.as_slice(), [6u64, 9, 12].as_slice());
    assert_eq!(rt; done.finished.ends.as_slice(), [End::Halted; 3].as_slice());
    Ok(())
}

#[test]
fn no_budget_is_no_step(rt: HostRuntime) -> Result<(), Fail> {
    let done = run(rt.alloc(), 2, &HELLO, 0, b"", 0)?;
    assert!(rt; done.finished.order.is_empty());
    assert_eq!(rt; done.finished.steps.as_slice(), [0u64; 2].as_slice());
    assert_eq!(rt; done.finished.ends.as_slice(), [End::Spent; 2].as_slice());
    Ok(())
}
