use crate::{ScriptError, read_script};
use std::alloc::Global;
use std::test::Fail;

/// The first line of these that isn't so, or 0.
fn fault(alloc: Global, text: &str) -> Result<u64, Fail> {
    match read_script(alloc, text.as_bytes()) {
        Ok(_) => Ok(0),
        Err(ScriptError::Line(line)) => Ok(line),
        Err(ScriptError::OutOfMemory) => Err(Fail::new("out of memory")),
    }
}

#[test]
fn digits_in_either_case(rt: HostRuntime) -> Result<(), Fail> {
    let text = "0001000133000001\n80000B0Dffffffff\n0123456789abcdEF\n";
    let Ok(words) = read_script(rt.alloc(), text.as_bytes()) else {
        return Err(Fail::new("no script"));
    };
    let wanted = [
        0x0001_0001_3300_0001,
        0x8000_0B0D_FFFF_FFFF,
        0x0123_4567_89AB_CDEF,
    ];
    assert!(rt; words.as_slice() == wanted.as_slice());
    Ok(())
}

#[test]
fn an_empty_file_is_an_empty_script(rt: HostRuntime) -> Result<(), Fail> {
    let Ok(words) = read_script(rt.alloc(), b"") else {
        return Err(Fail::new("no script"));
    };
    assert!(rt; words.is_empty());
    Ok(())
}

#[test]
fn the_first_line_that_is_not_so_is_the_fault(rt: HostRuntime) -> Result<(), Fail> {
    let alloc = rt.alloc();
    assert_eq!(rt; fault(alloc, "0001000133000001")?, 1);
    assert_eq!(rt; fault(alloc, "0001000133000001\n00010001330000011\n")?, 2);
    assert_eq!(rt;
        fault(
            alloc,
            "0001000133000001\n0000000000000000\n000000000000000g\n\n"
        )?,
        3
    );
    assert_eq!(rt; fault(alloc, "0001000133000001\n\n")?, 2);
    assert_eq!(rt; fault(alloc, "0001000133000001\r\n")?, 1);
    assert_eq!(rt; fault(alloc, "0001000133000001\n0000000000000000\n")?, 0);
    Ok(())
}
