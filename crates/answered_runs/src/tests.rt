// A guest over a script and over a page that another thread changes.
ghost use Rattle.std.specs.Prelude.{◌≡◌, None};

use crate::{AnsweredRun, run_live, run_over};
use event_table::{End, Reason};
use image_samples::sample_image;
use page_words::{Page, Script};
use std::alloc::Global;
use std::test::Fail;

/// The host offers version 1.
const VERSION_1: u64 = 0x0001_0001_3300_0001;

/// MOV EDX, 3F8h; MOV AL, 48h; OUT DX, AL; HLT.
const PRINTS: [u8; 9] = [0xBA, 0xF8, 3, 0, 0, 0xB0, 0x48, 0xEE, 0xF4];

/// The run of the guest that prints, over a page.
fn prints_over<P: Page>(alloc: Global, page: P) -> Result<AnsweredRun, Fail>
    requires unbounded { (P.told page).spare ≡ None }
{
    let image = sample_image(alloc, &PRINTS, 0, 0)?;
    Ok(run_over(alloc, &image, page, 100)?)
}

#[test]
fn a_script_is_heard_as_far_as_it_is_asked(rt: HostRuntime) -> Result<(), Fail> {
    let alloc = rt.alloc();
    let script = Vec::from_slice(alloc, &[VERSION_1, 1, 0x8000_0B0D, 5])?;
    let run = prints_over(alloc, Script::new(script))?;
    assert_eq!(rt;
        run.heard.as_slice(),
        [VERSION_1, 1, 0x8000_0B0D].as_slice()
    );
    assert_eq!(rt; run.finished.steps.as_slice(), [2].as_slice());
    assert_eq!(rt; run.finished.ends.as_slice(), [End::Fault(13)].as_slice());
    let first = b"exit 0000000000000002\nmsr 0001000133000001\n";
    let last = b"load 116 0000000080000b0d\nend fault 13 steps 2\n";
    assert!(rt; run.text.starts_with(first) && run.text.ends_with(last));
    Ok(())
}

#[test]
fn a_page_that_changes_is_heard(rt: HostRuntime) -> Result<(), Fail> {
    let image = sample_image(rt.alloc(), &PRINTS, 0, 0)?;
    let run = run_live(&rt, rt.alloc(), &image, 1, 100)?;
    assert_eq!(rt; run.heard.first(), Some(&VERSION_1));
    let [end] = run.finished.ends.as_slice() else {
        return Err(Fail::from("no end"));
    };
    let bad = End::Terminated(Reason::BadException(0));
    assert!(rt; [End::Halted, End::Fault(13), bad].contains(end));
    Ok(())
}
