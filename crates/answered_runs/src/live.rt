// The run over a page that another thread changes.
ghost use Rattle.std.specs.Prelude.{◌≡◌, ◌≤◌, ◌-◌, ◌^◌, IfOk};
ghost use Rattle.answered_runs.specs.Answered.{answered_text, IsAnswered};

use crate::over::{AnsweredRun, run_over};
use hostile_host::Live;
use image_file::Image;
use std::alloc::{AllocError as OutOfMemory, Global};
use std::thread;
use std::thread::Threads;

/// Runs vCPU 0 of an image to its end over a page that another thread changes, within its budget of steps.
///
/// The caller makes the changes of the seed once, before the guest runs. Then a thread makes them again, beside the
/// guest's run; where no thread can be made, the caller makes them after it. The text, the steps and the end are those
/// of the image's run on the words that came, and these words are handed back. No clause tells which words come: that
/// they are words of the page is seen by tests alone, and that the page changes while the guest runs is shown by
/// nothing.
pub fn run_live<R: Threads>(
    rt: &R,
    alloc: Global,
    image: &Image,
    seed: u64,
    steps: u64,
) -> Result<AnsweredRun, OutOfMemory>
    requires budget { steps ≤ 2 ^ 64 - 2032 }
    ensures text { IfOk result (λ run. run.text.items ≡ answered_text image.now steps run.heard.items) }
    ensures answered { IfOk result (λ run. IsAnswered image.now steps run.heard.items run.finished run.heard.items) }
{
    let live = Live::new();
    live.change(seed);
    thread::join(
        rt,
        || live.change(seed),
        || run_over(alloc, image, live.end(), steps),
    )
    .1
}
