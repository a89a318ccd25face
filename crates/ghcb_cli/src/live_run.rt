// The command `live`: an image on a page that another thread changes.
ghost use Rattle.std.specs.Prelude.{◌≡◌, ◌≤◌, ◌-◌, ◌^◌, List, ℕ, Some};
ghost use Rattle.host_events.specs.Hosting.{Hosting};
ghost use Rattle.ghcb_cli.specs.declared.command.Command.TheVariants.{Live};
ghost use Rattle.ghcb_cli.specs.Command.{command_of, command_word};
ghost use Rattle.ghcb_cli.specs.Ending.{EndsAs, LiveEndsAs, told};

use crate::commands::{Ending, put, report};
use crate::files::image_of;
use answered_runs::{AnsweredRun, run_live};
use image_file::Image;
use run_io::{Files, Sink};
use std::alloc::Global;
use std::thread::Threads;

/// Runs vCPU 0 of an image on a page that another thread changes by a seed, so many steps, and writes its trace and its
/// end.
fn run_image<R: Threads, S: Sink>(
    rt: &R,
    alloc: Global,
    image: &Image,
    seed: u64,
    steps: u64,
    out: &mut S,
) -> Ending
    requires budget { steps ≤ 2 ^ 64 - 2032 }
    ensures ends { LiveEndsAs image.now steps (S.told out.old) (S.told out.new) result }
{
    let Ok(answered) = run_live(rt, alloc, image, seed, steps) else {
        return Ending::OutOfMemory;
    };
    let AnsweredRun {
        text,
        finished,
        heard,
    } = answered;
    put(out, &text, Ending::Heard { finished, heard })
}

/// What comes of the command on the image of this name. No other file is read, and no host is called.
pub fn on_live_page<R: Threads, F: Files, S: Sink>(
    rt: &R,
    alloc: Global,
    image: &str,
    seed: u64,
    steps: u64,
    files: &mut F,
    out: &mut S,
) -> Ending
    requires budget { steps ≤ 2 ^ 64 - 2032 }
    ensures ends { (words : List (List ℕ)) (host : Hosting) → command_of words ≡ Some (Live seed steps)
        → image.now ≡ command_word words 1 → EndsAs words
        (told (F.told files.old) (S.told out.old) host)
        (told (F.told files.new) (S.told out.new) host) result }
{
    match image_of(alloc, files, image) {
        Ok(image) => run_image(rt, alloc, &image, seed, steps, out),
        Err(unready) => report(out, unready),
    }
}
