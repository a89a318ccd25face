// The command `make`: the image that a number makes, over the host.
ghost use Rattle.std.specs.Prelude.{◌≡◌, IfOk};
ghost use Rattle.image_file.specs.Made.{made_contents};
ghost use Rattle.ghcb_cli.specs.Ending.{MakeEndsAs};

use crate::commands::{Ending, put};
use host_events::Host;
use image_file::{Image, ImageError, make_image};
use report_text::summary_text;
use round_runner::run_rounds;
use run_io::Sink;
use std::alloc::{AllocError as OutOfMemory, Global};

/// The steps of each vCPU.
const MAKE_STEPS: u64 = 65_536;

/// The image that a number makes. Its file meets the rules of an image, so that memory alone can be wanting.
fn made(alloc: Global, number: u16) -> Result<Image, OutOfMemory>
    ensures image { IfOk result (λ image. image ≡ made_contents number) }
{
    let file = make_image(alloc, number)?;
    match Image::read(alloc, &file) {
        Ok(image) => Ok(image),
        Err(ImageError::OutOfMemory) => Err(OutOfMemory),
        Err(ImageError::Fault(_)) => unreachable!(),
    }
}

/// Runs the image that a number makes over no input and the host, 65,536 steps for each vCPU, and writes the
/// summary.
pub fn run_made<S: Sink, H: Host>(alloc: Global, number: u16, out: &mut S, host: &mut H) -> Ending
    ensures ends { MakeEndsAs number (H.told host.old) (H.told host.new) (S.told out.old) (S.told out.new) result }
{
    let Ok(image) = made(alloc, number) else {
        return Ending::OutOfMemory;
    };
    let Ok(finished) = run_rounds(alloc, &image, Vec::new(alloc), MAKE_STEPS, host) else {
        return Ending::OutOfMemory;
    };
    let turns = finished.order.len();
    // A sum that isn't a u64 is one of more bytes than a memory has.
    let Some(text) = summary_text(number, image.code_len(), turns, host.console()) else {
        return Ending::OutOfMemory;
    };
    put(out, text.as_bytes(), Ending::Made(finished))
}
