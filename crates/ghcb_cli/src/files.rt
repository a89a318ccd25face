// The files that a command names, or why they can't be run.
ghost use Rattle.std.specs.Prelude.{◌≡◌, ◌<◌, ◌^◌, IfOk, IfErr, Ok, Err};
ghost use Rattle.run_io.specs.Outside.{AreRead, FailsToRead};
ghost use Rattle.ghcb_cli.specs.Files.{Holds, limited, image_in, input_in, script_in};
ghost use Rattle.ghcb_cli.specs.Unready.{unready_of, Explains};

use crate::text::Refused;
use image_file::{Image, ImageError};
use run_io::{Files, ReadError, read_whole};
use script_file::{ScriptError, read_script};
use std::alloc::Global;

/// The most bytes of an image file.
const MOST_IMAGE: usize = 16_777_280;

/// The most bytes of an input.
const MOST_INPUT: usize = 16_777_216;

/// The most bytes of a script.
const MOST_SCRIPT: usize = 16_777_216;

/// Why there is nothing to run.
#[derive(Clone, Copy, Debug, PartialEq, Eq)]
pub enum Unready {
    Refused(Refused),
    ReadFault,
    OutOfMemory,
}

/// What a read that didn't come to its end means.
fn unread(error: ReadError) -> Unready
    ensures { result ≡ unready_of error }
{
    match error {
        ReadError::Failed => Unready::ReadFault,
        ReadError::OutOfMemory => Unready::OutOfMemory,
    }
}

/// The bytes of a file, or why there are none; more than `most` bytes are refused so.
fn read_limited<F: Files>(
    alloc: Global,
    files: &mut F,
    name: &str,
    most: usize,
    refused: Refused,
) -> Result<Vec<u8>, Unready>
    requires limit { most < 2 ^ 32 }
    ensures bytes { IfOk result (λ bytes.
        Holds (F.told files.old).folder (limited most refused) name.now (Ok bytes.items)) }
    ensures refused { IfErr result (λ e. Explains e
        (λ r. Holds (F.told files.old).folder (limited most refused) name.now (Err r))
        (FailsToRead name.now (F.told files.old) (F.told files.new))) }
    ensures read { AreRead (F.told files.old) (F.told files.new) }
{
    let bytes = match read_whole(alloc, files, name, most) {
        Ok(bytes) => bytes,
        Err(error) => return Err(unread(error)),
    };
    if bytes.len() > most {
        return Err(Unready::Refused(refused));
    }
    Ok(bytes)
}

/// The image in a file, or why there is none.
pub fn image_of<F: Files>(alloc: Global, files: &mut F, name: &str) -> Result<Image, Unready>
    ensures image { IfOk result (λ image. Holds (F.told files.old).folder image_in name.now (Ok image)) }
    ensures refused { IfErr result (λ e. Explains e
        (λ r. Holds (F.told files.old).folder image_in name.now (Err r))
        (FailsToRead name.now (F.told files.old) (F.told files.new))) }
    ensures read { AreRead (F.told files.old) (F.told files.new) }
{
    let bytes = read_limited(alloc, files, name, MOST_IMAGE, Refused::ImageLimit)?;
    match Image::read(alloc, &bytes) {
        Ok(image) => Ok(image),
        Err(ImageError::Fault(fault)) => Err(Unready::Refused(Refused::Image(fault))),
        Err(ImageError::OutOfMemory) => Err(Unready::OutOfMemory),
    }
}

/// The bytes of the input in a file, or why there are none.
pub fn input_of<F: Files>(alloc: Global, files: &mut F, name: &str) -> Result<Vec<u8>, Unready>
    ensures input { IfOk result (λ input. Holds (F.told files.old).folder input_in name.now (Ok input.items)) }
    ensures refused { IfErr result (λ e. Explains e
        (λ r. Holds (F.told files.old).folder input_in name.now (Err r))
        (FailsToRead name.now (F.told files.old) (F.told files.new))) }
    ensures read { AreRead (F.told files.old) (F.told files.new) }
{
    read_limited(alloc, files, name, MOST_INPUT, Refused::InputLimit)
}

/// The words of the script in a file, or why there are none.
pub fn script_of<F: Files>(alloc: Global, files: &mut F, name: &str) -> Result<Vec<u64>, Unready>
    ensures script { IfOk result (λ script. Holds (F.told files.old).folder script_in name.now (Ok script.items)) }
    ensures refused { IfErr result (λ e. Explains e
        (λ r. Holds (F.told files.old).folder script_in name.now (Err r))
        (FailsToRead name.now (F.told files.old) (F.told files.new))) }
    ensures read { AreRead (F.told files.old) (F.told files.new) }
{
    let bytes = read_limited(alloc, files, name, MOST_SCRIPT, Refused::ScriptLimit)?;
    match read_script(alloc, &bytes) {
        Ok(words) => Ok(words),
        Err(ScriptError::Line(line)) => Err(Unready::Refused(Refused::ScriptLine(line))),
        Err(ScriptError::OutOfMemory) => Err(Unready::OutOfMemory),
    }
}
