// What comes of a command on two files, once its words are read.
ghost use Rattle.std.specs.Prelude.{◌≡◌, List, ℕ, IfOk, IfErr, Some, Ok, Err};
ghost use Rattle.run_io.specs.Outside.{FilesTold, AreRead, FailsToRead};
ghost use Rattle.ghcb_cli.specs.declared.command.Command.{Command};
ghost use Rattle.ghcb_cli.specs.Command.{command_of, command_word};
ghost use Rattle.ghcb_cli.specs.Ending.{EndsAs, GivesUpAs, PutsAs, told};
ghost use Rattle.ghcb_cli.specs.Files.{Holds, AreRefused, AreUnread};
ghost use Rattle.ghcb_cli.specs.Said.{Making, IsMadeBy};
ghost use Rattle.ghcb_cli.specs.Unready.{Explains};

use crate::files::Unready;
use crate::text::Refused;
use event_table::Finished;
use host_events::Host;
use image_file::Image;
use run_io::{Files, Sink};
use std::alloc::Global;

/// How a call ends.
#[derive(Drop)]
pub enum Ending {
    Done(Finished),
    Plain(Finished),
    Made(Finished),
    Answered { finished: Finished, heard: Vec<u64> },
    Heard { finished: Finished, heard: Vec<u64> },
    Judged,
    Usage,
    Shown,
    Refused(Refused),
    ReadFault,
    WriteFault,
    OutOfMemory,
}

/// Puts a text, which ends the call so.
pub fn put<S: Sink>(out: &mut S, text: &[u8], done: Ending) -> Ending
    ensures ends { PutsAs done text.now (S.told out.old) (S.told out.new) result }
{
    match out.put(text) {
        Ok(()) => done,
        Err(_) => Ending::WriteFault,
    }
}

/// Reports why there is nothing to run.
pub fn report<S: Sink>(out: &mut S, unready: Unready) -> Ending
    ensures ends { GivesUpAs unready (S.told out.old) (S.told out.new) result }
{
    match unready {
        Unready::Refused(refused) => put(out, refused.line().as_bytes(), Ending::Refused(refused)),
        Unready::ReadFault => Ending::ReadFault,
        Unready::OutOfMemory => Ending::OutOfMemory,
    }
}

/// A command on two files: an image, and a second file that it reads in its own way.
pub trait OnFiles {
    /// What the second file becomes.
    type Second: Drop;

    /// The command that its words are.
    ghost command: { Self → Command };

    /// What it makes of its files.
    ghost making: { Self → Making };

    /// What the second file became, as a list.
    ghost items: { Self.Second → List ℕ };

    /// The image in the first file, or why there is none.
    fn image<F: Files>(&self, alloc: Global, files: &mut F, name: &str) -> Result<Image, Unready>
        ensures image { IfOk result (λ image.
            Holds (F.told files.old).folder (making self.now).parts.image name.now (Ok image)) }
        ensures refused { IfErr result (λ e. Explains e
            (λ r. Holds (F.told files.old).folder (making self.now).parts.image name.now (Err r))
            (FailsToRead name.now (F.told files.old) (F.told files.new))) }
        ensures read { AreRead (F.told files.old) (F.told files.new) };

    /// What is in the second file, or why there is nothing.
    fn second<F: Files>(
        &self,
        alloc: Global,
        files: &mut F,
        name: &str,
    ) -> Result<Self::Second, Unready>
        ensures second { IfOk result (λ second.
            Holds (F.told files.old).folder (making self.now).parts.second name.now (Ok (items second))) }
        ensures refused { IfErr result (λ e. Explains e
            (λ r. Holds (F.told files.old).folder (making self.now).parts.second name.now (Err r))
            (FailsToRead name.now (F.told files.old) (F.told files.new))) }
        ensures read { AreRead (F.told files.old) (F.told files.new) };

    /// Runs what is in the files, and writes the text of the run.
    fn run<S: Sink, H: Host>(
        &self,
        alloc: Global,
        image: &Image,
        second: Self::Second,
        out: &mut S,
        host: &mut H,
    ) -> Ending
        ensures ends { (words : List (List ℕ)) (old new : FilesTold) → command_of words ≡ Some (command self.now)
            → Holds old.folder (making self.now).parts.image (command_word words 1) (Ok image.now)
            → Holds old.folder (making self.now).parts.second (command_word words 2) (Ok (items second))
            → EndsAs words (told old (S.told out.old) (H.told host.old))
            (told new (S.told out.new) (H.told host.new)) result };

    ghost made: { (c : Self) → IsMadeBy (command c) (making c) };
}

/// What is in the files of these names, or why they can't be run.
pub fn read_both<C: OnFiles, F: Files>(
    alloc: Global,
    command: &C,
    image: &str,
    second: &str,
    files: &mut F,
) -> Result<(Image, C::Second), Unready>
    ensures image { IfOk result (λ r.
        Holds (F.told files.old).folder (C.making command.now).parts.image image.now (Ok r.0)) }
    ensures second { IfOk result (λ r.
        Holds (F.told files.old).folder (C.making command.now).parts.second second.now (Ok (C.items r.1))) }
    ensures refused { IfErr result (λ e. Explains e
        (λ r. AreRefused (C.making command.now).parts (F.told files.old).folder image.now second.now r)
        (AreUnread (C.making command.now).parts image.now second.now (F.told files.old) (F.told files.new))) }
{
    let image = command.image(alloc, files, image)?;
    let second = command.second(alloc, files, second)?;
    Ok((image, second))
}

/// What comes of a command on the files of these names.
pub fn on_files<C: OnFiles, F: Files, S: Sink, H: Host>(
    alloc: Global,
    command: &C,
    image: &str,
    second: &str,
    files: &mut F,
    out: &mut S,
    host: &mut H,
) -> Ending
    ensures ends { (words : List (List ℕ)) → command_of words ≡ Some (C.command command.now)
        → image.now ≡ command_word words 1 → second.now ≡ command_word words 2 → EndsAs words
        (told (F.told files.old) (S.told out.old) (H.told host.old))
        (told (F.told files.new) (S.told out.new) (H.told host.new)) result }
{
    match read_both(alloc, command, image, second, files) {
        Ok((image, second)) => command.run(alloc, &image, second, out, host),
        Err(unready) => report(out, unready),
    }
}
