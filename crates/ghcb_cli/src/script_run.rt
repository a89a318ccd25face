// The command `hostile`: an image on the words of a script.
ghost use Rattle.std.specs.Prelude.{◌≡◌, ◌≤◌, ◌-◌, ◌^◌, refl};
ghost use Rattle.ghcb_cli.specs.declared.command.Command.TheVariants.{Hostile};
ghost use Rattle.ghcb_cli.specs.Said.{answering};

use crate::commands::{Ending, OnFiles, put};
use crate::files::{Unready, image_of, script_of};
use answered_runs::{AnsweredRun, run_over};
use host_events::Host;
use image_file::Image;
use page_words::Script;
use run_io::{Files, Sink};
use std::alloc::Global;

/// Runs vCPU 0 of an image on the words of a script, so many steps, and writes its trace and its end. No host
/// is called.
#[derive(Drop)]
pub struct OnScript {
    pub steps: u64,
    ghost budget: { steps ≤ 2 ^ 64 - 2032 },
}

impl OnFiles for OnScript {
    type Second = Vec<u64>;

    ghost command = { λ c. Hostile c.steps };

    ghost making = { λ c. answering c.steps };

    ghost items = { λ script. script.items };

    fn image<F: Files>(&self, alloc: Global, files: &mut F, name: &str) -> Result<Image, Unready> {
        image_of(alloc, files, name)
    }

    fn second<F: Files>(
        &self,
        alloc: Global,
        files: &mut F,
        name: &str,
    ) -> Result<Vec<u64>, Unready> {
        script_of(alloc, files, name)
    }

    fn run<S: Sink, H: Host>(
        &self,
        alloc: Global,
        image: &Image,
        script: Vec<u64>,
        out: &mut S,
        _host: &mut H,
    ) -> Ending {
        let page = Script::new(script);
        let Ok(answered) = run_over(alloc, image, page, self.steps) else {
            return Ending::OutOfMemory;
        };
        let AnsweredRun {
            text,
            finished,
            heard,
        } = answered;
        put(out, &text, Ending::Answered { finished, heard })
    }

    ghost made = { λ c. record { made = λ heard image second digits. refl; unread = λ digits. refl } };
}
