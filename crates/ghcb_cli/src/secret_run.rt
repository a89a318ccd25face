// The command `secret`: where the secret of an image flows, on the words of a script.
ghost use Rattle.std.specs.Prelude.{◌≡◌, ◌≤◌, ◌-◌, ◌^◌, refl};
ghost use Rattle.ghcb_cli.specs.declared.command.Command.TheVariants.{Secret};
ghost use Rattle.ghcb_cli.specs.Said.{judging};

use crate::commands::{Ending, OnFiles, put};
use crate::files::{Unready, image_of, script_of};
use host_events::Host;
use image_file::Image;
use page_words::Script;
use run_io::{Files, Sink};
use secret_labels::follow;
use std::alloc::Global;
use verdict_text::verdict_text;

/// Runs vCPU 0 of an image with labels on the words of a script, so many steps, and writes the verdict: whether
/// another secret could show the host anything else. No host is called.
#[derive(Drop)]
pub struct WithLabels {
    pub steps: u64,
    ghost budget: { steps ≤ 2 ^ 64 - 2032 },
}

impl OnFiles for WithLabels {
    type Second = Vec<u64>;

    ghost command = { λ c. Secret c.steps };

    ghost making = { λ c. judging c.steps };

    ghost items = { λ script. script.items };

    fn image<F: Files>(&self, alloc: Global, files: &mut F, name: &str) -> Result<Image, Unready> {
        image_of(alloc, files, name)
    }

    fn second<F: Files>(
        &self,
        alloc: Global,
        files: &mut F,
        name: &str,
    ) -> Result<Vec<u64>, Unready> {
        script_of(alloc, files, name)
    }

    fn run<S: Sink, H: Host>(
        &self,
        alloc: Global,
        image: &Image,
        script: Vec<u64>,
        out: &mut S,
        _host: &mut H,
    ) -> Ending {
        let Ok(verdict) = follow(alloc, image, self.steps, &mut Script::new(script)) else {
            return Ending::OutOfMemory;
        };
        put(out, verdict_text(&verdict).as_bytes(), Ending::Judged)
    }

    ghost made = { λ c. record { made = λ heard image second digits. refl; unread = λ digits. refl } };
}
