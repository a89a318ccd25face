// The command `plain`: an image over an input, with the devices alone.
ghost use Rattle.std.specs.Prelude.{◌≡◌, ◌≤◌, ◌-◌, ◌^◌, false, refl};
ghost use Rattle.ghcb_cli.specs.declared.command.Command.TheVariants.{Plain};
ghost use Rattle.ghcb_cli.specs.Said.{running};

use crate::commands::{Ending, OnFiles, put};
use crate::files::{Unready, image_of, input_of};
use host_events::Host;
use image_file::Image;
use plain_machine::{PlainDone, run_plain};
use run_io::{Files, Sink};
use std::alloc::Global;

/// Runs an image over an input with the devices alone, so many steps for each vCPU, and writes the
/// console. No host is called.
#[derive(Drop)]
pub struct OverDevices {
    pub steps: u64,
    ghost budget: { steps ≤ 2 ^ 64 - 2032 },
}

impl OnFiles for OverDevices {
    type Second = Vec<u8>;

    ghost command = { λ c. Plain c.steps };

    ghost making = { λ c. running false c.steps };

    ghost items = { λ input. input.items };

    fn image<F: Files>(&self, alloc: Global, files: &mut F, name: &str) -> Result<Image, Unready> {
        image_of(alloc, files, name)
    }

    fn second<F: Files>(
        &self,
        alloc: Global,
        files: &mut F,
        name: &str,
    ) -> Result<Vec<u8>, Unready> {
        input_of(alloc, files, name)
    }

    fn run<S: Sink, H: Host>(
        &self,
        alloc: Global,
        image: &Image,
        input: Vec<u8>,
        out: &mut S,
        _host: &mut H,
    ) -> Ending {
        let Ok(done) = run_plain(alloc, image, input, self.steps) else {
            return Ending::OutOfMemory;
        };
        let PlainDone { console, finished } = done;
        put(out, &console, Ending::Plain(finished))
    }

    ghost made = { λ c. record { made = λ heard image second digits. refl; unread = λ digits. refl } };
}
