// The command `run`: an image over an input and the host.
ghost use Rattle.std.specs.Prelude.{◌≡◌, ◌≤◌, ◌-◌, ◌^◌, refl};
ghost use Rattle.ghcb_cli.specs.declared.command.Command.TheVariants.{Run};
ghost use Rattle.ghcb_cli.specs.Ending.{IsWritten};
ghost use Rattle.ghcb_cli.specs.Said.{running};

use crate::commands::{Ending, OnFiles, put};
use crate::files::{Unready, image_of, input_of};
use event_table::Finished;
use host_events::Host;
use image_file::Image;
use report_text::report_text;
use round_runner::run_rounds;
use run_io::{Files, Sink};
use std::alloc::Global;

/// Writes what is wanted of a run that put out these bytes: the bytes, or its report.
fn write_run<S: Sink>(
    alloc: Global,
    report: bool,
    console: &[u8],
    finished: Finished,
    out: &mut S,
) -> Ending
    ensures ends { IsWritten report console.now finished (S.told out.old) (S.told out.new) result }
{
    if !report {
        return put(out, console, Ending::Done(finished));
    }
    let Ok(text) = report_text(alloc, console, &finished) else {
        return Ending::OutOfMemory;
    };
    put(out, &text, Ending::Done(finished))
}

/// Runs an image over an input and the host, so many steps for each vCPU, and writes the console or the report.
#[derive(Drop)]
pub struct OverHost {
    pub steps: u64,
    pub report: bool,
    ghost budget: { steps ≤ 2 ^ 64 - 2032 },
}

impl OnFiles for OverHost {
    type Second = Vec<u8>;

    ghost command = { λ c. Run c.steps c.report };

    ghost making = { λ c. running c.report c.steps };

    ghost items = { λ input. input.items };

    fn image<F: Files>(&self, alloc: Global, files: &mut F, name: &str) -> Result<Image, Unready> {
        image_of(alloc, files, name)
    }

    fn second<F: Files>(
        &self,
        alloc: Global,
        files: &mut F,
        name: &str,
    ) -> Result<Vec<u8>, Unready> {
        input_of(alloc, files, name)
    }

    fn run<S: Sink, H: Host>(
        &self,
        alloc: Global,
        image: &Image,
        input: Vec<u8>,
        out: &mut S,
        host: &mut H,
    ) -> Ending {
        let Ok(finished) = run_rounds(alloc, image, input, self.steps, host) else {
            return Ending::OutOfMemory;
        };
        write_run(alloc, self.report, host.console(), finished, out)
    }

    ghost made = { λ c. record { made = λ heard image second digits. refl; unread = λ digits. refl } };
}
