// What comes of the words of `ghcb_smp`: the run of an image over an input, with a worker for each vCPU.
ghost use Rattle.std.specs.Prelude.{◌≡◌, ◌≤◌, ◌-◌, ◌^◌, map, IfOk, IfErr};
ghost use Rattle.std.specs.String.{string_bytes};
ghost use Rattle.host_events.specs.Hosting.{IsTelling};
ghost use Rattle.run_io.specs.Outside.{wrote};
ghost use Rattle.smp_runner.specs.Ran.{IsLegalOrder, RanAlong};
ghost use Rattle.ghcb_cli.specs.SmpEnding.{EndsUnfinished, PutsLine, ReportsAs, RunUnfinished, RunsSmp};

use crate::commands::read_both;
use crate::files::Unready;
use crate::plain_run::OverDevices;
use crate::smp_words::smp_task_in;
use crate::text::{Refused, smp_usage};
use event_table::Finished;
use host_events::Host;
use image_file::Image;
use run_io::{Files, Sink};
use smp_runner::{Gate, run_smp};
use std::alloc::Global;
use std::sync::Wait;
use std::thread::Threads;

/// How a call ends without a run whose output was written.
#[derive(Clone, Copy, Debug, PartialEq, Eq)]
pub enum Unfinished {
    Usage,
    Refused(Refused),
    ReadFault,
    WriteFault,
    OutOfMemory,
}

/// Puts a line, after which the call ends so.
fn put_line<S: Sink>(out: &mut S, line: &[u8], told: Unfinished) -> Unfinished
    ensures puts { PutsLine told line.now (S.told out.old) (S.told out.new) result }
{
    match out.put(line) {
        Ok(()) => told,
        Err(_) => Unfinished::WriteFault,
    }
}

/// Reports why there is nothing to run.
fn report<S: Sink>(out: &mut S, unready: Unready) -> Unfinished
    ensures reports { ReportsAs unready (S.told out.old) (S.told out.new) result }
{
    match unready {
        Unready::Refused(refused) => {
            put_line(out, refused.line().as_bytes(), Unfinished::Refused(refused))
        }
        Unready::ReadFault => Unfinished::ReadFault,
        Unready::OutOfMemory => Unfinished::OutOfMemory,
    }
}

/// Runs an image over an input with a worker for each vCPU, so many steps for each, and writes the console. Where that
/// isn't so, the host is dropped.
fn run_and_write<R: Threads + Wait + Sync, S: Sink, H: Host + Send, G: Gate + Sync>(
    rt: &R,
    alloc: Global,
    image: &Image,
    input: Vec<u8>,
    steps: u64,
    out: &mut S,
    host: H,
    gate: &G,
) -> Result<(Finished, H), Unfinished>
    requires tells { IsTelling (H.told host) }
    requires budget { steps ≤ 2 ^ 64 - 2032 }
    ensures legal { IfOk result (λ r. IsLegalOrder image.now input.items r.0 (H.told r.1)) }
    ensures ran { IfOk result (λ r. (ran : RanAlong image.now steps input.items r.0 (H.told r.1))
        × ((S.told out.new).written ≡ wrote (S.told out.old).written ran.machine.devices.console)) }
    ensures unfinished { IfErr result (RunUnfinished image.now steps input.items (S.told out.old) (S.told out.new)) }
{
    let Ok((finished, host)) = run_smp(rt, alloc, image, input, steps, host, gate) else {
        return Err(Unfinished::OutOfMemory);
    };
    match out.put(host.console()) {
        Ok(()) => Ok((finished, host)),
        Err(_) => Err(Unfinished::WriteFault),
    }
}

/// Does what the words of `ghcb_smp` ask for. The files are read, and refused, as those of `plain` are.
pub fn run_words<R: Threads + Wait + Sync, F: Files, S: Sink, H: Host + Send, G: Gate + Sync>(
    rt: &R,
    alloc: Global,
    words: &[String],
    files: &mut F,
    out: &mut S,
    host: H,
    gate: &G,
) -> Result<(Finished, H), Unfinished>
    requires tells { IsTelling (H.told host) }
    ensures ran { IfOk result (λ r. RunsSmp (F.told files.old).folder (map string_bytes words.now)
        r.0 (H.told r.1) (S.told out.old).written (S.told out.new).written) }
    ensures unfinished { IfErr result (EndsUnfinished (map string_bytes words.now)
        (F.told files.old) (F.told files.new) (S.told out.old) (S.told out.new)) }
{
    let Some(task) = smp_task_in(words) else {
        return Err(put_line(out, smp_usage(), Unfinished::Usage));
    };
    let as_plain = OverDevices { steps: task.steps };
    match read_both(alloc, &as_plain, task.image, task.input, files) {
        Ok((image, input)) => run_and_write(rt, alloc, &image, input, task.steps, out, host, gate),
        Err(unready) => Err(report(out, unready)),
    }
}
