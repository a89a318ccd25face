// The top call of the program `ghcb_smp`.
ghost use Rattle.std.specs.Prelude.{◌≡◌, ◌==◌, ◌⊎◌, IfSome, IsSomeAnd, None, List, ℕ, [], is_some, map, true};
ghost use Rattle.std.specs.String.{string_bytes};
ghost use Rattle.event_table.specs.declared.turn.Turn.{Turn};
ghost use Rattle.host_events.specs.Hosting.{IsTelling};
ghost use Rattle.run_io.specs.Outside.{Rose};
ghost use Rattle.ghcb_cli.specs.Ending.{IsStatus, IsWithoutRun, finished_of};
ghost use Rattle.ghcb_cli.specs.Said.{Said};
ghost use Rattle.ghcb_cli.specs.SmpCommand.{smp_said, smp_steps};
ghost use Rattle.ghcb_cli.specs.SmpEnding.{HasRoom, RunsSmp, SmpFailsRead, SmpFailsWrite, SmpRefuses, SmpUses};

use crate::smp_run::{Unfinished, run_words};
use crate::top::Done;
use host_events::Host;
use run_io::{Files, Sink};
use smp_runner::Gate;
use std::alloc::Global;
use std::sync::Wait;
use std::thread::Threads;

/// Does what the words `IMAGE INPUT STEPS` ask for: runs the image over the host, with a worker for each vCPU in a
/// thread of its own where one can be made, and writes the console. Each turn of a vCPU goes through the gate. The host
/// is handed back exactly at status 0. The call may wait, and what it promises holds if it returns.
///
/// | Status | Comes |
/// |---|---|
/// | 0 | where the run's whole output was written |
/// | 2 | where the words are none of the grammar, and the usage line was written |
/// | 3 | where a file breaks a limit or a rule; the first of them is `refused`, and its line was written |
/// | 4 | only where a read failed; nothing was written |
/// | 5 | only where a write failed; a prefix of the text was written |
/// | 6 | where memory was wanting; nothing was written |
pub fn smp_main<R: Threads + Wait + Sync, F: Files, S: Sink, H: Host + Send, G: Gate + Sync>(
    rt: &R,
    alloc: Global,
    words: &[String],
    files: &mut F,
    out: &mut S,
    host: H,
    gate: &G,
) -> (Done, Option<H>)
    requires tells { IsTelling (H.told host) }
    ensures statuses { IsStatus result.0.status }
    ensures handed_back { is_some result.1 ≡ (result.0.status == 0) }
    // The run: the order is that of the host's history, which is legal. The plain run along it has the history's
    // events and the host's devices; its output was written, and its steps and ends are handed back.
    ensures ran { IfSome result.1 (λ h. RunsSmp (F.told files.old).folder (map string_bytes words.now)
        (finished_of result.0) (H.told h) (S.told out.old).written (S.told out.new).written) }
    ensures usage { result.0.status ≡ 2 → SmpUses (map string_bytes words.now)
        (F.told files.old) (F.told files.new) (S.told out.old).written (S.told out.new).written }
    ensures outside { smp_steps (map string_bytes words.now) ≡ None
        → (result.0.status ≡ 2) ⊎ (result.0.status ≡ 5) }
    ensures refused { result.0.status ≡ 3 → IsSomeAnd result.0.refused
        (SmpRefuses (F.told files.old).folder (map string_bytes words.now)
        (S.told out.old).written (S.told out.new).written) }
    ensures unrefused { (result.0.status ≡ 3) ⊎ (result.0.refused ≡ None) }
    ensures read_fault { result.0.status ≡ 4 → SmpFailsRead (map string_bytes words.now)
        (F.told files.old) (F.told files.new) (S.told out.old).written (S.told out.new).written }
    ensures write_fault { result.0.status ≡ 5 → SmpFailsWrite (F.told files.old).folder (map string_bytes words.now)
        (S.told out.old) (S.told out.new) }
    ensures memory { result.0.status ≡ 6 → (S.told out.new).written ≡ (S.told out.old).written }
    // Without a failed read or write, and with the files there, it ends as it is to end, or memory was wanting.
    ensures complete { (Rose (F.told files.old).faults (F.told files.new).faults → ⊥)
        → (Rose (S.told out.old).faults (S.told out.new).faults → ⊥)
        → IfSome (F.told files.old).folder (λ folder. (order : List Turn) (s : Said)
        → smp_said order folder (map string_bytes words.now) ≡ Some s
        → (result.0.status ≡ s.status) ⊎ (result.0.status ≡ 6)) }
    // The same where it is told that no read fails and that the text has room, in whichever order it comes.
    ensures certain { (F.told files.old).is_reliable ≡ true
        → IfSome (F.told files.old).folder (λ folder. HasRoom folder (map string_bytes words.now) (S.told out.old)
        → (order : List Turn) (s : Said) → smp_said order folder (map string_bytes words.now) ≡ Some s
        → (result.0.status ≡ s.status) ⊎ (result.0.status ≡ 6)) }
    ensures lists { (result.0.status ≡ 0) ⊎ IsWithoutRun result.0 }
    ensures told { result.0.told.items ≡ [] }
{
    match run_words(rt, alloc, words, files, out, host, gate) {
        Ok((finished, host)) => (Done::with_run(finished, Vec::new(alloc)), Some(host)),
        Err(Unfinished::Usage) => (Done::without_run(alloc, 2, None), None),
        Err(Unfinished::Refused(refused)) => (Done::without_run(alloc, 3, Some(refused)), None),
        Err(Unfinished::ReadFault) => (Done::without_run(alloc, 4, None), None),
        Err(Unfinished::WriteFault) => (Done::without_run(alloc, 5, None), None),
        Err(Unfinished::OutOfMemory) => (Done::without_run(alloc, 6, None), None),
    }
}
