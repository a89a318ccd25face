// The top call.
ghost use Rattle.std.specs.Prelude.{◌≡◌, ◌≤◌, ◌⊎◌, IfSome, IsSomeAnd, Some, None, [], List, ℕ, Bool, false, true, map};
ghost use Rattle.std.specs.String.{string_bytes};
ghost use Rattle.host_events.specs.Hosting.{IsTelling};
ghost use Rattle.run_io.specs.Outside.{Rose, Puts, wrote};
ghost use Rattle.ghcb_cli.specs.Command.{calls_host, command_of, hands_back, reading_of};
ghost use Rattle.ghcb_cli.specs.LiveCommand.{RunsLive};
ghost use Rattle.ghcb_cli.specs.MakeCommand.{RunsMade};
ghost use Rattle.ghcb_cli.specs.PlainCommand.{RunsPlain};
ghost use Rattle.ghcb_cli.specs.RunCommand.{RunsFiles};
ghost use Rattle.ghcb_cli.specs.ScriptCommand.{RunsScript};
ghost use Rattle.ghcb_cli.specs.SecretCommand.{Judges};
ghost use Rattle.ghcb_cli.specs.Said.{Said, said, IsToEnd};
ghost use Rattle.ghcb_cli.specs.Ending.{EndsAs, PutsAs, Uses, Refuses, FailsRead, FailsWrite, HasRoomFor, IsKnown, IsStatus, IsWithoutRun, finished_of, told};
ghost use Rattle.ghcb_cli.specs.declared.command.Command.TheVariants.{Run, Plain, Hostile, Live, Secret, Make};
ghost use Rattle.ghcb_cli.specs.declared.commands.Ending.TheVariants as ending;
ghost use Rattle.ghcb_cli.specs.Text.{usage as usage_text};

use crate::command::{Task, task_in};
use crate::commands::{Ending, on_files, put};
use crate::host_run::OverHost;
use crate::live_run::on_live_page;
use crate::make_run::run_made;
use crate::plain_run::OverDevices;
use crate::script_run::OnScript;
use crate::secret_run::WithLabels;
use crate::text::{Refused, usage};
use event_table::{End, Finished, Turn};
use host_events::Host;
use run_io::{Files, Sink};
use show_text::{info_text, msr_text, page_text};
use std::alloc::Global;
use std::thread::Threads;

/// How the call ends.
fn ending_of<R: Threads, F: Files, S: Sink, H: Host>(
    rt: &R,
    alloc: Global,
    words: &[String],
    files: &mut F,
    out: &mut S,
    host: &mut H,
) -> Ending
    ensures outside { command_of (map string_bytes words.now) ≡ None
        → PutsAs ending.Usage usage_text (S.told out.old) (S.told out.new) result }
    ensures shown { (text : List ℕ) → reading_of (map string_bytes words.now) ≡ Some text
        → PutsAs ending.Shown text (S.told out.old) (S.told out.new) result }
    ensures ends { EndsAs (map string_bytes words.now)
        (told (F.told files.old) (S.told out.old) (H.told host.old))
        (told (F.told files.new) (S.told out.new) (H.told host.new)) result }
{
    match task_in(words) {
        None => put(out, usage(), Ending::Usage),
        Some(
            Task::Run {
                image,
                input,
                steps,
                report,
            },
        ) => on_files(
            alloc,
            &OverHost { steps, report },
            image,
            input,
            files,
            out,
            host,
        ),
        Some(
            Task::Plain {
                image,
                input,
                steps,
            },
        ) => on_files(
            alloc,
            &OverDevices { steps },
            image,
            input,
            files,
            out,
            host,
        ),
        Some(
            Task::Hostile {
                image,
                script,
                steps,
            },
        ) => on_files(alloc, &OnScript { steps }, image, script, files, out, host),
        Some(Task::Live { image, seed, steps }) => {
            on_live_page(rt, alloc, image, seed, steps, files, out)
        }
        Some(
            Task::Secret {
                image,
                script,
                steps,
            },
        ) => on_files(
            alloc,
            &WithLabels { steps },
            image,
            script,
            files,
            out,
            host,
        ),
        Some(Task::ShowPage(page)) => put(out, page_text(&page).as_bytes(), Ending::Shown),
        Some(Task::ShowMsr(word)) => put(out, msr_text(word).as_bytes(), Ending::Shown),
        Some(Task::ShowInfo(word)) => put(out, info_text(word).as_bytes(), Ending::Shown),
        Some(Task::Make(number)) => run_made(alloc, number, out, host),
    }
}

/// What a call of the program leaves: the status, the refusal where there is one, and of a run the order, the steps
/// and the ends by vCPU number; of a run on a script, or on a page that another thread changes, there is no order, but
/// the words that were loaded and read of the MSR. On another status than 0 all lists are empty.
#[derive(Drop)]
pub struct Done {
    pub status: u8,
    pub refused: Option<Refused>,
    pub order: Vec<Turn>,
    pub steps: Vec<u64>,
    pub ends: Vec<End>,
    pub told: Vec<u64>,
}

impl Done {
    /// A call with a run.
    pub fn with_run(finished: Finished, told: Vec<u64>) -> Done
        ensures status { result.status ≡ 0 }
        ensures refused { result.refused ≡ None }
        ensures finished { finished_of result ≡ finished }
        ensures told { result.told ≡ told }
    {
        let Finished { order, steps, ends } = finished;
        Done {
            status: 0,
            refused: None,
            order,
            steps,
            ends,
            told,
        }
    }

    /// A call without a run.
    pub fn without_run(alloc: Global, status: u8, refused: Option<Refused>) -> Done
        ensures status { result.status ≡ status }
        ensures refused { result.refused ≡ refused }
        ensures lists { IsWithoutRun result }
        ensures told { result.told.items ≡ [] }
    {
        Done {
            status,
            refused,
            order: Vec::new(alloc),
            steps: Vec::new(alloc),
            ends: Vec::new(alloc),
            told: Vec::new(alloc),
        }
    }
}

/// Does what the words ask for: `run IMAGE INPUT STEPS` runs the image over the host and writes the
/// console, and with `report` behind these words the run's report in its place; `plain IMAGE INPUT STEPS`
/// runs it with the devices alone, with no host and no page, and writes the console; `hostile IMAGE SCRIPT
/// STEPS` runs vCPU 0 of the image on the words of the script and writes each item that it made on the page,
/// and its end; `live IMAGE SEED STEPS` does so over a page that the stores of the seed change, once before the
/// guest runs and once more by a thread beside it, or after it where no thread can be made; `secret IMAGE SCRIPT
/// STEPS` runs it with labels on the words of the script and writes whether its secret flows; `show page HEX`,
/// `show msr HEX` and `show info HEX` write what the digits mean; `make N` runs the image that the number makes over
/// the host and no input, and writes a summary of the run.
///
/// | Status | Comes |
/// |---|---|
/// | 0 | where the run's whole output, report, summary or verdict or the whole reading was written |
/// | 2 | where the words are none of the grammar, and the usage line was written |
/// | 3 | where a file breaks a limit or a rule; the first of them is `refused`, and its line was written |
/// | 4 | only where a read failed; nothing was written |
/// | 5 | only where a write failed; a prefix of the text was written |
/// | 6 | where memory was wanting, of runs alone; nothing was written |
pub fn ghcb_main<R: Threads + Sync, F: Files, S: Sink, H: Host>(
    rt: &R,
    alloc: Global,
    words: &[String],
    files: &mut F,
    out: &mut S,
    host: &mut H,
) -> Done
    ensures statuses { IsStatus result.status }
    // The run: its order is that of rounds, its output or its report was written, and steps, ends, history and
    // devices are the plain machine's.
    ensures ran { (steps : ℕ) (report : Bool) → command_of (map string_bytes words.now) ≡ Some (Run steps report)
        → result.status ≡ 0 → IsTelling (H.told host.old)
        → RunsFiles (F.told files.old).folder (map string_bytes words.now)
        (finished_of result) (H.told host.new) (S.told out.old).written (S.told out.new).written }
    // The run with the devices alone: the same, with no host.
    ensures plain { (steps : ℕ) → command_of (map string_bytes words.now) ≡ Some (Plain steps) → result.status ≡ 0
        → RunsPlain (F.told files.old).folder (map string_bytes words.now)
        (finished_of result) (S.told out.old).written (S.told out.new).written }
    // The run of the image that a number makes: the same over the host as `ran`, with the summary written.
    ensures made { (number : ℕ) → command_of (map string_bytes words.now) ≡ Some (Make number) → result.status ≡ 0
        → IsTelling (H.told host.old) → RunsMade (map string_bytes words.now)
        (finished_of result) (H.told host.new) (S.told out.old).written (S.told out.new).written }
    // The run on a script's words: its trace and its end were written, and the words that came, the steps and
    // the end are handed back.
    ensures answered { (steps : ℕ) → command_of (map string_bytes words.now) ≡ Some (Hostile steps) → result.status ≡ 0
        → RunsScript (F.told files.old).folder (map string_bytes words.now)
        (finished_of result) result.told.items (S.told out.old).written (S.told out.new).written }
    // The run on a page that another thread changes: the trace and the end of the run on the words that came were
    // written, and these words, the steps and the end are handed back. No clause tells which words the page gives.
    ensures live { (seed steps : ℕ) → command_of (map string_bytes words.now) ≡ Some (Live seed steps)
        → result.status ≡ 0 → RunsLive (F.told files.old).folder (map string_bytes words.now)
        (finished_of result) result.told.items (S.told out.old).written (S.told out.new).written }
    // The run with labels on a script's words: the verdict was written, and nothing is handed back.
    ensures secret { (steps : ℕ) → command_of (map string_bytes words.now) ≡ Some (Secret steps) → result.status ≡ 0
        → Judges (F.told files.old).folder (map string_bytes words.now) (S.told out.old).written (S.told out.new).written
        × IsWithoutRun result }
    // The host is called for a run over it alone, of an image that is read or made.
    ensures uncalled { calls_host (command_of (map string_bytes words.now)) ≡ false → H.told host.new ≡ H.told host.old }
    // A reading is shown, or a write of it failed: no memory is wanted.
    ensures shown { (text : List ℕ) → reading_of (map string_bytes words.now) ≡ Some text
        → ((result.status ≡ 0) × ((S.told out.new).written ≡ wrote (S.told out.old).written text) × IsWithoutRun result)
        ⊎ ((result.status ≡ 5) × Puts (S.told out.old).written text (S.told out.new).written) }
    ensures ended { result.status ≡ 0 → IsToEnd (F.told files.old).folder (map string_bytes words.now) 0 }
    ensures usage { result.status ≡ 2 → Uses (map string_bytes words.now)
        (told (F.told files.old) (S.told out.old) (H.told host.old))
        (told (F.told files.new) (S.told out.new) (H.told host.new)) }
    ensures outside { command_of (map string_bytes words.now) ≡ None → (result.status ≡ 2) ⊎ (result.status ≡ 5) }
    ensures refused { result.status ≡ 3 → IsSomeAnd result.refused (λ r. Refuses (map string_bytes words.now)
        (told (F.told files.old) (S.told out.old) (H.told host.old))
        (told (F.told files.new) (S.told out.new) (H.told host.new)) r) }
    ensures unrefused { (result.status ≡ 3) ⊎ (result.refused ≡ None) }
    ensures read_fault { result.status ≡ 4 → FailsRead (map string_bytes words.now)
        (told (F.told files.old) (S.told out.old) (H.told host.old))
        (told (F.told files.new) (S.told out.new) (H.told host.new)) }
    ensures write_fault { result.status ≡ 5 → FailsWrite (map string_bytes words.now)
        (told (F.told files.old) (S.told out.old) (H.told host.old))
        (told (F.told files.new) (S.told out.new) (H.told host.new)) }
    ensures memory { result.status ≡ 6 → (S.told out.new).written ≡ (S.told out.old).written }
    // Without a failed read or write, and with the files there, it ends as it is to end, or memory was wanting.
    ensures complete { (Rose (F.told files.old).faults (F.told files.new).faults → ⊥)
        → (Rose (S.told out.old).faults (S.told out.new).faults → ⊥)
        → IfSome (F.told files.old).folder (λ folder. (heard : List ℕ) (s : Said)
        → said heard folder (map string_bytes words.now) ≡ Some s
        → (result.status ≡ s.status) ⊎ (result.status ≡ 6)) }
    // The same where it is told that no read fails and that the text has room, whichever words come.
    ensures certain { (F.told files.old).is_reliable ≡ true
        → IfSome (F.told files.old).folder (λ folder. HasRoomFor folder (map string_bytes words.now) (S.told out.old)
        → (heard : List ℕ) (s : Said) → said heard folder (map string_bytes words.now) ≡ Some s
        → IsKnown (map string_bytes words.now) (H.told host.old) s
        → (result.status ≡ s.status) ⊎ (result.status ≡ 6)) }
    ensures lists { (result.status ≡ 0) ⊎ IsWithoutRun result }
    // Words are handed back of a run against a host that ended with status 0 alone.
    ensures told { hands_back (command_of (map string_bytes words.now)) ≡ false → result.told.items ≡ [] }
    ensures untold { (result.status ≡ 0) ⊎ (result.told.items ≡ []) }
{
    match ending_of(rt, alloc, words, files, out, host) {
        Ending::Done(finished) => Done::with_run(finished, Vec::new(alloc)),
        Ending::Plain(finished) => Done::with_run(finished, Vec::new(alloc)),
        Ending::Made(finished) => Done::with_run(finished, Vec::new(alloc)),
        Ending::Answered { finished, heard } => Done::with_run(finished, heard),
        Ending::Heard { finished, heard } => Done::with_run(finished, heard),
        Ending::Judged => Done::without_run(alloc, 0, None),
        Ending::Usage => Done::without_run(alloc, 2, None),
        Ending::Shown => Done::without_run(alloc, 0, None),
        Ending::Refused(refused) => Done::without_run(alloc, 3, Some(refused)),
        Ending::ReadFault => Done::without_run(alloc, 4, None),
        Ending::WriteFault => Done::without_run(alloc, 5, None),
        Ending::OutOfMemory => Done::without_run(alloc, 6, None),
    }
}
