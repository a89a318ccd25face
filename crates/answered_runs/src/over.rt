// The run over a page.
ghost use Rattle.std.specs.Prelude.{◌≡◌, ◌≤◌, ◌-◌, ◌^◌, [], ◌∷◌, None, IfOk, IfSome};
ghost use Rattle.page_words.specs.Dialogue.{values_of};
ghost use Rattle.trace_text.specs.Trace.{trace_text as text_of};
ghost use Rattle.answered_runs.specs.Answered.{answered_text, IsAnswered};

use event_table::{End, Finished};
use hostile_host::hostile_run;
use image_file::Image;
use page_words::{Item, Page, Recorded};
use std::alloc::{AllocError as OutOfMemory, Global};
use trace_text::trace_text;

/// What a run of vCPU 0 against a host leaves.
#[derive(Drop)]
pub struct AnsweredRun {
    /// A line for each item of the trace, the first first, and the line of the end.
    pub text: Vec<u8>,
    /// The steps and the end of the vCPU. There is no order, since there are no turns.
    pub finished: Finished,
    /// The words that came of loads and of readings of the MSR, the first first.
    pub heard: Vec<u64>,
}

/// The words that came of loads and of readings of the MSR.
fn words_of(alloc: Global, items: &[Item]) -> Result<Vec<u64>, OutOfMemory>
    ensures words { IfOk result (λ words. words.items ≡ values_of items.now) }
{
    let mut words = Vec::new(alloc);
    for item in items {
        match item {
            Item::Load(_, value) | Item::Msr(value) => words.push(*value)?,
            Item::Store(_, _) | Item::Exit(_) => {}
        }
    }
    Ok(words)
}

/// What is handed back of one vCPU, without an order.
fn finished_at(alloc: Global, steps: u64, end: End) -> Result<Finished, OutOfMemory>
    ensures order { IfOk result (λ f. f.order.items ≡ []) }
    ensures steps { IfOk result (λ f. f.steps.items ≡ steps ∷ []) }
    ensures ends { IfOk result (λ f. f.ends.items ≡ end ∷ []) }
{
    Ok(Finished {
        order: Vec::new(alloc),
        steps: vec![in alloc; steps]?,
        ends: vec![in alloc; end]?,
    })
}

/// What is left of a run with these items that came to this end after so many steps.
fn left_of(alloc: Global, items: &[Item], steps: u64, end: End) -> Result<AnsweredRun, OutOfMemory>
    ensures text { IfOk result (λ run. run.text.items ≡ text_of items.now end steps) }
    ensures heard { IfOk result (λ run. run.heard.items ≡ values_of items.now) }
    ensures order { IfOk result (λ run. run.finished.order.items ≡ []) }
    ensures steps { IfOk result (λ run. run.finished.steps.items ≡ steps ∷ []) }
    ensures ends { IfOk result (λ run. run.finished.ends.items ≡ end ∷ []) }
{
    Ok(AnsweredRun {
        text: trace_text(alloc, items, &end, steps)?,
        finished: finished_at(alloc, steps, end)?,
        heard: words_of(alloc, items)?,
    })
}

/// Runs vCPU 0 of an image to its end over a page, within its budget of steps. The text, the steps and the end are
/// those of the image's run on the words that the page gave, and these words are handed back. The last block may lead
/// past the budget by less than 2,032 steps, and the steps are counted in 64 bits: so the budget leaves room for them.
pub fn run_over<P: Page>(
    alloc: Global,
    image: &Image,
    page: P,
    steps: u64,
) -> Result<AnsweredRun, OutOfMemory>
    requires budget { steps ≤ 2 ^ 64 - 2032 }
    requires unbounded { (P.told page).spare ≡ None }
    ensures text { IfOk result (λ run. run.text.items ≡ answered_text image.now steps run.heard.items) }
    ensures answered { IfOk result (λ run. IsAnswered image.now steps run.heard.items run.finished run.heard.items) }
    // Where the page tells which words are ahead, the run is on these, and zeros after them.
    ensures text_ahead { IfOk result (λ run. IfSome (P.told page).ahead (λ words.
        run.text.items ≡ answered_text image.now steps words)) }
    ensures answered_ahead { IfOk result (λ run. IfSome (P.told page).ahead (λ words.
        IsAnswered image.now steps words run.finished run.heard.items)) }
{
    let mut page = Recorded::new(alloc, page);
    let vcpu = hostile_run(alloc, image, steps, &mut page)?;
    let Some(end) = vcpu.end() else {
        unreachable!()
    };
    left_of(alloc, page.items(), vcpu.steps(), end)
}
