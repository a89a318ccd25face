// The verdict of a whole run.
ghost use Rattle.std.specs.Prelude.{◌≡◌, ◌-◌, ◌≤◌, ◌^◌, None, length, IfOk, IfSome, OnErr};
ghost use Rattle.page_words.specs.Dialogue.{Runs};
ghost use Rattle.image_file.specs.Image.{opening_ram};
ghost use Rattle.secret_labels.specs.Following.{labelled, verdict_of};
ghost use Rattle.secret_labels.specs.TwoWorlds.{HasSecret, HoldsInWorlds};

use crate::marked_guest::MarkedGuest;
use crate::marks::Marks;
use crate::verdict::Verdict;
use event_table::{Access, Event};
use guest_interp::Guest;
use image_file::{Image, Ram};
use page_words::Page;
use std::alloc::{AllocError as OutOfMemory, Global};
use x86_base::Insn;

/// The secret of an image lies in its RAM, above the code.
fn check_secret(image: &Image, ram: &Ram)
    requires opening { ram.now ≡ opening_ram image.now }
    requires size { length ram.now.bytes ≡ image.now.header.ram_size }
    ensures secret { HasSecret image.now }
{
    let _ = image.secret();
    let _ = image.code_len();
    let _ = ram.size();
}

/// Runs vCPU 0 of an image to its end with labels on its secret, within its budget of steps, over any page,
/// and stops at the first use of a label: at a branch, in an address, or in what the host is shown. The last
/// block may lead past the budget by less than 2,032 steps, and the steps are counted in 64 bits: so the
/// budget leaves room for them. Refused memory, it has not called the page.
pub fn follow<P: Page>(
    alloc: Global,
    image: &Image,
    steps: u64,
    page: &mut P,
) -> Result<Verdict, OutOfMemory>
    requires budget { steps ≤ 2 ^ 64 - 2032 }
    requires room { (P.told page.old).spare ≡ None }
    ensures runs { IfOk result (λ verdict. Runs (verdict_of image.now steps) verdict
        (P.told page.old) (P.told page.new)) }
    // Where the page tells which words are ahead, the verdict is that of the run on these, and zeros after them.
    ensures ahead { IfOk result (λ verdict. IfSome (P.told page.old).ahead (λ words.
        verdict ≡ labelled image.now steps words)) }
    // Where it is Clean, the host sees the same of every secret; and where it is Flows, the same up to the use.
    ensures worlds { IfOk result (λ verdict. IfSome (P.told page.old).ahead (λ words.
        HoldsInWorlds image.now steps words verdict)) }
    ensures refused { OnErr result (page.new ≡ page.old) }
{
    let ram = image.ram(alloc)?;
    check_secret(image, &ram);
    let marks = Marks::secret(alloc, image, &ram)?;
    let mut marked = MarkedGuest {
        marks,
        guest: Guest::start(image, 0, ram),
        insn: Insn::NOP,
        event: Event::One(Access::Wbinvd),
    };
    Ok(marked.run(image, page, steps))
}
