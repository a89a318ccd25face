use crate::letters::{is_along, letters_image};
use crate::{Open, run_smp};
use event_table::End;
use host_events::{Host, Hypervisor, Watch};
use image_samples::sample_image;
use page_words::{Word, Words};
use round_runner::run_rounds;
use std::alloc::Global;
use std::test::Fail;

/// MOV EDX, 3F8h; MOV AL, 'H'; OUT DX, AL; HLT
const HELLO: [u8; 9] = [0xBA, 0xF8, 3, 0, 0, 0xB0, 0x48, 0xEE, 0xF4];

#[test]
fn one_vcpu_runs_as_in_rounds(rt: HostRuntime) -> Result<(), Fail> {
    let alloc = rt.alloc();
    let image = sample_image(alloc, &HELLO, 0, 0)?;
    let mut other = Hypervisor::new(alloc);
    let rounds = run_rounds(alloc, &image, Vec::new(alloc), 100, &mut other)?;
    let (finished, host) = run_smp(
        &rt,
        alloc,
        &image,
        Vec::new(alloc),
        100,
        Hypervisor::new(alloc),
        &Open,
    )?;
    assert_eq!(rt; finished.order.as_slice(), rounds.order.as_slice());
    assert_eq!(rt; finished.steps.as_slice(), rounds.steps.as_slice());
    assert_eq!(rt; finished.ends.as_slice(), rounds.ends.as_slice());
    assert_eq!(rt;
        (host.turns(), host.console()),
        (other.turns(), other.console())
    );
    Ok(())
}

#[test]
fn two_vcpus_put_out_what_their_order_says(rt: HostRuntime) -> Result<(), Fail> {
    let alloc = rt.alloc();
    let image = letters_image(alloc)?;
    let (finished, host) = run_smp(
        &rt,
        alloc,
        &image,
        Vec::new(alloc),
        100,
        Hypervisor::new(alloc),
        &Open,
    )?;
    assert_eq!(rt; host.console().len(), 6);
    assert!(rt; is_along(&finished.order, host.console()));
    assert_eq!(rt; finished.steps.as_slice(), [16, 16].as_slice());
    assert_eq!(rt; finished.ends.as_slice(), [End::Halted; 2].as_slice());
    Ok(())
}

/// Whether two pages have the same words. That of RAX may also be 0 where `is_free`.
fn are_alike(page: &Words, other: &Words, is_free: bool) -> bool {
    (0..512).all(|number| {
        Word::new(number).is_none_or(|word| {
            page.word(word) == other.word(word) || (is_free && number == 63 && page.word(word) == 0)
        })
    }) && page.msr_word() == other.msr_word()
}

/// Whether the pages of a vCPU are those of the run in rounds. Its IN finds the other's letter, as it does in rounds, or
/// none, by the order: so the OUT after it, and the RDMSR that leaves RAX as it stands, may have 0 there.
fn are_shown(pages: &[(u16, Words)], others: &[(u16, Words)], vcpu: u16) -> bool {
    let mut left = others.iter().filter(|given| given.0 == vcpu);
    for (at, given) in pages.iter().filter(|given| given.0 == vcpu).enumerate() {
        let is_free = at == 5 || at == 6;
        if !left
            .next()
            .is_some_and(|other| are_alike(&given.1, &other.1, is_free))
        {
            return false;
        }
    }
    left.next().is_none()
}

/// The pages of the image's run over a watched host, in rounds.
fn watched(alloc: Global) -> Result<Watch<Hypervisor>, Fail> {
    let image = letters_image(alloc)?;
    let mut host = Watch::new(alloc, Hypervisor::new(alloc));
    run_rounds(alloc, &image, Vec::new(alloc), 100, &mut host)?;
    Ok(host)
}

#[test]
fn a_host_is_given_the_wire_form_alone(rt: HostRuntime) -> Result<(), Fail> {
    let alloc = rt.alloc();
    let image = letters_image(alloc)?;
    let host = Watch::new(alloc, Hypervisor::new(alloc));
    let (_, host) = run_smp(&rt, alloc, &image, Vec::new(alloc), 100, host, &Open)?;
    let rounds = watched(alloc)?;
    assert_eq!(rt; host.pages().len(), 16);
    assert!(rt; are_shown(host.pages(), rounds.pages(), 0));
    assert!(rt; are_shown(host.pages(), rounds.pages(), 1));
    Ok(())
}
