// Memory that is refused while a page is served. All passes where any one allocation fails, by its number:
// `rt try --test --fail-alloc N` for N from 1.
ghost use Rattle.std.specs.Prelude.{◌≡◌, ◌<◌, true};

use crate::block_tests::BLOCK_OUT;
use crate::mmio_tests::WRITE;
use crate::tests::{BYTE_OUT, WordsAt, are_same, page_of};
use crate::{Host, Hypervisor, Watch};
use std::alloc::Global;

/// Whether the host is started: at once, or at the second call where memory was refused.
fn starts<H: Host>(host: &mut H, alloc: Global) -> bool
    ensures vcpus { result ≡ true → (H.told host.new).vcpus ≡ 1 }
{
    host.start(1, Vec::new(alloc)).is_ok() || host.start(1, Vec::new(alloc)).is_ok()
}

/// Whether a page of vCPU 0 with these words is served: at once, or at the second call where memory was refused and
/// all was as before.
fn serves<H: Host>(host: &mut H, words: WordsAt) -> bool
    requires vcpu { 0 < (H.told host.old).vcpus }
    ensures vcpus { (H.told host.new).vcpus ≡ (H.told host.old).vcpus }
{
    let (turns, put_out) = (host.turns(), host.console().len());
    let mut page = page_of(0x8000_0000, words);
    if host.serve(0, &mut page).is_err() {
        let is_as_before = are_same(&page, &page_of(0x8000_0000, words))
            && host.turns() == turns
            && host.console().len() == put_out;
        if !is_as_before || host.serve(0, &mut page).is_err() {
            return false;
        }
    }
    host.turns() == turns.wrapping_add(1)
}

#[test]
fn a_page_that_is_refused_memory_is_as_before(rt: HostRuntime) {
    let alloc = rt.alloc();
    let mut host = Watch::new(alloc, Hypervisor::new(alloc));
    assert!(rt; starts(&mut host, alloc));
    assert!(rt; serves(&mut host, &BYTE_OUT));
    assert!(rt; serves(&mut host, &BLOCK_OUT));
    assert!(rt; serves(&mut host, &WRITE));
    assert!(rt; serves(&mut host, &BLOCK_OUT));
    assert!(rt; serves(&mut host, &BYTE_OUT));
    assert!(rt; serves(&mut host, &WRITE));
    assert_eq!(rt; host.turns(), 6);
}
