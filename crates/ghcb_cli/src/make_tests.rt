// Large images that numbers make, run over a hypervisor. The texts are those of an independent model.
use crate::fixture::words_of;
use crate::ghcb_main;
use event_table::End;
use host_events::{Host, Hypervisor};
use run_io::{MemFiles, MemSink};
use std::alloc::Global;
use std::process::Abort;
use std::test::Fail;
use std::thread::Threads;

/// The status of a call by these words, what it wrote, and how many turns the hypervisor keeps.
fn made_by<R: Threads + Sync + Abort>(
    rt: &R,
    alloc: Global,
    words: &[&str],
) -> Result<(u8, Vec<u8>, u64), Fail> {
    let words = words_of(alloc, words)?;
    let mut files = MemFiles::new(alloc);
    let mut out = MemSink::new(alloc, 100)?;
    let mut host = Hypervisor::new(alloc);
    let done = ghcb_main(rt, alloc, &words, &mut files, &mut out, &mut host);
    for end in &done.ends {
        assert_eq!(rt; *end, End::Halted);
    }
    Ok((done.status, out.written().to_vec(alloc)?, host.turns()))
}

#[test]
fn a_made_image_is_run_and_summed_up(rt: HostRuntime) -> Result<(), Fail> {
    let summary = b"make 7 code 20429 turns 8192 console 4008 sum 312776\n";
    for _ in 0..2 {
        let (status, text, turns) = made_by(&rt, rt.alloc(), &["make", "7"])?;
        assert_eq!(rt; (status, turns), (0, 8192));
        assert_eq!(rt; text.as_slice(), summary.as_slice());
    }
    Ok(())
}

#[test]
fn other_numbers_are_outside_the_grammar(rt: HostRuntime) -> Result<(), Fail> {
    for number in ["65536", "00", "-1", ""] {
        let (status, _, turns) = made_by(&rt, rt.alloc(), &["make", number])?;
        assert_eq!(rt; (status, turns), (2, 0));
    }
    Ok(())
}
