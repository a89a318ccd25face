// Moves that reach the page of devices, over a page in memory, with the host's side done by hand.
use crate::tests::{VERSION_1, halts, met, reply, talks, unlike};
use crate::{Progress, Vcpu};
use event_table::End;
use hex_rows::Row;
use image_file::Image;
use image_samples::sample_image;
use page_words::{Item, Recorded, Script, Words};
use std::alloc::Global;
use std::test::Fail;
use x86_base::Reg;

/// MOV EBX, FEB00000h; MOV QWORD [RBX], -1; MOVZX EAX, WORD [RBX+2]; HLT.
fn page_guest(alloc: Global) -> Result<Image, Fail> {
    let code = Row::new("BB 00 00 B0 FE 48 C7 03 FF FF FF FF 0F B7 43 02 F4").bytes(alloc)?;
    Ok(sample_image(alloc, code.as_slice(), 0, 0)?)
}

/// The write, whose number is all of word 256.
const WRITE: &str = "114:80000002 115:FEB00000 116:8 117:80000800 126:0 127:3C000000000000 \
256:FFFFFFFFFFFFFFFF 257:0 511:10000 | 1 1 | 115:0 256:1234 | | C 2";

/// The read, which stores no word of the buffer.
const READ: &str =
    "114:80000001 115:FEB00002 116:2 117:80000800 126:0 127:3C000000000000 256:1234 511:10000 \
| 1 2 | 115:0 256:8899AABBCCDDFFFF | 0:FFFF | 10 3";

#[test]
fn moves_of_the_page_of_devices_show_their_words(rt: HostRuntime) -> Result<(), Fail> {
    let alloc = rt.alloc();
    let image = page_guest(alloc)?;
    let (mut vcpu, mut page) = met(alloc, &image, VERSION_1)?;
    assert!(rt; talks(alloc, &image, &mut vcpu, &mut page, WRITE)?);
    assert!(rt; talks(alloc, &image, &mut vcpu, &mut page, READ)?);
    assert!(rt; halts(&image, &mut vcpu, &mut page, 4));
    Ok(())
}

/// A guest that moves from [RBX], which is FEB00010h, by an instruction of four bytes; before, RCX is -1. HLT is at
/// 16, and is the handler of #GP too.
fn moving(alloc: Global, insn: &[u8]) -> Result<Image, Fail> {
    let mut code = Row::new("BB 10 00 B0 FE 48 C7 C1 FF FF FF FF").bytes(alloc)?;
    code.extend_from_slice(insn)?;
    code.push(0xF4)?;
    Ok(sample_image(alloc, code.as_slice(), 0, 16)?)
}

/// Whether a move reads so many bytes, and leaves RCX so, once a host has put this word into word 256.
fn takes(alloc: Global, insn: &[u8], len: u64, word: u64, rcx: u64) -> Result<bool, Fail> {
    let image = moving(alloc, insn)?;
    let (mut vcpu, mut page) = met(alloc, &image, VERSION_1)?;
    if vcpu.run_to_exit(&image, &mut page, 100) != Progress::Exited {
        return Ok(false);
    }
    let read = [(114, 0x8000_0001), (115, 0xFEB0_0010), (116, len)];
    let reads = unlike(&page, &read).is_none();
    reply(&mut page, &[(115, 0), (256, word), (63, 7), (257, 7)]);
    vcpu.resume(&image, &mut page);
    let took = vcpu.regs().get(Reg::Rcx) == rcx && vcpu.steps() == 3;
    let ended = vcpu.run_to_exit(&image, &mut page, 100) == Progress::Ended;
    let halted = vcpu.end() == Some(End::Halted) && vcpu.regs().rip == 16;
    Ok(reads && took && ended && halted)
}

/// The first row of moves, each with a length, a host's word and RCX afterwards, that takes another number of the
/// word.
fn mistaken<'a>(alloc: Global, table: &'a str) -> Result<Option<&'a str>, Fail> {
    for line in table.lines() {
        let mut row = Row::new(line);
        let insn = row.bytes(alloc)?;
        let [len, word, rcx] = row.numbers::<3>()?;
        if !takes(alloc, insn.as_slice(), len, word, rcx)? {
            return Ok(Some(line));
        }
    }
    Ok(None)
}

/// Moves to RCX, or to CH, with NOPs behind them. Of the word that a host leaves no bit above the length is as it
/// should be.
const DIRTY: &str = "8A 0B 90 90 | 1 88776655F433A291 FFFFFFFFFFFFFF91 ; MOV
8A 2B 90 90 | 1 88776655F433A291 FFFFFFFFFFFF91FF
66 8B 0B 90 | 2 88776655F433A291 FFFFFFFFFFFFA291
8B 0B 90 90 | 4 88776655F433A291 F433A291
48 8B 0B 90 | 8 88776655F433A291 88776655F433A291
66 0F B6 0B | 1 88776655F433A291 FFFFFFFFFFFF0091 ; MOVZX
0F B6 0B 90 | 1 88776655F433A291 91
48 0F B6 0B | 1 88776655F433A291 91
0F B7 0B 90 | 2 88776655F433A291 A291
48 0F B7 0B | 2 88776655F433A291 A291
66 0F BE 0B | 1 88776655F433A291 FFFFFFFFFFFFFF91 ; MOVSX
0F BE 0B 90 | 1 88776655F433A291 FFFFFF91
48 0F BE 0B | 1 88776655F433A291 FFFFFFFFFFFFFF91
48 0F BE 0B | 1 FFFFFFFFFFFFFF7F 7F
0F BF 0B 90 | 2 88776655F433A291 FFFFA291
48 0F BF 0B | 2 88776655F433A291 FFFFFFFFFFFFA291
48 0F BF 0B | 2 FFFFFFFFFFFF7FFF 7FFF";

#[test]
fn what_a_host_leaves_above_the_length_is_not_taken(rt: HostRuntime) -> Result<(), Fail> {
    assert_eq!(rt; mistaken(rt.alloc(), DIRTY)?, None);
    Ok(())
}

#[test]
fn an_exception_in_the_place_of_a_read_places_nothing(rt: HostRuntime) -> Result<(), Fail> {
    let alloc = rt.alloc();
    let image = moving(alloc, &[0x48, 0x8B, 0x0B, 0x90])?;
    let (mut vcpu, mut page) = met(alloc, &image, VERSION_1)?;
    // #GP(0), whose handler is the HLT at 16
    let row = "116:8 | 1 2 | 115:1 116:80000B0D 256:88776655F433A291 | 1:FFFFFFFFFFFFFFFF | 10 3";
    assert!(rt; talks(alloc, &image, &mut vcpu, &mut page, row)?);
    assert_eq!(rt; vcpu.ram().read(0x1000 - 40, 8).ok(), Some(12));
    Ok(())
}

/// The number of loads of a word in a record.
fn loads(items: &[Item], number: u16) -> usize {
    let is_load = |item: &&Item| matches!(item, Item::Load(word, _) if word.number() == number);
    items.iter().filter(is_load).count()
}

/// How often word 256 has been loaded once the guest has exited so often and has had its replies, and its RIP and RAX.
fn exchanged(alloc: Global, exits: usize) -> Result<(usize, u64, u64), Fail> {
    let image = page_guest(alloc)?;
    let mut vcpu = Vcpu::new(&image, 0, image.ram(alloc)?);
    let words = Row::new("1000100000001 0 0 FFFFFFFFFFFF8081").list(alloc)?;
    let mut page = Recorded::new(alloc, Script::new(words));
    for _ in 0..exits {
        page.reserve(320)?;
        vcpu.run_to_exit(&image, &mut page, 100);
        page.reserve(320)?;
        vcpu.resume(&image, &mut page);
    }
    let loads = loads(page.items(), 256);
    Ok((loads, vcpu.regs().rip, vcpu.regs().get(Reg::Rax)))
}

#[test]
fn a_read_of_the_page_loads_word_256_once_and_a_write_never(rt: HostRuntime) -> Result<(), Fail> {
    // the versions, the write and the read
    assert_eq!(rt; exchanged(rt.alloc(), 1)?, (0, 0, 0));
    assert_eq!(rt; exchanged(rt.alloc(), 2)?, (0, 12, 0));
    assert_eq!(rt; exchanged(rt.alloc(), 3)?, (1, 16, 0x8081));
    Ok(())
}

/// Whether a guest ends at its second instruction with this address, and says nothing.
fn ends_silently(alloc: Global, code: &[u8], at: u64) -> Result<bool, Fail> {
    let image = sample_image(alloc, code, 0, 0)?;
    let (mut vcpu, mut page) = met(alloc, &image, VERSION_1)?;
    let progress = vcpu.run_to_exit(&image, &mut page, 100);
    let silent = progress == Progress::Ended && page.msr_word() == VERSION_1;
    let end = vcpu.end() == Some(End::BadAddress(at));
    Ok(silent && end && vcpu.steps() == 1 && vcpu.regs().rip == 5)
}

/// MOV EBX, address; MOV [RBX], EAX; HLT; and the address.
const OUTSIDE: &str = "BB FD FF AF FE 89 03 F4 | FEAFFFFD
BB FF FF AF FE 89 03 F4 | FEAFFFFF
BB FD 0F B0 FE 89 03 F4 | FEB00FFD
BB FF 0F B0 FE 89 03 F4 | FEB00FFF
BB 00 10 B0 FE 89 03 F4 | FEB01000";

#[test]
fn an_operand_that_leaves_the_page_ends_it_with_nothing_said(rt: HostRuntime) -> Result<(), Fail> {
    for line in OUTSIDE.lines() {
        let mut row = Row::new(line);
        let code = row.bytes(rt.alloc())?;
        let [at] = row.numbers::<1>()?;
        assert!(rt; ends_silently(rt.alloc(), code.as_slice(), at)?, "{line}");
    }
    Ok(())
}
