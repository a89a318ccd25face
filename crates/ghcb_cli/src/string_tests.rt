// String I/O from two files to the console or the trace, where each block is one event.
use crate::fixture::{OF_REPLIES, answers, call, ended, pages_have, took};
use hex_rows::Row;
use image_samples::sample_file;
use run_io::MemFiles;
use std::alloc::Global;
use std::test::Fail;
use std::thread::Threads;

/// MOV ESI, 12h; MOV ECX, 7F1h; MOV EDX, 3F8h; REP OUTSB; HLT: 2,033 bytes behind the code go out.
const PRINTS: &str = "BE 12 00 00 00 B9 F1 07 00 00 BA F8 03 00 00 F3 6E F4";

/// MOV ESI, 12h; MOV ECX, 3; MOV EDX, 3F8h; at 15 REP OUTSB; HLT.
const PRINTS_THREE: &str = "BE 12 00 00 00 B9 03 00 00 00 BA F8 03 00 00 F3 6E F4";

/// MOV EDI, 18h; STD; MOV ECX, 3; MOV EDX, 500h; REP INSD; HLT: the elements at 18h and at 14h lie behind the
/// code, and the one at 10h has bytes of it.
const READS_DOWN: &str = "BF 18 00 00 00 FD B9 03 00 00 00 BA 00 05 00 00 F3 6D F4";

/// MOV EDI, 9; REP INSB; INSB; HLT: RCX is 0, and one byte of port 0 goes behind the code.
const READS_ONE: &str = "BF 09 00 00 00 F3 6C 6C F4";

/// The file of an image with this code, a handler of #GP at an address or none, and so many bytes of data:
/// 0 to 250 again and again.
fn file_with_data(alloc: Global, code: &str, gp: u32, len: u16) -> Result<Vec<u8>, Fail> {
    let mut file = sample_file(alloc, Row::new(code).bytes(alloc)?.as_slice(), 0, gp)?;
    let [low, high] = len.to_le_bytes();
    for (at, byte) in [(20, low), (21, high)] {
        if let Some(slot) = file.get_mut(at) {
            *slot = byte;
        }
    }
    for k in 0..len {
        file.push((k % 251) as u8)?;
    }
    Ok(file)
}

/// A folder with an image, an input and a script.
fn folder(alloc: Global, image: &[u8], input: &[u8], script: &str) -> Result<MemFiles, Fail> {
    let mut files = MemFiles::new(alloc);
    files.add("image", image)?;
    files.add("input", input)?;
    files.add("script", script.as_bytes())?;
    Ok(files)
}

/// Whether a guest with no data or one byte, as its row tells, reads its input by these blocks, comes to this end, and
/// writes nothing, over a hypervisor that changes these words of its replies.
fn runs<R: Threads + Sync>(
    rt: &R,
    alloc: Global,
    row: &str,
    changes: &[(u16, u64)],
) -> Result<bool, Fail> {
    let mut row = Row::new(row);
    let code = row.text();
    let [len] = row.numbers::<1>()?;
    let input = row.bytes(alloc)?;
    let counts = row.list(alloc)?;
    let image = file_with_data(alloc, code, 0, u16::from(len != 0))?;
    let mut files = folder(alloc, &image, input.as_slice(), "")?;
    let left = call(
        rt,
        alloc,
        &["run", "image", "input", "100"],
        &mut files,
        changes,
    )?;
    let silent = left.written.is_empty() && took(&left, counts.as_slice());
    Ok(silent && ended(alloc, &left, row.text())?)
}

/// Guests, how many bytes of data each has, its input, its blocks and its end.
const BLOCKS: &str = "F3 6E F4 | 0 | | | halted steps 2 ; REP OUTSB; HLT, where RCX is 0
BF 18 00 00 00 FD B9 03 00 00 00 BA 00 05 00 00 F3 6D F4 | 0 | | 2 | bad-address 0000000000000010 steps 6
BF 09 00 00 00 F3 6C 6C F4 | 1 | 7A | 1 | halted steps 4";

#[test]
fn a_block_has_the_elements_that_can_be_moved(rt: HostRuntime) -> Result<(), Fail> {
    for line in BLOCKS.lines() {
        assert!(rt; runs(&rt, rt.alloc(), line, &[])?, "{line}");
    }
    Ok(())
}

#[test]
fn a_reply_has_no_count_and_no_buffer_of_its_own(rt: HostRuntime) -> Result<(), Fail> {
    let changes = [(116, 0xFFFF), (117, 0x8000_1800)];
    for line in BLOCKS.lines() {
        assert!(rt; runs(&rt, rt.alloc(), line, &changes)?, "{line}");
    }
    Ok(())
}

/// Whether a run of the long string with so many steps at most writes so many bytes in these blocks, and comes to
/// this end.
fn prints<R: Threads + Sync>(
    rt: &R,
    alloc: Global,
    most: &str,
    written: u16,
    counts: &[u64],
    end: &str,
) -> Result<bool, Fail> {
    let image = file_with_data(alloc, PRINTS, 0, 2033)?;
    let mut files = folder(alloc, &image, b"", "")?;
    let left = call(rt, alloc, &["run", "image", "input", most], &mut files, &[])?;
    let is_data = left.written.len() == usize::from(written)
        && file_with_data(alloc, PRINTS, 0, written)?.ends_with(&left.written);
    Ok(is_data && took(&left, counts) && ended(alloc, &left, end)?)
}

#[test]
fn a_long_string_goes_out_in_blocks_of_2032_bytes(rt: HostRuntime) -> Result<(), Fail> {
    let alloc = rt.alloc();
    assert!(rt; prints(&rt, alloc, "10000", 2033, &[2032, 1], "halted steps 2037")?);
    assert!(rt; prints(&rt, alloc, "4", 2032, &[2032], "spent steps 2035")?);
    Ok(())
}

/// The words that each block shows: the exit code, the address of the buffer, and the bits of both bitmaps.
const OF_BLOCKS: [(u16, u64); 4] = [
    (114, 0x7B),
    (117, 0x8000_0800),
    (126, 0),
    (127, 0x003C_0000_0000_0000),
];

/// Whether the blocks of a guest, as many as `count`, show the words of a row, and leave those of another row: a cell
/// for each block.
fn talks<R: Threads + Sync>(
    rt: &R,
    alloc: Global,
    image: &[u8],
    count: usize,
    [shown, kept]: [&str; 2],
) -> Result<bool, Fail> {
    let mut files = folder(alloc, image, b"", "")?;
    let left = call(
        rt,
        alloc,
        &["run", "image", "input", "10000"],
        &mut files,
        &[],
    )?;
    let is_told = pages_have(alloc, &left.shown, &OF_BLOCKS, shown)?
        && pages_have(alloc, &left.left, &OF_REPLIES, kept)?;
    let pages = left.shown.len().checked_sub(1);
    Ok(is_told && left.done.status == 0 && pages == Some(count))
}

/// The blocks of the long string. The second one stores word 256 alone, so those after it are as the first one left
/// them.
const LONG: &str = "115:3F80E1C 116:7F0 256:706050403020100 509:1716151413121110 510:0 \
    | 115:3F80E1C 116:1 256:18 257:F0E0D0C0B0A0908 509:1716151413121110";

#[test]
fn a_block_stands_on_the_page_in_its_buffer(rt: HostRuntime) -> Result<(), Fail> {
    let alloc = rt.alloc();
    let image = file_with_data(alloc, PRINTS, 0, 2033)?;
    assert!(rt; talks(&rt, alloc, &image, 2, [LONG, ""])?);
    let image = file_with_data(alloc, READS_DOWN, 0, 0)?;
    assert!(rt; talks(&rt, alloc, &image, 1, ["115:500024D 116:2", "256:0"])?);
    let image = file_with_data(alloc, READS_ONE, 0, 1)?;
    assert!(rt; talks(&rt, alloc, &image, 1, ["115:215 116:1 256:0", "256:FF"])?);
    Ok(())
}

/// The exchange of versions.
const VERSIONS: &str = "exit 0000000000000002
msr 0001000133000001
";

/// The block of three bytes.
const THREE: &str = "store 126 0000000000000000
store 127 0000000000000000
store 114 000000000000007b
store 115 0000000003f80e1c
store 116 0000000000000003
store 117 0000000080000800
store 256 0000000000020100
store 126 0000000000000000
store 127 003c000000000000
store 511 0000000000010000
exit 0000000080000000
";

/// The block that is cut where the code is, and its reply.
const DOWN: &str = "store 126 0000000000000000
store 127 0000000000000000
store 114 000000000000007b
store 115 000000000500024d
store 116 0000000000000002
store 117 0000000080000800
store 126 0000000000000000
store 127 003c000000000000
store 511 0000000000010000
exit 0000000080000000
load 115 0000000000000000
load 256 1111111122222222
end bad-address 0000000000000010 steps 6
";

#[test]
fn a_block_of_input_is_answered_by_a_script(rt: HostRuntime) -> Result<(), Fail> {
    let alloc = rt.alloc();
    let image = file_with_data(alloc, READS_DOWN, 0, 3)?;
    let script = "0001000133000001\n0000000000000000\n1111111122222222\n";
    let mut files = folder(alloc, &image, b"", script)?;
    assert!(rt; answers(&rt, alloc, &mut files, &[VERSIONS, DOWN])?);
    Ok(())
}

#[test]
fn a_block_of_output_is_answered_with_an_exception(rt: HostRuntime) -> Result<(), Fail> {
    let alloc = rt.alloc();
    let script = "0001000133000001\n0000000000000001\n0000000080000b0d\n";
    let loads = "load 115 0000000000000001\nload 116 0000000080000b0d\n";
    // There is no handler of #GP, ..
    let image = file_with_data(alloc, PRINTS_THREE, 0, 3)?;
    let mut files = folder(alloc, &image, b"", script)?;
    let texts = [VERSIONS, THREE, loads, "end fault 13 steps 3\n"];
    assert!(rt; answers(&rt, alloc, &mut files, &texts)?);
    // .. or the handler is the instruction itself: it shows the same block again.
    let image = file_with_data(alloc, PRINTS_THREE, 15, 3)?;
    let mut files = folder(alloc, &image, b"", script)?;
    let last = "load 115 0000000000000000\nend halted steps 8\n";
    assert!(rt;
        answers(
            &rt,
            alloc,
            &mut files,
            &[VERSIONS, THREE, loads, THREE, last]
        )?
    );
    Ok(())
}
