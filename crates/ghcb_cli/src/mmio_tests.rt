// Moves that reach the page of devices, from two files to the console or the trace.
use crate::fixture::{OF_REPLIES, answers, call, ended, folder, has_words, pages_have, took};
use event_table::End;
use hex_rows::Row;
use run_io::MemFiles;
use std::alloc::Global;
use std::test::Fail;
use std::thread::Threads;

/// MOV EBX, FEB00FFFh; MOV BYTE PTR [RBX], 80h; MOVSX EAX, BYTE PTR [RBX]; MOV AX, [RBX]; HLT: the last move
/// would leave the page.
const LAST_BYTE: &str = "BB FF 0F B0 FE C6 03 80 0F BE 03 66 8B 03 F4";

/// MOV EBX, FEB00000h; MOV QWORD PTR [RBX], -1; MOVZX EAX, WORD PTR [RBX + 2]; HLT.
const FIRST_BYTES: &str = "BB 00 00 B0 FE 48 C7 03 FF FF FF FF 0F B7 43 02 F4";

/// MOV EBX, FEB00800h; MOV RAX, F8E7D6C5B4A39281h: each byte of RAX is another, and each has its sign bit.
const BEGINS: &str = "BB 00 08 B0 FE 48 B8 81 92 A3 B4 C5 D6 E7 F8";

/// MOV [RBX], RAX.
const STORES: &str = "48 89 03";

/// VMMCALL, whose page has the whole of RAX; HLT.
const SHOWS: &str = "0F 01 D9 F4";

/// A folder with the image of a code, whose parts these texts are, an empty input, and a script.
fn guest(alloc: Global, parts: &[&str], gp: u32, script: &str) -> Result<MemFiles, Fail> {
    let mut code = Vec::new(alloc);
    for part in parts {
        code.extend_from_slice(Row::new(*part).bytes(alloc)?.as_slice())?;
    }
    folder(alloc, code.as_slice(), gp, b"", script)
}

/// Whether a run with the steps of a row has its accesses, of one element each, and its end, and writes nothing.
fn runs<R: Threads + Sync>(rt: &R, alloc: Global, code: &str, row: &str) -> Result<bool, Fail> {
    let mut row = Row::new(row);
    let most = row.text();
    let accesses = row.list(alloc)?;
    let mut files = guest(alloc, &[code], 0, "")?;
    let left = call(rt, alloc, &["run", "image", "input", most], &mut files, &[])?;
    let silent = left.written.is_empty() && took(&left, accesses.as_slice());
    Ok(silent && ended(alloc, &left, row.text())?)
}

#[test]
fn each_move_is_one_access_and_one_step(rt: HostRuntime) -> Result<(), Fail> {
    let alloc = rt.alloc();
    for row in [
        "100 | 1 1 | bad-address 00000000feb00fff steps 3",
        "2 | 1 | spent steps 2",
        "3 | 1 1 | spent steps 3",
    ] {
        assert!(rt; runs(&rt, alloc, LAST_BYTE, row)?, "{row}");
    }
    for row in ["100 | 1 1 | halted steps 4", "3 | 1 1 | spent steps 3"] {
        assert!(rt; runs(&rt, alloc, FIRST_BYTES, row)?, "{row}");
    }
    Ok(())
}

/// MOV EBX, FEB00FF0h; MOV RAX, "the page"; MOV [RBX], RAX; MOV DWORD PTR [RBX + 8], " wor";
/// MOV WORD PTR [RBX + 12], "ks"; MOV EDX, 3F8h; MOVZX EAX, BYTE PTR [RBX]; TEST AL, AL; JE to the HLT;
/// OUT DX, AL; INC EBX; JMP -12; HLT: the page's last two bytes are still 0.
const PRINTS: [&str; 3] = [
    "BB F0 0F B0 FE 48 B8 74 68 65 20 70 61 67 65 48 89 03",
    "C7 43 08 20 77 6F 72 66 C7 43 0C 6B 73",
    "BA F8 03 00 00 0F B6 03 84 C0 74 05 EE FF C3 EB F4 F4",
];

#[test]
fn what_was_written_together_is_read_byte_by_byte(rt: HostRuntime) -> Result<(), Fail> {
    let alloc = rt.alloc();
    let mut files = guest(alloc, &PRINTS, 0, "")?;
    let left = call(
        &rt,
        alloc,
        &["run", "image", "input", "100"],
        &mut files,
        &[],
    )?;
    assert!(rt; took(&left, &[1; 32]));
    assert!(rt; ended(alloc, &left, "halted steps 94")?);
    assert_eq!(rt; left.written.as_slice(), b"the page works".as_slice());
    Ok(())
}

/// The words that each MMIO event shows: the address of the buffer, and the bits of both bitmaps.
const OF_MOVES: [(u16, u64); 4] = [
    (117, 0x8000_0800),
    (126, 0),
    (127, 0x003C_0000_0000_0000),
    (511, 0x1_0000),
];

/// Whether the events of a guest show the words of a row, and leave those of another row: a cell for each event.
fn talks<R: Threads + Sync>(
    rt: &R,
    alloc: Global,
    code: &str,
    shown: &str,
    kept: &str,
) -> Result<bool, Fail> {
    let mut files = guest(alloc, &[code], 0, "")?;
    let left = call(
        rt,
        alloc,
        &["run", "image", "input", "100"],
        &mut files,
        &[],
    )?;
    let is_told = pages_have(alloc, &left.shown, &OF_MOVES, shown)?
        && pages_have(alloc, &left.left, &OF_REPLIES, kept)?;
    Ok(is_told && left.shown.len() == 3 && left.left.len() == 3)
}

#[test]
fn a_move_stands_on_the_page_between_guest_and_host(rt: HostRuntime) -> Result<(), Fail> {
    let alloc = rt.alloc();
    let last_shown = "114:80000002 115:FEB00FFF 116:1 256:80 | 114:80000001 115:FEB00FFF 116:1";
    let last_left = "114:80000002 256:80 | 114:80000001 256:80 257:0";
    assert!(rt; talks(&rt, alloc, LAST_BYTE, last_shown, last_left)?);
    let first_shown = "114:80000002 115:FEB00000 116:8 256:FFFFFFFFFFFFFFFF 257:0 \
        | 114:80000001 115:FEB00002 116:2";
    let first_left = "256:FFFFFFFFFFFFFFFF | 256:FFFF 257:0";
    assert!(rt; talks(&rt, alloc, FIRST_BYTES, first_shown, first_left)?);
    Ok(())
}

/// Whether a guest of these parts comes to its HLT, and its first event is a write that shows these words.
fn writes<R: Threads + Sync>(
    rt: &R,
    alloc: Global,
    parts: &[&str],
    shown: &[(u16, u64)],
) -> Result<bool, Fail> {
    let mut files = guest(alloc, parts, 0, "")?;
    let left = call(
        rt,
        alloc,
        &["run", "image", "input", "100"],
        &mut files,
        &[],
    )?;
    let page = left.shown.get(1);
    let is_write = has_words(page, &[(114, 0x8000_0002)]) && has_words(page, &OF_MOVES);
    let is_all = left.shown.len() == 2 && left.done.ends.as_slice() == [End::Halted].as_slice();
    Ok(is_all && is_write && has_words(page, shown))
}

/// Moves to the page, and the words that each shows: the address, the length and the number.
const TO_PAGE: &str = "88 03 | 115:FEB00800 116:1 256:81 ; MOV [RBX], AL
88 63 01 | 115:FEB00801 116:1 256:92 ; MOV [RBX + 1], AH
40 88 C4 40 88 23 | 115:FEB00800 116:1 256:81 ; MOV SPL, AL; MOV [RBX], SPL
66 89 43 02 | 115:FEB00802 116:2 256:9281 ; MOV [RBX + 2], AX
89 43 04 | 115:FEB00804 116:4 256:B4A39281 ; MOV [RBX + 4], EAX
48 89 43 08 | 115:FEB00808 116:8 256:F8E7D6C5B4A39281 ; MOV [RBX + 8], RAX
49 89 C0 4C 89 03 | 115:FEB00800 116:8 256:F8E7D6C5B4A39281 ; MOV R8, RAX; MOV [RBX], R8
C6 03 7F | 115:FEB00800 116:1 256:7F ; MOV BYTE PTR [RBX], 7Fh
66 C7 03 34 F2 | 115:FEB00800 116:2 256:F234 ; MOV WORD PTR [RBX], F234h
C7 03 78 56 34 F2 | 115:FEB00800 116:4 256:F2345678 ; MOV DWORD PTR [RBX], F2345678h
48 C7 03 78 56 34 F2 | 115:FEB00800 116:8 256:FFFFFFFFF2345678 ; MOV QWORD PTR [RBX], FFFFFFFFF2345678h";

#[test]
fn a_move_to_the_page_shows_the_low_bits_of_its_source(rt: HostRuntime) -> Result<(), Fail> {
    let alloc = rt.alloc();
    for line in TO_PAGE.lines() {
        let mut row = Row::new(line);
        let parts = [BEGINS, row.text(), "F4"];
        let shown = row.words(alloc)?;
        assert!(rt; writes(&rt, alloc, &parts, shown.as_slice())?, "{line}");
    }
    Ok(())
}

/// Moves from the page, and of each the address, the length, and RAX after it: of what the devices hold there,
/// which is RAX as it was, and of a script's word FEDCBA987654B2F0h.
const FROM_PAGE: &str =
    "8A 43 07 | FEB00807 1 | F8E7D6C5B4A392F8 F8E7D6C5B4A392F0 ; MOV AL, [RBX + 7]
8A 63 07 | FEB00807 1 | F8E7D6C5B4A3F881 F8E7D6C5B4A3F081 ; MOV AH, [RBX + 7]
66 8B 43 06 | FEB00806 2 | F8E7D6C5B4A3F8E7 F8E7D6C5B4A3B2F0 ; MOV AX, [RBX + 6]
8B 43 04 | FEB00804 4 | F8E7D6C5 7654B2F0 ; MOV EAX, [RBX + 4]
48 8B 03 | FEB00800 8 | F8E7D6C5B4A39281 FEDCBA987654B2F0 ; MOV RAX, [RBX]
0F B6 43 07 | FEB00807 1 | F8 F0 ; MOVZX EAX, BYTE PTR [RBX + 7]
66 0F B6 43 07 | FEB00807 1 | F8E7D6C5B4A300F8 F8E7D6C5B4A300F0 ; MOVZX AX, BYTE PTR [RBX + 7]
48 0F B6 43 07 | FEB00807 1 | F8 F0 ; MOVZX RAX, BYTE PTR [RBX + 7]
0F B7 43 06 | FEB00806 2 | F8E7 B2F0 ; MOVZX EAX, WORD PTR [RBX + 6]
66 0F B7 43 06 | FEB00806 2 | F8E7D6C5B4A3F8E7 F8E7D6C5B4A3B2F0 ; MOVZX AX, WORD PTR [RBX + 6]
48 0F B7 43 06 | FEB00806 2 | F8E7 B2F0 ; MOVZX RAX, WORD PTR [RBX + 6]
0F BE 43 07 | FEB00807 1 | FFFFFFF8 FFFFFFF0 ; MOVSX EAX, BYTE PTR [RBX + 7]
66 0F BE 43 07 | FEB00807 1 | F8E7D6C5B4A3FFF8 F8E7D6C5B4A3FFF0 ; MOVSX AX, BYTE PTR [RBX + 7]
48 0F BE 43 07 | FEB00807 1 | FFFFFFFFFFFFFFF8 FFFFFFFFFFFFFFF0 ; MOVSX RAX, BYTE PTR [RBX + 7]
0F BF 43 06 | FEB00806 2 | FFFFF8E7 FFFFB2F0 ; MOVSX EAX, WORD PTR [RBX + 6]
66 0F BF 43 06 | FEB00806 2 | F8E7D6C5B4A3F8E7 F8E7D6C5B4A3B2F0 ; MOVSX AX, WORD PTR [RBX + 6]
48 0F BF 43 06 | FEB00806 2 | FFFFFFFFFFFFF8E7 FFFFFFFFFFFFB2F0 ; MOVSX RAX, WORD PTR [RBX + 6]";

/// Whether a guest that stores RAX, and then does these parts, reads so many bytes at this address in its second
/// event and shows this RAX in its third, where its last step is, though a host changes words of its replies.
fn reads<R: Threads + Sync>(
    rt: &R,
    alloc: Global,
    code: &str,
    [at, len, rax]: [u64; 3],
    changes: &[(u16, u64)],
) -> Result<bool, Fail> {
    let mut files = guest(alloc, &[BEGINS, STORES, code, SHOWS], 0, "")?;
    let left = call(
        rt,
        alloc,
        &["run", "image", "input", "5"],
        &mut files,
        changes,
    )?;
    let page = left.shown.get(2);
    let is_read = has_words(page, &OF_MOVES)
        && has_words(page, &[(114, 0x8000_0001), (115, at), (116, len)]);
    let is_shown = has_words(left.shown.get(3), &[(114, 0x81), (63, rax)]);
    let is_all = left.shown.len() == 4 && ended(alloc, &left, "spent steps 5")?;
    Ok(is_all && is_read && is_shown)
}

/// Words that a reply has no use for: a register, high bits of the status, a length, another buffer, bits of
/// both bitmaps, and the word behind the number.
const BESIDE: &str = "63:5 115:FFFFFFFF00000000 116:FFFF 117:80001800 126:FFFFFFFFFFFFFFFF \
    127:FFFFFFFFFFFFFFFF 257:FFFFFFFFFFFFFFFF";

#[test]
fn a_move_from_the_page_is_extended_into_its_register(rt: HostRuntime) -> Result<(), Fail> {
    let alloc = rt.alloc();
    let beside = Row::new(BESIDE).words(alloc)?;
    for line in FROM_PAGE.lines() {
        let mut row = Row::new(line);
        let code = row.text();
        let [at, len] = row.numbers::<2>()?;
        let [rax, _] = row.numbers::<2>()?;
        for changes in [&[], beside.as_slice()] {
            assert!(rt; reads(&rt, alloc, code, [at, len, rax], changes)?, "{line}");
        }
    }
    Ok(())
}

#[test]
fn an_immediate_of_48_c7_is_sign_extended(rt: HostRuntime) -> Result<(), Fail> {
    let alloc = rt.alloc();
    // MOV QWORD PTR [RBX], FFFFFFFF80000001h; MOV RAX, [RBX]
    let mut files = guest(
        alloc,
        &[BEGINS, "48 C7 03 01 00 00 80 48 8B 03", SHOWS],
        0,
        "",
    )?;
    let left = call(&rt, alloc, &["run", "image", "input", "5"], &mut files, &[])?;
    assert!(rt; ended(alloc, &left, "spent steps 5")?);
    assert_eq!(rt; left.shown.len(), 4);
    let number = 0xFFFF_FFFF_8000_0001;
    let written = [(114, 0x8000_0002), (116, 8), (256, number)];
    assert!(rt; has_words(left.shown.get(1), &written));
    assert!(rt; has_words(left.left.get(2), &[(116, 0), (256, number)]));
    assert!(rt; has_words(left.shown.get(3), &[(114, 0x81), (63, number)]));
    Ok(())
}

/// Whether a guest that stores RAX, fills it with ones and does these parts shows this RAX.
fn clears<R: Threads + Sync>(rt: &R, alloc: Global, code: &str, rax: u64) -> Result<bool, Fail> {
    // OR RAX, -1
    let fills = "48 83 C8 FF";
    let mut files = guest(alloc, &[BEGINS, STORES, fills, code, SHOWS], 0, "")?;
    let left = call(rt, alloc, &["run", "image", "input", "6"], &mut files, &[])?;
    let is_shown = has_words(left.shown.get(3), &[(114, 0x81), (63, rax)]);
    Ok(is_shown && left.shown.len() == 4 && ended(alloc, &left, "spent steps 6")?)
}

/// Moves of what the page holds at RBX to EAX, and RAX after each.
const TO_HALF: &str = "8B 03 | B4A39281 ; MOV EAX, [RBX]
0F B6 03 | 81 ; MOVZX EAX, BYTE PTR [RBX]
0F B7 03 | 9281 ; MOVZX EAX, WORD PTR [RBX]
0F BE 03 | FFFFFF81 ; MOVSX EAX, BYTE PTR [RBX]
0F BF 03 | FFFF9281 ; MOVSX EAX, WORD PTR [RBX]";

#[test]
fn a_move_to_32_bits_clears_the_upper_half(rt: HostRuntime) -> Result<(), Fail> {
    for line in TO_HALF.lines() {
        let mut row = Row::new(line);
        let code = row.text();
        let [rax] = row.numbers::<1>()?;
        assert!(rt; clears(&rt, rt.alloc(), code, rax)?, "{line}");
    }
    Ok(())
}

/// The exchange of versions.
const EXCHANGE: &str = "exit 0000000000000002
msr 0001000133000001
";

/// The beginning of each event.
const BLANK: &str = "store 126 0000000000000000
store 127 0000000000000000
";

/// The end of an MMIO event.
const ENTERS: &str = "store 126 0000000000000000
store 127 003c000000000000
store 511 0000000000010000
exit 0000000080000000
";

/// The end of VMMCALL's event, and its reply.
const CALLS: &str = "store 114 0000000000000081
store 115 0000000000000000
store 116 0000000000000000
store 126 8000000002000000
store 127 001c000000000000
store 511 0000000000010000
exit 0000000080000000
load 115 0000000000000000
load 126 8000000000000000
load 063 0000000000000005
end halted steps 5
";

/// Whether a move of so many bytes at this address makes this RAX of a script's word.
fn takes<R: Threads + Sync>(
    rt: &R,
    alloc: Global,
    code: &str,
    [at, len, rax]: [u64; 3],
) -> Result<bool, Fail> {
    let script = "0001000133000001
0000000000000000
fedcba987654b2f0
0000000000000000
8000000000000000
0000000000000005
";
    let mut files = guest(alloc, &[BEGINS, code, SHOWS], 0, script)?;
    let asks = format!(in alloc;
        "store 114 0000000080000001\nstore 115 {at:016x}\nstore 116 {len:016x}\n"
    )?;
    let shows = format!(in alloc; "store 025 0000000000000000\nstore 063 {rax:016x}\n")?;
    let texts = [
        EXCHANGE,
        BLANK,
        asks.as_str(),
        "store 117 0000000080000800\n",
        ENTERS,
        "load 115 0000000000000000\nload 256 fedcba987654b2f0\n",
        BLANK,
        shows.as_str(),
        CALLS,
    ];
    answers(rt, alloc, &mut files, &texts)
}

#[test]
fn of_a_scripts_word_the_low_bytes_are_taken(rt: HostRuntime) -> Result<(), Fail> {
    for line in FROM_PAGE.lines() {
        let mut row = Row::new(line);
        let code = row.text();
        let [at, len] = row.numbers::<2>()?;
        let [_, rax] = row.numbers::<2>()?;
        assert!(rt; takes(&rt, rt.alloc(), code, [at, len, rax])?, "{line}");
    }
    Ok(())
}

/// MOV EBX, FEB00800h; at 5 MOV AL, [RBX]; at 7 HLT.
const READS: &str = "BB 00 08 B0 FE 8A 03 F4";

/// MOV EBX, FEB00800h; at 5 MOV [RBX], AL; HLT.
const WRITES: &str = "BB 00 08 B0 FE 88 03 F4";

/// The read of a byte.
const READ: &str = "store 126 0000000000000000
store 127 0000000000000000
store 114 0000000080000001
store 115 00000000feb00800
store 116 0000000000000001
store 117 0000000080000800
store 126 0000000000000000
store 127 003c000000000000
store 511 0000000000010000
exit 0000000080000000
";

/// The write of a byte.
const WRITE: &str = "store 126 0000000000000000
store 127 0000000000000000
store 114 0000000080000002
store 115 00000000feb00800
store 116 0000000000000001
store 117 0000000080000800
store 256 0000000000000000
store 126 0000000000000000
store 127 003c000000000000
store 511 0000000000010000
exit 0000000080000000
";

/// The whole run of the guest at the last byte, where the value that comes has seven bytes too many.
const AT_LAST_BYTE: &str = "exit 0000000000000002
msr 0001000133000001
store 126 0000000000000000
store 127 0000000000000000
store 114 0000000080000002
store 115 00000000feb00fff
store 116 0000000000000001
store 117 0000000080000800
store 256 0000000000000080
store 126 0000000000000000
store 127 003c000000000000
store 511 0000000000010000
exit 0000000080000000
load 115 0000000000000000
store 126 0000000000000000
store 127 0000000000000000
store 114 0000000080000001
store 115 00000000feb00fff
store 116 0000000000000001
store 117 0000000080000800
store 126 0000000000000000
store 127 003c000000000000
store 511 0000000000010000
exit 0000000080000000
load 115 0000000000000000
load 256 fedcba9876543280
end bad-address 00000000feb00fff steps 3
";

/// The whole run of the guest at the first bytes.
const AT_FIRST_BYTES: &str = "exit 0000000000000002
msr 0001000133000001
store 126 0000000000000000
store 127 0000000000000000
store 114 0000000080000002
store 115 00000000feb00000
store 116 0000000000000008
store 117 0000000080000800
store 256 ffffffffffffffff
store 126 0000000000000000
store 127 003c000000000000
store 511 0000000000010000
exit 0000000080000000
load 115 0000000000000000
store 126 0000000000000000
store 127 0000000000000000
store 114 0000000080000001
store 115 00000000feb00002
store 116 0000000000000002
store 117 0000000080000800
store 126 0000000000000000
store 127 003c000000000000
store 511 0000000000010000
exit 0000000080000000
load 115 0000000000000000
load 256 fedcba987654ffff
end halted steps 4
";

#[test]
fn moves_are_answered_by_a_script(rt: HostRuntime) -> Result<(), Fail> {
    let alloc = rt.alloc();
    let script = "0001000133000001
0000000000000000
0000000000000000
fedcba9876543280
";
    let mut files = guest(alloc, &[LAST_BYTE], 0, script)?;
    assert!(rt; answers(&rt, alloc, &mut files, &[AT_LAST_BYTE])?);
    let script = "0001000133000001
0000000000000000
0000000000000000
fedcba987654ffff
";
    let mut files = guest(alloc, &[FIRST_BYTES], 0, script)?;
    assert!(rt; answers(&rt, alloc, &mut files, &[AT_FIRST_BYTES])?);
    // Every word is 0.
    let mut files = guest(alloc, &[READS], 0, "0001000133000001\n")?;
    let zeros = "load 115 0000000000000000
load 256 0000000000000000
end halted steps 3
";
    assert!(rt; answers(&rt, alloc, &mut files, &[EXCHANGE, READ, zeros])?);
    Ok(())
}

#[test]
fn an_exception_in_the_place_of_a_move_is_delivered(rt: HostRuntime) -> Result<(), Fail> {
    let alloc = rt.alloc();
    let script = "0001000133000001\n0000000000000001\n0000000080000b0d\n";
    let loads = "load 115 0000000000000001\nload 116 0000000080000b0d\n";
    // There is no handler of #GP, ..
    let mut files = guest(alloc, &[READS], 0, script)?;
    let texts = [EXCHANGE, READ, loads, "end fault 13 steps 1\n"];
    assert!(rt; answers(&rt, alloc, &mut files, &texts)?);
    // .. or the handler is the HLT.
    let mut files = guest(alloc, &[READS], 7, script)?;
    let texts = [EXCHANGE, READ, loads, "end halted steps 3\n"];
    assert!(rt; answers(&rt, alloc, &mut files, &texts)?);
    // The handler is the write itself.
    let script = "0001000133000001\n0000000000000001\n0000000580000b0d\n";
    let loads = "load 115 0000000000000001\nload 116 0000000580000b0d\n";
    let mut files = guest(alloc, &[WRITES], 5, script)?;
    let last = "load 115 0000000000000000\nend halted steps 4\n";
    assert!(rt;
        answers(
            &rt,
            alloc,
            &mut files,
            &[EXCHANGE, WRITE, loads, WRITE, last]
        )?
    );
    Ok(())
}

#[test]
fn a_move_without_a_lawful_reply_ends_the_guest(rt: HostRuntime) -> Result<(), Fail> {
    let alloc = rt.alloc();
    // a status that there is not
    let script = "0001000133000001\n0000000000000002\n";
    let mut files = guest(alloc, &[READS], 0, script)?;
    let last = "load 115 0000000000000002
exit 0000000000000100
end terminated bad-status 0000000000000002 steps 1
";
    assert!(rt; answers(&rt, alloc, &mut files, &[EXCHANGE, READ, last])?);
    // an exception that a host may not ask for
    let script = "0001000133000001\n0000000000000001\n0000000080000b0e\n";
    let mut files = guest(alloc, &[READS], 0, script)?;
    let last = "load 115 0000000000000001
load 116 0000000080000b0e
exit 0000000000000100
end terminated bad-exception 0000000080000b0e steps 1
";
    assert!(rt; answers(&rt, alloc, &mut files, &[EXCHANGE, READ, last])?);
    Ok(())
}

/// Whether a guest comes to this end with no event, over a hypervisor and on a script.
fn ends_silently<R: Threads + Sync>(
    rt: &R,
    alloc: Global,
    code: &str,
    end: &str,
) -> Result<bool, Fail> {
    let mut files = guest(alloc, &[code], 0, "0001000133000001\n")?;
    let over = call(rt, alloc, &["run", "image", "input", "9"], &mut files, &[])?;
    let on = call(
        rt,
        alloc,
        &["hostile", "image", "script", "9"],
        &mut files,
        &[],
    )?;
    let told = format!(in alloc; "{EXCHANGE}end {end}\n")?;
    let silent = over.written.is_empty() && took(&over, &[]) && took(&on, &[]);
    let is_told = on.written.as_slice() == told.as_str().as_bytes();
    Ok(silent && is_told && ended(alloc, &over, end)? && ended(alloc, &on, end)?)
}

/// Guests that end at an operand, and the ends: most begin with MOV EBX, address.
const UNREACHED: &str =
    "BB FF 0F B0 FE 66 8B 03 | bad-address 00000000feb00fff steps 1 ; MOV AX, [RBX]
BB F9 0F B0 FE 48 89 03 | bad-address 00000000feb00ff9 steps 1 ; MOV [RBX], RAX
BB FF FF AF FE 66 89 03 | bad-address 00000000feafffff steps 1 ; MOV [RBX], AX
BB 00 10 B0 FE 8A 03 | bad-address 00000000feb01000 steps 1 ; MOV AL, [RBX]
8A 04 25 00 00 B0 FE | bad-address fffffffffeb00000 steps 0 ; MOV AL, [FFFFFFFFFEB00000h]
BB 00 08 B0 FE 00 03 | bad-address 00000000feb00800 steps 1 ; ADD [RBX], AL
BB 00 08 B0 FE 3A 03 | bad-address 00000000feb00800 steps 1 ; CMP AL, [RBX]
BB 00 08 B0 FE 84 03 | bad-address 00000000feb00800 steps 1 ; TEST [RBX], AL
BB 00 08 B0 FE FE 03 | bad-address 00000000feb00800 steps 1 ; INC BYTE PTR [RBX]
BB 00 08 B0 FE 0F AF 03 | bad-address 00000000feb00800 steps 1 ; IMUL EAX, [RBX]
BB 00 08 B0 FE 0F 94 03 | bad-address 00000000feb00800 steps 1 ; SETE BYTE PTR [RBX]
BB 00 08 B0 FE 0F 44 03 | bad-address 00000000feb00800 steps 1 ; CMOVE EAX, [RBX], whose condition is false
BB 00 08 B0 FE 48 63 03 | bad-address 00000000feb00800 steps 1 ; MOVSXD RAX, DWORD PTR [RBX]
BB 00 08 B0 FE 48 89 DC 50 | bad-address 00000000feb007f8 steps 2 ; MOV RSP, RBX; PUSH RAX
BB 00 08 B0 FE 48 89 DC 58 | bad-address 00000000feb00800 steps 2 ; MOV RSP, RBX; POP RAX
BB 00 08 B0 FE 48 89 DF 6C | bad-address 00000000feb00800 steps 2 ; MOV RDI, RBX; INSB
BB 00 08 B0 FE 48 89 DE 6E | bad-address 00000000feb00800 steps 2 ; MOV RSI, RBX; OUTSB
BB 00 08 B0 FE 53 C3 | bad-address 00000000feb00800 steps 3 ; PUSH RBX; RET: nothing in the page is code";

#[test]
fn no_other_instruction_reaches_the_page(rt: HostRuntime) -> Result<(), Fail> {
    for line in UNREACHED.lines() {
        let mut row = Row::new(line);
        let (code, end) = (row.text(), row.text());
        assert!(rt; ends_silently(&rt, rt.alloc(), code, end)?, "{line}");
    }
    Ok(())
}
