// Guests with a secret: what they come to, at the first use of a label or at their end.
use crate::{Verdict, What, follow};
use event_table::End;
use hex_rows::Row;
use image_file::Image;
use image_samples::sample_file;
use page_words::Script;
use std::alloc::Global;
use std::test::Fail;

/// The host offers version 1.
const VERSION_1: u64 = 0x0001_0001_3300_0001;

/// Writes a number of four bytes to a file.
fn put(file: &mut Vec<u8>, at: u8, number: u64) {
    let bytes = number.to_le_bytes();
    for k in 0..4 {
        if let Some(slot) = file.get_mut(usize::from(at) + k) {
            *slot = bytes[k];
        }
    }
}

/// The image of a code and of data behind it. The places are those of the secret: where it starts, and its
/// length; and of the handlers of #UD and #GP.
fn image_of(alloc: Global, code: &[u8], data: &[u8], places: [u64; 4]) -> Result<Image, Fail> {
    let mut file = sample_file(alloc, code, 0, 0)?;
    let [start, len, ud, gp] = places;
    put(&mut file, 20, data.len() as u64);
    put(&mut file, 28, ud);
    put(&mut file, 32, gp);
    put(&mut file, 36, start);
    put(&mut file, 40, len);
    file.extend_from_slice(data)?;
    Ok(Image::read(alloc, file.as_slice())?)
}

/// What an end is called in a row.
fn name_of(end: &End) -> &'static str {
    match end {
        End::Halted => "halted",
        End::Spent => "spent",
        End::Undecoded => "undecoded",
        End::BadAddress(_) => "bad-address",
        End::Fault(_) => "fault",
        End::Terminated(_) => "terminated",
    }
}

/// Whether this is the verdict, by what a row calls it and its steps.
fn is_called(verdict: &Verdict, name: &str, steps: u64) -> bool {
    match verdict {
        Verdict::Clean {
            end,
            steps: so_many,
        } => name_of(end) == name && *so_many == steps,
        Verdict::Flows { step, what } => {
            let used = match what {
                What::Branch => "branch",
                What::Address => "address",
                What::Named => "named",
            };
            used == name && *step == steps
        }
    }
}

/// Whether an image comes to what the last cells of a row tell, with at most 100 steps, where the host gives
/// these words.
fn comes(alloc: Global, image: &Image, words: &[u64], row: &mut Row) -> Result<bool, Fail> {
    let mut page = Script::new(Vec::from_slice(alloc, words)?);
    let verdict = follow(alloc, image, 100, &mut page)?;
    let name = row.text();
    let [steps] = row.numbers::<1>()?;
    Ok(is_called(&verdict, name, steps))
}

/// Whether a guest comes to what its row tells. Its cells are its code, its data, the secret's address and
/// length, and the addresses of the handlers of #UD and #GP; the host's words; what it comes to, and after how
/// many steps.
pub fn is_whole(alloc: Global, line: &str) -> Result<bool, Fail> {
    let mut row = Row::new(line);
    let code = row.bytes(alloc)?;
    let data = row.bytes(alloc)?;
    let places = row.numbers::<4>()?;
    let words = row.list(alloc)?;
    let image = image_of(alloc, code.as_slice(), data.as_slice(), places)?;
    comes(alloc, &image, words.as_slice(), &mut row)
}

/// Whether a guest comes to what its row tells that has 16 bytes of a secret at 100, which are 0, and a host of
/// version 1. Its cells are the ModRM byte of MOV from 100 to a register of 64 bits, with which it begins, or
/// none; the code behind it; the words of the host's replies, which are 0 behind these; the addresses of the
/// handlers; what it comes to, and after how many steps.
pub fn is_so(alloc: Global, line: &str) -> Result<bool, Fail> {
    let mut row = Row::new(line);
    let mut code = Vec::new(alloc);
    for register in row.bytes(alloc)?.as_slice() {
        code.extend_from_slice(&[0x48, 0x8B, *register, 0x25, 0, 1, 0, 0])?;
    }
    code.extend_from_slice(row.bytes(alloc)?.as_slice())?;
    let mut words = Vec::new(alloc);
    words.push(VERSION_1)?;
    words.extend_from_slice(row.list(alloc)?.as_slice())?;
    let [ud, gp] = row.numbers::<2>()?;
    let image = image_of(alloc, code.as_slice(), &[], [0x100, 0x10, ud, gp])?;
    comes(alloc, &image, words.as_slice(), &mut row)
}

/// Whole guests.
const GUESTS: &str = "\
8A 04 25 16 00 00 00 02 04 25 17 00 00 00 88 04 25 18 00 00 00 F4 \
| 05 07 00 | 16 2 0 0 | 1000133000001 | halted | 4
8A 04 25 11 00 00 00 02 04 25 12 00 00 00 74 00 F4 | 05 07 | 11 2 0 0 | 1000133000001 | branch | 2
8A 04 25 0E 00 00 00 BA F8 03 00 00 EE F4 | 41 | E 1 0 0 | 1000133000001 | named | 2
8A 04 25 0A 00 00 00 8A 00 F4 | 05 | A 1 0 0 | 1000133000001 | address | 1
8A 04 25 0F 00 00 00 BA F8 03 00 00 ED EE F4 | 41 | F 1 0 0 | 1000133000001 0 8000000000000000 42 | halted | 5
8A 04 25 0F 00 00 00 BA F8 03 00 00 EC EE F4 | 41 | F 1 0 0 | 1000133000001 0 8000000000000000 42 | named | 3
6A 10 68 00 10 00 00 48 8B 04 25 1A 00 00 00 50 6A 08 6A 16 48 CF 31 DB 6E F4 \
| 02 04 00 00 00 00 00 00 | 1A 8 0 0 | 1000133000001 | branch | 6
BA F8 03 00 00 B0 48 EE F4 | | 0 0 0 0 | | terminated | 0
48 8B 34 25 0A 00 00 00 6E F4 | FF FF FF FF FF FF FF FF | A 8 0 0 | 1000133000001 | address | 1 ; OUTSB of no byte of RAM";

#[test]
fn guests_show_their_secret_or_not(rt: HostRuntime) -> Result<(), Fail> {
    for line in GUESTS.lines() {
        assert!(rt; is_whole(rt.alloc(), line)?, "{line}");
    }
    Ok(())
}

/// A register that is written at 8 or 16 bits keeps its label, and one that is written at 32 or 64 bits loses it.
const WIDTHS: &str = "\
04 | EE | | 0 0 | named | 1
04 | B0 01 EE | | 0 0 | named | 2 ; MOV AL
04 | B4 01 EE | | 0 0 | named | 2 ; MOV AH
04 | 66 B8 01 00 EE | | 0 0 | named | 2 ; MOV AX
04 | B8 01 00 00 00 EE F4 | | 0 0 | halted | 4 ; MOV EAX
04 | 48 B8 01 00 00 00 00 00 00 00 EE F4 | | 0 0 | halted | 4 ; MOV RAX
04 | 66 0F B6 C3 EE | | 0 0 | named | 2 ; MOVZX AX, BL
04 | 0F B6 C3 EE F4 | | 0 0 | halted | 4 ; MOVZX EAX, BL
04 | 48 0F BE D8 8A 03 | | 0 0 | address | 2 ; MOVSX RBX, AL takes the label
04 | 48 63 D8 8A 03 | | 0 0 | address | 2 ; MOVSXD RBX, EAX
04 | 8D 18 8A 03 | | 0 0 | address | 2 ; LEA EBX, [RAX]: the address is a value
04 | 8D 18 F4 | | 0 0 | halted | 3";

/// A byte of RAM takes the label of what is stored, and loses its own. The secret's bytes have labels from the first
/// to the last.
const BYTES: &str = "\
04 | 88 04 25 00 02 00 00 B8 00 00 00 00 8A 04 25 00 02 00 00 EE | | 0 0 | named | 4
04 | 48 89 04 25 00 02 00 00 B8 00 00 00 00 8A 04 25 07 02 00 00 EE | | 0 0 | named | 4
04 | 48 89 04 25 00 02 00 00 B8 00 00 00 00 8A 04 25 08 02 00 00 EE F4 | | 0 0 | halted | 6
| 88 04 25 00 01 00 00 8A 04 25 00 01 00 00 EE F4 | | 0 0 | halted | 4
| 88 04 25 00 01 00 00 8A 04 25 01 01 00 00 EE | | 0 0 | named | 2
| 8A 04 25 FF 00 00 00 EE F4 | | 0 0 | halted | 3
| 8A 04 25 00 01 00 00 EE | | 0 0 | named | 1
| 8A 04 25 0F 01 00 00 EE | | 0 0 | named | 1
| 8A 04 25 10 01 00 00 EE F4 | | 0 0 | halted | 3";

/// A register of an address.
const ADDRESSES: &str = "\
04 | 8A 18 | | 0 0 | address | 1 ; MOV BL, [RAX]
04 | 88 18 | | 0 0 | address | 1 ; MOV [RAX], BL
04 | 8A 1C 03 | | 0 0 | address | 1 ; MOV BL, [RBX + RAX]
04 | 01 18 | | 0 0 | address | 1 ; ADD [RAX], EBX
04 | 0F 94 00 | | 0 0 | address | 1 ; SETZ [RAX]
04 | 0F 44 18 | | 0 0 | address | 1 ; CMOVZ EBX, [RAX]";

#[test]
fn labels_follow_what_is_moved(rt: HostRuntime) -> Result<(), Fail> {
    for rows in [WIDTHS, BYTES, ADDRESSES] {
        for line in rows.lines() {
            assert!(rt; is_so(rt.alloc(), line)?, "{line}");
        }
    }
    Ok(())
}

/// The flags: first TEST AL, AL with the secret in RAX, and then what an operation leaves of their label.
const FLAGS: &str = "\
04 | 84 C0 74 00 | | 0 0 | branch | 2
04 | 84 C0 31 DB 74 00 F4 | | 0 0 | halted | 5 ; XOR EBX, EBX writes all five
04 | 84 C0 FE C3 74 00 | | 0 0 | branch | 3 ; INC BL
04 | 84 C0 FE CB 74 00 | | 0 0 | branch | 3 ; DEC BL
04 | 84 C0 F6 D3 74 00 | | 0 0 | branch | 3 ; NOT BL
04 | 84 C0 F8 74 00 | | 0 0 | branch | 3 ; CLC
04 | 84 C0 F9 74 00 | | 0 0 | branch | 3 ; STC
04 | 84 C0 F5 74 00 | | 0 0 | branch | 3 ; CMC
04 | 84 C0 FC 74 00 | | 0 0 | branch | 3 ; CLD
04 | 84 C0 FD 74 00 | | 0 0 | branch | 3 ; STD
04 | 30 C0 74 00 | | 0 0 | branch | 2 ; XOR AL, AL
04 | 29 C0 EE | | 0 0 | named | 2 ; SUB EAX, EAX
04 | 39 C0 74 00 | | 0 0 | branch | 2 ; CMP EAX, EAX
04 | F6 D8 74 00 | | 0 0 | branch | 2 ; NEG AL
04 | 0F AF D8 8A 03 | | 0 0 | address | 2 ; IMUL EBX, EAX
04 | 84 C0 C1 E3 20 74 00 | | 0 0 | branch | 3 ; SHL EBX, 32 writes no flags
04 | 84 C0 48 C1 E3 20 74 00 F4 | | 0 0 | halted | 5 ; SHL RBX, 32
04 | 84 C0 C1 E3 01 74 00 F4 | | 0 0 | halted | 5 ; SHL EBX, 1
0C | D3 E3 74 00 | | 0 0 | branch | 2 ; SHL EBX, CL
0C | D3 E3 8A 03 | | 0 0 | address | 2
04 | 84 C0 D3 E3 74 00 | | 0 0 | branch | 3 ; SHL EBX, CL reads the flags
04 | 84 C0 D3 E3 8A 03 | | 0 0 | address | 3";

/// Operations that read the flags, after TEST AL, AL and MOV EAX, 0; and CMOVZ with both its operands.
const READERS: &str = "\
04 | 84 C0 B8 00 00 00 00 83 C0 00 EE F4 | | 0 0 | halted | 6 ; ADD EAX, 0 reads none
04 | 84 C0 B8 00 00 00 00 83 D0 00 EE | | 0 0 | named | 4 ; ADC EAX, 0
04 | 84 C0 B8 00 00 00 00 83 D8 00 EE | | 0 0 | named | 4 ; SBB EAX, 0
04 | 84 C0 B8 00 00 00 00 0F 94 C0 EE | | 0 0 | named | 4 ; SETZ AL
04 | 84 C0 B8 00 00 00 00 0F 44 C1 EE | | 0 0 | named | 4 ; CMOVZ EAX, ECX
04 | 31 DB 0F 44 C1 EE | | 0 0 | named | 3
0C | 31 DB 0F 45 C1 EE | | 0 0 | named | 3 ; CMOVNZ EAX, ECX, which keeps EAX";

#[test]
fn labels_follow_what_is_calculated(rt: HostRuntime) -> Result<(), Fail> {
    for rows in [FLAGS, READERS] {
        for line in rows.lines() {
            assert!(rt; is_so(rt.alloc(), line)?, "{line}");
        }
    }
    Ok(())
}

/// The stack. Each word that IRETQ pops is a branch, and an IRETQ that goes takes the flags' label away.
const STACK: &str = "\
04 | 50 6A 00 58 EE F4 | | 0 0 | halted | 6 ; PUSH RAX; PUSH 0; POP RAX
04 | 50 6A 00 58 58 EE | | 0 0 | named | 5
04 | 50 58 6A 00 F4 | | 0 0 | halted | 5
04 | 50 5C 6A 00 | | 0 0 | address | 3 ; POP RSP takes the label
| 68 00 10 00 00 5C 6A 00 F4 | | 0 0 | halted | 4
04 | 50 5B E8 00 00 00 00 58 EE F4 | | 0 0 | halted | 7 ; CALL pushes over the labelled word
24 | 50 | | 0 0 | address | 1 ; PUSH RAX
24 | 58 | | 0 0 | address | 1 ; POP RAX
24 | E8 00 00 00 00 | | 0 0 | address | 1 ; CALL
24 | C3 | | 0 0 | address | 1 ; RET
24 | 48 CF | | 0 0 | address | 1 ; IRETQ
04 | 50 C3 | | 0 0 | branch | 2
| E8 01 00 00 00 F4 C3 | | 0 0 | halted | 3
04 | EB FE | | 0 0 | spent | 64
04 | 6A 10 6A 00 6A 02 6A 08 50 48 CF | | 0 0 | branch | 6 ; RIP
04 | 6A 10 6A 00 6A 02 50 6A 00 48 CF | | 0 0 | branch | 6 ; CS, which is refused
04 | 6A 10 6A 00 50 6A 08 6A 00 48 CF | | 0 0 | branch | 6 ; the flags word
04 | 6A 10 50 6A 02 6A 08 6A 00 48 CF | | 0 0 | branch | 6 ; RSP
04 | 50 6A 00 6A 02 6A 08 6A 00 48 CF | | 0 0 | branch | 6 ; SS
04 | 84 C0 6A 10 68 00 10 00 00 6A 02 6A 08 6A 19 48 CF 74 00 F4 | | 0 0 | halted | A";

#[test]
fn labels_follow_what_is_pushed(rt: HostRuntime) -> Result<(), Fail> {
    for line in STACK.lines() {
        assert!(rt; is_so(rt.alloc(), line)?, "{line}");
    }
    Ok(())
}
