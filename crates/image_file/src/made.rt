// The image that is made from a number: pieces of code that a generator chooses.
ghost use Rattle.std.specs.Prelude.{◌≡◌, ◌++◌, ◌≤◌, length, IfOk, OnOk};
ghost use Rattle.image_file.specs.Made.{MadeIsRead, code_of, made, made_code, made_header, piece_of, step_of};

use crate::header::{HEADER_LEN, Header};
use std::alloc::{AllocError as OutOfMemory, Global};

/// How many pieces the code of a made image has.
const PIECES: u16 = 4096;

/// What a step of the generator multiplies by.
const MULTIPLIER: u64 = 6_364_136_223_846_793_005;

/// What a step of the generator adds.
const INCREMENT: u64 = 1_442_695_040_888_963_407;

/// The code byte of HLT.
const HLT: u8 = 0xF4;

/// One piece of a made image's code: one instruction, or three for an output.
#[derive(Clone, Copy)]
pub enum Piece {
    /// MOV EDX, 3F8h; MOV AL, byte; OUT DX, AL: puts the byte out at the console's port.
    Out(u8),
    /// ADD EBX, byte.
    Add(u8),
    /// RDTSC.
    ReadTsc,
    /// MOV [10000h], EBX: stores into RAM behind the code.
    Store,
}

impl Piece {
    /// The piece that a number of the generator chooses, and its byte, which is a printable character.
    fn chosen_by(number: u64) -> Piece
        ensures value { result ≡ piece_of number }
    {
        let byte = 32 + ((number >> 40) % 95) as u8;
        match (number >> 33) % 4 {
            0 => Piece::Out(byte),
            1 => Piece::Add(byte),
            2 => Piece::ReadTsc,
            _ => Piece::Store,
        }
    }

    /// The number of its code bytes.
    fn len(self) -> u32
        ensures value { result ≡ length (code_of self) }
        ensures few { result ≤ 8 }
    {
        match self {
            Piece::Out(_) => 8,
            Piece::Add(_) => 3,
            Piece::ReadTsc => 2,
            Piece::Store => 7,
        }
    }

    /// Appends its code bytes (APM volume 3, chapter 3).
    fn write(self, file: &mut Vec<u8>) -> Result<(), OutOfMemory>
        ensures appended { OnOk result (file.new.items ≡ file.old.items ++ code_of self) }
    {
        match self {
            Piece::Out(byte) => file.extend_from_slice(&[0xBA, 0xF8, 0x03, 0, 0, 0xB0, byte, 0xEE]),
            Piece::Add(byte) => file.extend_from_slice(&[0x83, 0xC3, byte]),
            Piece::ReadTsc => file.extend_from_slice(&[0x0F, 0x31]),
            Piece::Store => file.extend_from_slice(&[0x89, 0x1C, 0x25, 0, 0, 1, 0]),
        }
    }
}

/// A linear congruential generator of numbers modulo 2^64, each of which chooses a piece.
#[derive(Drop)]
struct Generator {
    number: u64,
}

impl Generator {
    /// The generator that starts at a number, which itself chooses none.
    fn new(n: u16) -> Generator
        ensures start { result.number ≡ n }
    {
        Generator {
            number: u64::from(n),
        }
    }

    /// Takes one step, and gives the piece that the new number chooses.
    fn next_piece(&mut self) -> Piece
        ensures step { self.new.number ≡ step_of self.old.number }
        ensures piece { result ≡ piece_of self.new.number }
    {
        self.number = self.number.wrapping_mul(MULTIPLIER).wrapping_add(INCREMENT);
        Piece::chosen_by(self.number)
    }
}

/// The length of the code of the image made from a number, in bytes.
fn code_len(n: u16) -> u32
    ensures value { result ≡ length (made_code n) }
    ensures few { result ≤ 32769 }
{
    let mut generator = Generator::new(n);
    let mut len = 1;
    for _ in 0..PIECES {
        len += generator.next_piece().len();
    }
    len
}

/// Appends the code of the image made from a number.
fn write_code(file: &mut Vec<u8>, n: u16) -> Result<(), OutOfMemory>
    ensures appended { OnOk result (file.new.items ≡ file.old.items ++ made_code n) }
{
    let mut generator = Generator::new(n);
    for _ in 0..PIECES {
        generator.next_piece().write(file)?;
    }
    file.push(HLT)?;
    Ok(())
}

/// The header of a made image with so many bytes of code.
fn header(code_len: u32) -> Header
    ensures value { result ≡ made_header code_len }
{
    Header {
        vcpus: 4,
        ram_size: 0x2_0000,
        code_len,
        data_len: 0,
        entry: 0,
        vector_ud: 0,
        vector_gp: 0,
        secret_start: 0,
        secret_len: 0,
    }
}

/// The file of a large image that a number makes: four virtual processors with 131,072 bytes of RAM
/// each, and code of 4,096 pieces and HLT. A generator that starts at the number chooses the pieces.
/// The file meets the rules of the format, whatever the number, so that [`Image::read`] takes it.
///
/// [`Image::read`]: crate::Image::read
pub fn make_image(alloc: Global, n: u16) -> Result<Vec<u8>, OutOfMemory>
    ensures made { IfOk result (λ file. file.items ≡ made n) }
    ensures read { MadeIsRead n }
{
    let header = header(code_len(n));
    let mut file = Vec::with_capacity(alloc, HEADER_LEN + header.code_len as usize)?;
    header.write(&mut file)?;
    write_code(&mut file, n)?;
    Ok(file)
}
