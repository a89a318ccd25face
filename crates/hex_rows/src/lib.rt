//! Tables of tests, as text. A row is a line of cells between `|`, each of them hexadecimal numbers between blanks;
//! what stands behind a `;` is a note.
//!
//! A table of many rows is then one string, which costs a reader, a compiler and a prover less than as many structs.
#![tactic(auto)]

#[cfg(test)]
mod tests;

use std::alloc::{AllocFailed, Global};

/// Why a row isn't read.
#[derive(Clone, Copy, Debug, PartialEq, Eq)]
pub enum RowError {
    /// A cell is missing, or has another kind of numbers or another count of them.
    BadCell,
    /// There is no memory for its numbers.
    OutOfMemory,
}

impl<T: Drop> From<AllocFailed<T>> for RowError {
    fn from(_: AllocFailed<T>) -> RowError {
        RowError::OutOfMemory
    }
}

/// The number of these hexadecimal digits.
fn number_of(digits: &str) -> Result<u64, RowError> {
    u64::from_str_radix(digits, 16).map_err(|_| RowError::BadCell)
}

/// The byte of these hexadecimal digits.
fn byte_of(digits: &str) -> Result<u8, RowError> {
    u8::from_str_radix(digits, 16).map_err(|_| RowError::BadCell)
}

/// The word of a text `115:FEB00800`: its number, in decimal digits, and what it is.
fn word_of(text: &str) -> Result<(u16, u64), RowError> {
    let (number, value) = text.split_once(':').ok_or(RowError::BadCell)?;
    let number = u16::from_str_radix(number, 10).map_err(|_| RowError::BadCell)?;
    Ok((number, number_of(value)?))
}

/// The cells of a row that are still to be read, the next of them first.
#[derive(Clone, Copy, Debug)]
pub struct Row<'a> {
    cells: &'a str,
}

impl<'a> Row<'a> {
    /// The row of a line.
    pub fn new(line: &'a str) -> Row<'a> {
        let (cells, _) = line.split_once(';').unwrap_or((line, ""));
        Row { cells }
    }

    /// The text of the next cell, without blanks at its ends; it is empty behind the last cell.
    pub fn text(&mut self) -> &'a str {
        let (cell, rest) = self.cells.split_once('|').unwrap_or((self.cells, ""));
        self.cells = rest;
        cell.trim_ascii()
    }

    /// The bytes of the next cell.
    pub fn bytes(&mut self, alloc: Global) -> Result<Vec<u8>, RowError> {
        let mut bytes = Vec::new(alloc);
        for digits in self.text().split_whitespace() {
            bytes.push(byte_of(digits)?)?;
        }
        Ok(bytes)
    }

    /// The numbers of the next cell, however many there are.
    pub fn list(&mut self, alloc: Global) -> Result<Vec<u64>, RowError> {
        let mut numbers = Vec::new(alloc);
        for digits in self.text().split_whitespace() {
            numbers.push(number_of(digits)?)?;
        }
        Ok(numbers)
    }

    /// The words of the next cell, each with its number.
    pub fn words(&mut self, alloc: Global) -> Result<Vec<(u16, u64)>, RowError> {
        let mut words = Vec::new(alloc);
        for text in self.text().split_whitespace() {
            words.push(word_of(text)?)?;
        }
        Ok(words)
    }

    /// The numbers of the next cell, which are exactly so many.
    pub fn numbers<const N: usize>(&mut self) -> Result<[u64; N], RowError> {
        let mut texts = self.text().split_whitespace();
        let mut numbers = [0; N];
        for number in &mut numbers {
            *number = number_of(texts.next().ok_or(RowError::BadCell)?)?;
        }
        match texts.next() {
            Some(_) => Err(RowError::BadCell),
            None => Ok(numbers),
        }
    }
}
