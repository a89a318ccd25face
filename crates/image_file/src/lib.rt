//! Guest images: the file format with its rules, and the private RAM that an image opens with.
//!
//! A file is a header of 64 bytes, then the guest's code, then its data. [`Image::read`] tests the
//! rules of the format in order and keeps what the file holds. [`Image::ram`] makes the memory that
//! a virtual processor starts with, and [`Ram`] reads and writes it, and keeps what was decoded of
//! the code, which nothing writes. [`make_image`] makes the file of a large image from a number.
#![tactic(auto)]

mod fault;
mod header;
mod image;
mod kept;
mod made;
mod number;
mod ram;
mod rules;

pub use fault::{ImageError, ImageFault};
pub use header::MOST_VCPUS;
pub use image::Image;
pub use made::make_image;
pub use number::{read_number, write_number};
pub use ram::{OutOfRam, Ram, RamFault};

#[cfg(test)]
mod made_tests;
#[cfg(test)]
mod tests;
