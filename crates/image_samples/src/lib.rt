//! Small guest images for tests.
//!
//! Each has one virtual processor with one page of RAM, a code that starts at address 0, and no data.
#![tactic(auto)]

ghost use Rattle.std.specs.Prelude.{◌≡◌, Ok, IfOk, IfErr};
ghost use Rattle.image_file.specs.Image.{image_of};
ghost use Rattle.image_samples.specs.Sample.{IsFaultOf, sample_of};

use image_file::{Image, ImageError};
use std::alloc::{AllocError as OutOfMemory, Global};

/// The file of an image with this code, of at most 4,096 bytes, and with handlers of #UD and #GP at
/// these addresses of code bytes, or 0 where there is none.
pub fn sample_file(alloc: Global, code: &[u8], ud: u32, gp: u32) -> Result<Vec<u8>, OutOfMemory>
    ensures bytes { IfOk result (λ file. file.items ≡ sample_of code.now ud gp) }
{
    let mut file = b"GHCBIMG1\x01\0\0\0\0\x10\0\0".to_vec(alloc)?;
    file.extend_from_slice(&((code.len() % 0x1_0000_0000) as u32).to_le_bytes())?;
    file.resize(28, 0)?;
    file.extend_from_slice(&ud.to_le_bytes())?;
    file.extend_from_slice(&gp.to_le_bytes())?;
    file.resize(64, 0)?;
    file.extend_from_slice(code)?;
    Ok(file)
}

/// The image that [`sample_file`] holds. `Fault` comes only where that file breaks a rule of the format,
/// with the first one.
pub fn sample_image(alloc: Global, code: &[u8], ud: u32, gp: u32) -> Result<Image, ImageError>
    ensures image { IfOk result (λ image. image_of (sample_of code.now ud gp) ≡ Ok image) }
    ensures fault { IfErr result (IsFaultOf (image_of (sample_of code.now ud gp))) }
{
    Image::read(alloc, &sample_file(alloc, code, ud, gp)?)
}

#[cfg(test)]
mod tests;
