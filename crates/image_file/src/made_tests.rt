// Images that numbers make, against a generator of the tests' own.
use crate::{Image, ImageError, make_image};
use std::alloc::Global;
use std::test::Fail;

/// How often each of the four kinds of pieces comes in the 4,096 steps from a number.
fn counts_of(n: u16) -> [u16; 4] {
    let mut counts = [0_u16; 4];
    let mut x = u128::from(n);
    for _ in 0..4096 {
        x = x
            .wrapping_mul(0x5851_F42D_4C95_7F2D)
            .wrapping_add(0x1405_7B7E_F767_814F)
            % (1 << 64);
        let count = &mut counts[((x >> 33) % 4) as usize];
        *count = count.saturating_add(1);
    }
    counts
}

/// The length of the code: pieces of 8, 3, 2 and 7 bytes, and HLT.
fn code_len(n: u16) -> u32 {
    let [outputs, sums, readings, stores] = counts_of(n);
    8 * u32::from(outputs)
        + 3 * u32::from(sums)
        + 2 * u32::from(readings)
        + 7 * u32::from(stores)
        + 1
}

/// Whether the image made from a number has the right numbers and no byte but header and code.
fn is_right(alloc: Global, n: u16) -> Result<bool, ImageError> {
    let file = make_image(alloc, n)?;
    let image = Image::read(alloc, &file)?;
    let handlers = (image.vector_ud(), image.vector_gp());
    Ok(
        file.len() as u64 == 64 + u64::from(code_len(n))
            && image.code_len() == code_len(n)
            && (image.vcpus(), image.ram_size(), image.entry()) == (4, 131_072, 0)
            && (handlers, image.secret()) == ((0, 0), (0, 0)),
    )
}

/// Whether the code of the image made from a number begins with these bytes.
fn begins_with(alloc: Global, n: u16, bytes: &[u8]) -> Result<bool, ImageError> {
    let ram = Image::read(alloc, &make_image(alloc, n)?)?.ram(alloc)?;
    Ok(ram.code_at(0).starts_with(bytes))
}

#[test]
fn makes_images_from_numbers(rt: HostRuntime) -> Result<(), Fail> {
    for n in [0, 1, 7, 65_535] {
        assert!(rt; is_right(rt.alloc(), n)?, "at {n}");
    }
    Ok(())
}

#[test]
fn begins_with_the_first_piece(rt: HostRuntime) -> Result<(), Fail> {
    let store = [0x89, 0x1C, 0x25, 0, 0, 1, 0];
    assert!(rt; begins_with(rt.alloc(), 0, &store)?);
    assert!(rt; begins_with(rt.alloc(), 1, &[0x0F, 0x31])?);
    Ok(())
}

#[test]
fn makes_the_same_image_twice(rt: HostRuntime) -> Result<(), Fail> {
    let file = make_image(rt.alloc(), 7)?;
    assert!(rt; make_image(rt.alloc(), 7)? == file);
    Ok(())
}
