use crate::{sample_file, sample_image};
use std::test::Fail;

#[test]
fn an_image_has_its_code_and_handlers(rt: HostRuntime) -> Result<(), Fail> {
    let file = sample_file(rt.alloc(), &[0x90, 0xF4], 0, 1)?;
    assert_eq!(rt; file.len(), 66);
    let image = sample_image(rt.alloc(), &[0x90, 0xF4], 0, 1)?;
    assert_eq!(rt; image.vcpus(), 1);
    assert_eq!(rt; image.code_len(), 2);
    assert_eq!(rt; image.vector_ud(), 0);
    assert_eq!(rt; image.vector_gp(), 1);
    assert_eq!(rt; image.ram(rt.alloc())?.code_at(0), [0x90, 0xF4].as_slice());
    Ok(())
}
