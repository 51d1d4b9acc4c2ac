//! Pictures as files, and what no picture shows of the palette.

use crate::expectation::expect_equal;
use commands::rgb;
use std::alloc::Global;
use std::test::Fail;

/// The bytes of two pictures of one row of zeros each.
pub(crate) fn two_black_pictures(alloc: Global) -> Result<Vec<u8>, Fail> {
    let mut bytes = Vec::new(alloc);
    for _picture in 0..2 {
        bytes.extend_from_slice(b"P6\n160 1\n255\n")?;
        bytes.extend_from_slice(&[0; 480])?;
    }
    Ok(bytes)
}

/// No register has bit 0 of a colour.
#[test]
fn bit_0_of_a_colour_says_nothing(rt: HostRuntime) {
    expect_equal(&rt, rgb(0x01), [0, 0, 0]);
}
