//! What no command line shows of movies, of records and of the numbers of frames.

use crate::expectation::expect_equal;
use crate::movies::{ENDLESS_FRAMES, cartridge, power_on, read, two_frames};
use input_text::write_numbered;
use movie_file::{MakeError, NoProgress, make_movie, read_state, version_made, write_movie};
use movie_machine::Cart;
use refused::Refused;
use std::num::NonZeroU32;
use std::test::Fail;
use vcs_machine::Input;

#[test]
fn movie_is_written_after_what_stands_there(rt: HostRuntime) -> Result<(), Fail> {
    let bytes = two_frames(rt.alloc())?;
    let movie = read(rt.alloc(), &bytes)?;
    let mut output = Vec::from_slice(rt.alloc(), &[0x99])?;
    write_movie(&movie, &mut output)?;
    assert!(rt; output.split_first() == Some((&0x99, bytes.as_slice())));
    Ok(())
}

#[test]
fn record_without_its_bank_is_no_state(rt: HostRuntime) {
    assert!(rt; read_state(&power_on()).is_none());
}

#[test]
fn movie_of_65536_frames_has_version_2(rt: HostRuntime) -> Result<(), Fail> {
    let cart = Cart::Guide(cartridge(rt.alloc(), &ENDLESS_FRAMES)?);
    expect_equal(&rt, version_made(&cart, 65_535), 1);
    expect_equal(&rt, version_made(&cart, 65_536), 2);
    Ok(())
}

#[test]
fn movie_is_not_made_with_a_checkpoint_after_each_0_frames(rt: HostRuntime) -> Result<(), Fail> {
    let idle = Input::new(0xFF, 0x3F, 0).ok_or("an input")?;
    let inputs = vec![in rt.alloc(); idle; 2]?;
    let cart = cartridge(rt.alloc(), &ENDLESS_FRAMES)?;
    let refusal = make_movie(rt.alloc(), Cart::Guide(cart), inputs, 0, &NoProgress).err();
    expect_equal(&rt, refusal, Some(Refused::Of(MakeError::BadCounts)));
    assert!(rt; refusal != Some(Refused::NoMemory));
    Ok(())
}

#[test]
fn numbers_of_frames_go_on_past_32_bits(rt: HostRuntime) -> Result<(), Fail> {
    let idle = Input::new(0xFF, 0x3F, 0).ok_or("an input")?;
    let reset = Input::new(0xFF, 0x3E, 0).ok_or("an input")?;
    let printed = write_numbered(rt.alloc(), NonZeroU32::MAX, &[idle, idle, reset])?;
    assert!(rt; printed.as_str() == "4294967295: 2\n4294967297: 1 reset\n");
    Ok(())
}
