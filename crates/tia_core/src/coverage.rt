//! Where the copies of a player and its missile stand.
ghost use Rattle.std.specs.Prelude.{◌≡◌};
ghost use Rattle.tia_core.specs.Coverage.{copies_of};

/// The copies of a mode, each by its distance from the object's position.
#[inline]
pub fn copies(mode: u8) -> &'static [u8]
    ensures { result.now ≡ copies_of mode }
{
    match mode {
        1 => &[0, 16],
        2 => &[0, 32],
        3 => &[0, 16, 32],
        4 => &[0, 64],
        6 => &[0, 32, 64],
        _ => &[0],
    }
}
