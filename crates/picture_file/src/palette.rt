//! The colours of a picture.
ghost use Rattle.std.specs.Prelude.{◌≡◌};
ghost use Rattle.picture_file.specs.Palette.{rgb_of};

/// The red, green and blue of each hue at luminance 0.
const HUES: [[u8; 3]; 16] = [
    [0, 0, 0],
    [64, 64, 0],
    [87, 48, 0],
    [87, 32, 8],
    [87, 0, 0],
    [80, 0, 56],
    [64, 0, 87],
    [40, 0, 87],
    [0, 0, 87],
    [0, 24, 87],
    [0, 48, 80],
    [0, 64, 56],
    [0, 72, 0],
    [24, 64, 0],
    [48, 56, 0],
    [72, 40, 0],
];

/// The red, green and blue of a colour byte, whose hue is in bits 7 to 4 and whose luminance is in
/// bits 3 to 1.
pub fn rgb(colour: u8) -> [u8; 3]
    ensures { result ≡ rgb_of colour }
{
    let luminance = 24 * (colour / 2 % 8);
    let [red, green, blue] = HUES[(colour / 16) as usize];
    [red + luminance, green + luminance, blue + luminance]
}
