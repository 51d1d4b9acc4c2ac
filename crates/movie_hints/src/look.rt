//! What a file is by its first bytes.
ghost use Rattle.std.specs.Prelude.{◌≡◌, find};
ghost use Rattle.movie_hints.specs.Looks.{has_at, has_first_part, is_like, looks};

use std::fmt;

/// What a file is that holds something else, by the bytes with which such files begin.
#[derive(Clone, Copy, Debug, PartialEq, Eq)]
pub enum Look {
    Gzip,
    Xz,
    Zstd,
    Bzip2,
    SevenZip,
    Rar,
    /// A zip file of which the first part is one of a movie of BizHawk.
    BizHawkMovie,
    Zip,
    Tar,
    Png,
    Gif,
    Jpeg,
    /// What MAME records.
    MameInputs,
    /// An input log of BizHawk.
    InputLog,
    /// A movie, but that letters of its magic are small ones.
    SmallMagic,
    /// A movie without its cartridge.
    Stripped,
}

/// What is looked for, in this order.
const LOOKS: [Look; 16] = [
    Look::Gzip,
    Look::Xz,
    Look::Zstd,
    Look::Bzip2,
    Look::SevenZip,
    Look::Rar,
    Look::BizHawkMovie,
    Look::Zip,
    Look::Tar,
    Look::Png,
    Look::Gif,
    Look::Jpeg,
    Look::MameInputs,
    Look::InputLog,
    Look::SmallMagic,
    Look::Stripped,
];

/// Whether bytes have these at a place.
pub(crate) fn has_at(bytes: &[u8], place: usize, wanted: &[u8]) -> bool
    ensures { result ≡ has_at bytes.now place wanted.now }
{
    bytes.get(place..).unwrap_or(&[]).starts_with(wanted)
}

/// Whether bytes begin as a zip file whose first part has a name of so many bytes.
fn has_first_part(bytes: &[u8], name: &[u8], length: u8) -> bool
    ensures { result ≡ has_first_part bytes.now name.now length }
{
    has_at(bytes, 26, &[length, 0]) && has_at(bytes, 30, name)
}

impl Look {
    /// Whether bytes begin as such files do.
    fn is_like(self, bytes: &[u8]) -> bool
        ensures { result ≡ is_like bytes.now self }
    {
        match self {
            Look::Gzip => has_at(bytes, 0, &[0x1F, 0x8B]),
            Look::Xz => has_at(bytes, 0, &[0xFD, 0x37, 0x7A, 0x58, 0x5A, 0x00]),
            Look::Zstd => has_at(bytes, 0, &[0x28, 0xB5, 0x2F, 0xFD]),
            Look::Bzip2 => has_at(bytes, 0, b"BZh"),
            Look::SevenZip => has_at(bytes, 0, &[0x37, 0x7A, 0xBC, 0xAF, 0x27, 0x1C]),
            Look::Rar => has_at(bytes, 0, &[0x52, 0x61, 0x72, 0x21, 0x1A, 0x07]),
            Look::BizHawkMovie => {
                has_at(bytes, 0, &[0x50, 0x4B, 0x03, 0x04])
                    && (has_first_part(bytes, b"Header.txt", 10)
                        || has_first_part(bytes, b"Input Log.txt", 13))
            }
            Look::Zip => has_at(bytes, 0, &[0x50, 0x4B, 0x03, 0x04]),
            Look::Tar => has_at(bytes, 257, b"ustar"),
            Look::Png => has_at(bytes, 0, &[0x89, 0x50, 0x4E, 0x47, 0x0D, 0x0A, 0x1A, 0x0A]),
            Look::Gif => has_at(bytes, 0, b"GIF87a") || has_at(bytes, 0, b"GIF89a"),
            Look::Jpeg => has_at(bytes, 0, &[0xFF, 0xD8, 0xFF]),
            Look::MameInputs => has_at(bytes, 0, b"MAMEINP"),
            Look::InputLog => has_at(bytes, 0, b"[Input]") || has_at(bytes, 0, b"LogKey:"),
            Look::SmallMagic => {
                has_at(bytes, 0, b"a26m") || has_at(bytes, 0, b"a26M") || has_at(bytes, 0, b"A26m")
            }
            Look::Stripped => has_at(bytes, 0, b"A26S"),
        }
    }

    /// What bytes begin as, if they begin as any of these.
    pub(crate) fn of(bytes: &[u8]) -> Option<Look>
        ensures { result ≡ find (is_like bytes.now) looks }
    {
        LOOKS.iter().find(|look| look.is_like(bytes)).copied()
    }
}

impl fmt::Display for Look {
    ghost use Rattle.std.specs.Prelude.{Some};
    ghost use Rattle.movie_hints.specs.HintTexts.{look_text};

    ghost output = { λ look. Some (look_text look) };

    fn fmt<W: fmt::Write>(&self, f: &mut fmt::Formatter<W>) -> fmt::Result {
        match *self {
            Look::Gzip => write!(f, "a gzip file: unpack it first"),
            Look::Xz => write!(f, "an xz file: unpack it first"),
            Look::Zstd => write!(f, "a zstd file: unpack it first"),
            Look::Bzip2 => write!(f, "a bzip2 file: unpack it first"),
            Look::SevenZip => write!(f, "a 7z file: unpack it first"),
            Look::Rar => write!(f, "a RAR file: unpack it first"),
            Look::BizHawkMovie => write!(f, "a BizHawk movie: see vcs_import"),
            Look::Zip => write!(f, "a zip file: unpack it first"),
            Look::Tar => write!(f, "a tar file: unpack it first"),
            Look::Png => write!(f, "a PNG image"),
            Look::Gif => write!(f, "a GIF image"),
            Look::Jpeg => write!(f, "a JPEG image"),
            Look::MameInputs => write!(f, "a MAME input file"),
            Look::InputLog => write!(f, "an input log of BizHawk: see vcs_import"),
            Look::SmallMagic => {
                write!(f, "a movie, but for small letters at byte 0: expected A26M")
            }
            Look::Stripped => {
                write!(
                    f,
                    "a movie without its cartridge: vcs_share join puts it back"
                )
            }
        }
    }
}
