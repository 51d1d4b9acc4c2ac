//! Pictures as Netpbm files.
ghost use Rattle.std.specs.Prelude.{◌≡◌, ◌≤◌, ◌<◌, OnOk, OnErr, drop, length};
ghost use Rattle.std.specs.Fmt.{decimal};
ghost use Rattle.std.specs.Io.KnownBytes.{Appends};
ghost use Rattle.picture_file.specs.PictureBytes.{header_bytes, picture_bytes, pictures_bytes};
ghost use Rattle.picture_file.specs.PictureBytes.{row_bytes};
ghost use Rattle.picture_file.specs.Prefixes.{AppendsPrefix};

use crate::bytes::{WriteFault, write_bytes};
use crate::palette::rgb;
use arrayvec::ArrayVec;
use std::io::Write;
use vcs_machine::{Picture, Pictures};

/// The bytes of a file before its rows, at most.
pub const HEADER_BYTES: usize = 15;

/// The bytes of a row of 160 pixels.
pub const ROW_BYTES: usize = 480;

/// The decimal digits of a number, from a place on.
fn digits(n: u16) -> ([u8; 3], usize)
    requires { n < 1000 }
    ensures from { result.1 ≤ 3 }
    ensures text { drop result.1 result.0 ≡ decimal n }
{
    let bytes = [
        b'0' + (n / 100) as u8,
        b'0' + (n / 10 % 10) as u8,
        b'0' + (n % 10) as u8,
    ];
    if n < 10 {
        (bytes, 2)
    } else if n < 100 {
        (bytes, 1)
    } else {
        (bytes, 0)
    }
}

fn write_number<W: Write>(n: u16, writer: &mut W) -> Result<(), WriteFault>
    requires { n < 1000 }
    ensures ok { OnOk result (Appends (W.contents writer.old) (W.contents writer.new) (decimal n)) }
    ensures err { OnErr result (AppendsPrefix (W.contents writer.old) (W.contents writer.new) (decimal n)) }
{
    let (bytes, from) = digits(n);
    let (_, text) = bytes.split_at(from);
    write_bytes(text, writer)
}

fn write_header<W: Write>(rows: u16, writer: &mut W) -> Result<(), WriteFault>
    requires { rows < 1000 }
    ensures ok { OnOk result (Appends (W.contents writer.old) (W.contents writer.new) (header_bytes rows)) }
    ensures err { OnErr result (AppendsPrefix (W.contents writer.old) (W.contents writer.new) (header_bytes rows)) }
{
    write_bytes(b"P6\n160 ", writer)?;
    write_number(rows, writer)?;
    write_bytes(b"\n255\n", writer)?;
    Ok(())
}

/// The bytes of a row, three for each of its pixels.
fn bytes_of_row(row: &[u8]) -> ArrayVec<u8, ROW_BYTES>
    requires { length row.now ≤ 160 }
    ensures { result.items ≡ row_bytes row.now }
{
    let mut bytes = ArrayVec::new();
    let mut last = 0;
    let mut parts = rgb(last);
    for colour in row {
        // Most pixels have the colour of the one before.
        if *colour != last {
            last = *colour;
            parts = rgb(last);
        }
        let [red, green, blue] = parts;
        bytes.push(red);
        bytes.push(green);
        bytes.push(blue);
    }
    bytes
}

fn write_row<W: Write>(row: &[u8], writer: &mut W) -> Result<(), WriteFault>
    requires { length row.now ≤ 160 }
    ensures ok { OnOk result (Appends (W.contents writer.old) (W.contents writer.new) (row_bytes row.now)) }
    ensures err { OnErr result (AppendsPrefix (W.contents writer.old) (W.contents writer.new) (row_bytes row.now)) }
{
    write_bytes(bytes_of_row(row).as_slice(), writer)
}

/// Writes a picture as a portable pixmap (P6) of 160 columns, or with a fault a prefix of it. It
/// takes no memory.
pub fn ppm<W: Write>(picture: &Picture, writer: &mut W) -> Result<(), WriteFault>
    ensures ok { OnOk result (Appends (W.contents writer.old) (W.contents writer.new) (picture_bytes picture.now)) }
    ensures err { OnErr result (AppendsPrefix (W.contents writer.old) (W.contents writer.new) (picture_bytes picture.now)) }
{
    write_header(picture.rows(), writer)?;
    for y in 0..picture.rows() {
        write_row(picture.row(y), writer)?;
    }
    Ok(())
}

/// Writes pictures one after another, or with a fault a prefix of them.
pub fn write_pictures<W: Write>(pictures: &Pictures, writer: &mut W) -> Result<(), WriteFault>
    ensures ok { OnOk result (Appends (W.contents writer.old) (W.contents writer.new) (pictures_bytes pictures.now)) }
    ensures err { OnErr result (AppendsPrefix (W.contents writer.old) (W.contents writer.new) (pictures_bytes pictures.now)) }
{
    for i in 0..pictures.len() {
        ppm(pictures.at(i), writer)?;
    }
    Ok(())
}
