//! Pictures as files: each a Netpbm portable pixmap, in the colours of this project's palette.
#![tactic(auto)]

mod bytes;
mod netpbm;
mod palette;

pub use bytes::{WriteFault, write_bytes};
pub use netpbm::{HEADER_BYTES, ROW_BYTES, ppm, write_pictures};
pub use palette::rgb;
