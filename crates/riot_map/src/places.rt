//! What an address can lead to.

/// A place on the bus, and what the address names there.
#[derive(Clone, Copy, Debug, PartialEq, Eq)]
pub enum Place {
    /// The cartridge, with the whole address.
    Cart(u16),
    /// A register of the TIA, 0 to 63: address lines A0 to A5.
    Tia(u8),
    /// A byte of the RIOT's memory, 0 to 127: address lines A0 to A6.
    Ram(u8),
    /// A register of the RIOT's ports and timer, 0 to 31: address lines A0 to A4.
    Io(u8),
}
