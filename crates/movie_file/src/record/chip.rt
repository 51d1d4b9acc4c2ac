//! The numbers of a state's record by the chip's rules.

use super::number::{RecordNumber, number};

/// The numbers of a RIOT, which follow its memory.
pub const CHIP_RIOT_NUMBERS: [RecordNumber; 8] = [
    number!("output latch of port A"),
    number!("direction of port A"),
    number!("output latch of port B"),
    number!("direction of port B"),
    number!("timer value"),
    number!("timer part", length: 2),
    number!("timer interval", most: 3),
    number!("timer flag", most: 1),
];

/// The numbers of a TIA.
pub const CHIP_TIA_NUMBERS: [RecordNumber; 61] = [
    number!("VSYNC", mask: 0x02),
    number!("VBLANK", mask: 0x42),
    number!("NUSIZ0", mask: 0x37),
    number!("NUSIZ1", mask: 0x37),
    number!("COLUP0", mask: 0xFE),
    number!("COLUP1", mask: 0xFE),
    number!("COLUPF", mask: 0xFE),
    number!("COLUBK", mask: 0xFE),
    number!("CTRLPF", mask: 0x37),
    number!("REFP0", mask: 0x08),
    number!("REFP1", mask: 0x08),
    number!("PF0", mask: 0xF0),
    number!("PF1"),
    number!("PF2"),
    number!("GRP0 new"),
    number!("GRP0 old"),
    number!("GRP1 new"),
    number!("GRP1 old"),
    number!("ENAM0", mask: 0x02),
    number!("ENAM1", mask: 0x02),
    number!("ENABL new", mask: 0x02),
    number!("ENABL old", mask: 0x02),
    number!("HMP0", mask: 0xF0),
    number!("HMP1", mask: 0xF0),
    number!("HMM0", mask: 0xF0),
    number!("HMM1", mask: 0xF0),
    number!("HMBL", mask: 0xF0),
    number!("VDELP0", mask: 0x01),
    number!("VDELP1", mask: 0x01),
    number!("VDELBL", mask: 0x01),
    number!("RESMP0", mask: 0x02),
    number!("RESMP1", mask: 0x02),
    number!("counter of player 0", most: 159),
    number!("counter of player 1", most: 159),
    number!("counter of missile 0", most: 159),
    number!("counter of missile 1", most: 159),
    number!("counter of the ball", most: 159),
    number!("copy of player 0", most: 10),
    number!("copy of player 1", most: 10),
    number!("bit of player 0", most: 7),
    number!("bit of player 1", most: 7),
    number!("width of player 0", most: 2),
    number!("width of player 1", most: 2),
    number!("change of player 0", most: 5),
    number!("change of player 1", most: 5),
    number!("copy of missile 0", most: 12),
    number!("copy of missile 1", most: 12),
    number!("copy of the ball", most: 12),
    number!("mirrored", most: 1),
    number!("playfield bit", most: 1),
    number!("collisions", length: 2, mask: 0x7F),
    number!("moves", mask: 0x1F),
    number!("pulses", most: 16),
    number!("button latches", mask: 0x03),
    number!("line cycle", most: 75),
    number!("longer", most: 1),
    number!("own size of missile 0", most: 3),
    number!("own size of missile 1", most: 3),
    number!("own size of the ball", most: 4),
    number!("phase of the ball", most: 3),
    number!("seen", mask: 0x1F),
];

/// Where the numbers of the RIOT begin in a record, after its memory.
pub const CHIP_RIOT_NUMBERS_AT: usize = 135;

/// Where the numbers of the TIA begin.
pub const CHIP_TIA_NUMBERS_AT: usize = 144;

/// Where the bank bytes of the board begin, which its RAM follows.
pub const BANK_BYTES_AT: usize = 206;
