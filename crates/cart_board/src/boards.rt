//! The boards, a row each, in the order of their codes.

use crate::bank::{BankByte, BankNumbers, LastBank};
use crate::board::Board;
use crate::hot_spot::{HotSpot, Selects};
use crate::window::{Kind, Slice, Start, When, Window};

/// The lines of an address that find a byte among 4096, 2048, 1024, 256 and 128.
const OF_4096: u16 = 0x0FFF;

const OF_2048: u16 = 0x07FF;

const OF_1024: u16 = 0x03FF;

const OF_256: u16 = 0xFF;

const OF_128: u16 = 0x7F;

/// All 13 lines of an address.
const ALL_LINES: u16 = 0x1FFF;

/// Bank bytes, each with its last bank and the one at power-on.
macro_rules! banks {
    ($($last:literal, $power_on:literal);+) => {
        &[$(BankNumbers {
            last: LastBank::Number($last),
            power_on: $power_on,
        }),+]
    };
}

/// A hot spot at the addresses whose lines of a mask have a value.
macro_rules! hot_spot {
    ($mask:expr, $value:expr, $byte:ident, $selects:expr) => {
        HotSpot {
            mask: $mask,
            value: $value,
            byte: BankByte::$byte,
            selects: $selects,
        }
    };
}

/// For some bank bytes, hot spots from an address on, one for each bank.
macro_rules! hot_spots {
    ($($byte:ident at $first:literal + $($bank:literal)+);+) => {
        &[$($(hot_spot!(ALL_LINES, $first + $bank, $byte, Selects::Bank($bank)),)+)+]
    };
}

/// Hot spots by some lines of an address, one for bank 0 and one for bank 1.
macro_rules! line_hot_spots {
    ($mask:literal: $first:literal, $second:literal) => {
        &[
            hot_spot!($mask, $first, First, Selects::Bank(0)),
            hot_spot!($mask, $second, First, Selects::Bank(1)),
        ]
    };
}

/// A slice of ROM or RAM.
macro_rules! slice {
    ($start:expr, $mask:expr) => {
        Slice {
            start: $start,
            mask: $mask,
        }
    };
}

/// A window that is always open.
macro_rules! window {
    ($first:expr, $last:expr, $kind:ident, $slice:expr) => {
        window!($first, $last, $kind, $slice, When::Always)
    };
    ($first:expr, $last:expr, $kind:ident, $slice:expr, $when:expr) => {
        Window {
            first: $first,
            last: $last,
            when: $when,
            kind: Kind::$kind,
            slice: $slice,
        }
    };
}

/// The ports of a RAM in the lowest addresses, for writing and then for reading.
macro_rules! ports {
    ($mask:ident) => {
        &[
            window!(0, $mask, WritePort, slice!(Start::At(0), $mask)),
            window!($mask + 1, $mask + $mask + 1, ReadPort, slice!(Start::At(0), $mask)),
        ]
    };
}

/// A board with 4096 bytes at a time.
macro_rules! in_banks {
    ($code:literal, $name:literal, $length:literal, $banks:expr, $hot_spots:expr) => {
        in_banks!($code, $name, $length, $banks, $hot_spots, 0, &[])
    };
    ($code:literal, $name:literal, $length:literal, $banks:expr, $hot_spots:expr, $ram:literal, $windows:expr) => {
        Board {
            code: $code,
            name: $name,
            lengths: &[$length],
            banks: $banks,
            hot_spots: $hot_spots,
            trigger: None,
            ram: $ram,
            windows: $windows,
            rest: slice!(Start::Bank(0, BankByte::First), OF_4096),
        }
    };
}

/// A board without banks.
macro_rules! unbanked {
    ($code:literal, $name:literal, $length:literal, $mask:expr, $ram:literal, $windows:expr) => {
        Board {
            code: $code,
            name: $name,
            lengths: &[$length],
            banks: &[],
            hot_spots: &[],
            trigger: None,
            ram: $ram,
            windows: $windows,
            rest: slice!(Start::Last, $mask),
        }
    };
}

/// The boards, equal to the definition's list.
pub(crate) static BOARDS: [Board; 18] = [
    unbanked!(0, "2K", 2048, OF_2048, 0, &[]),
    unbanked!(1, "4K", 4096, OF_4096, 0, &[]),
    in_banks!(
        2,
        "F8",
        8192,
        banks!(1, 1),
        hot_spots!(First at 0x1FF8 + 0 1)
    ),
    in_banks!(
        3,
        "F8SC",
        8192,
        banks!(1, 1),
        hot_spots!(First at 0x1FF8 + 0 1),
        128,
        ports!(OF_128)
    ),
    in_banks!(
        4,
        "F6",
        16384,
        banks!(3, 0),
        hot_spots!(First at 0x1FF6 + 0 1 2 3)
    ),
    in_banks!(
        5,
        "F6SC",
        16384,
        banks!(3, 0),
        hot_spots!(First at 0x1FF6 + 0 1 2 3),
        128,
        ports!(OF_128)
    ),
    in_banks!(
        6,
        "F4",
        32768,
        banks!(7, 0),
        hot_spots!(First at 0x1FF4 + 0 1 2 3 4 5 6 7)
    ),
    in_banks!(
        7,
        "F4SC",
        32768,
        banks!(7, 0),
        hot_spots!(First at 0x1FF4 + 0 1 2 3 4 5 6 7),
        128,
        ports!(OF_128)
    ),
    in_banks!(
        8,
        "FA",
        12288,
        banks!(2, 2),
        hot_spots!(First at 0x1FF8 + 0 1 2),
        256,
        ports!(OF_256)
    ),
    Board {
        code: 9,
        name: "E0",
        lengths: &[8192],
        banks: banks!(7, 4; 7, 5; 7, 6),
        hot_spots: hot_spots!(First at 0x1FE0 + 0 1 2 3 4 5 6 7; Second at 0x1FE8 + 0 1 2 3 4 5 6 7; Third at 0x1FF0 + 0 1 2 3 4 5 6 7),
        trigger: None,
        ram: 0,
        windows: &[
            window!(
                0,
                0x03FF,
                Rom,
                slice!(Start::Bank(0, BankByte::First), OF_1024)
            ),
            window!(
                0x0400,
                0x07FF,
                Rom,
                slice!(Start::Bank(0, BankByte::Second), OF_1024)
            ),
            window!(
                0x0800,
                0x0BFF,
                Rom,
                slice!(Start::Bank(0, BankByte::Third), OF_1024)
            ),
        ],
        rest: slice!(Start::Last, OF_1024),
    },
    Board {
        code: 10,
        name: "3F",
        lengths: &[8192, 16384, 32768, 65536, 131072, 262144, 524288],
        banks: &[BankNumbers {
            last: LastBank::ByLength,
            power_on: 0,
        }],
        hot_spots: &[hot_spot!(0x1FC0, 0, First, Selects::Written)],
        trigger: None,
        ram: 0,
        windows: &[window!(
            0,
            0x07FF,
            Rom,
            slice!(Start::Bank(0, BankByte::First), OF_2048)
        )],
        rest: slice!(Start::Last, OF_2048),
    },
    Board {
        code: 11,
        name: "FE",
        lengths: &[8192],
        banks: banks!(1, 0; 1, 0),
        hot_spots: &[],
        trigger: Some(0x01FE),
        ram: 0,
        windows: &[],
        rest: slice!(Start::Bank(0, BankByte::First), OF_4096),
    },
    Board {
        code: 12,
        name: "E7",
        lengths: &[16384],
        banks: banks!(7, 0; 3, 0),
        hot_spots: hot_spots!(First at 0x1FE0 + 0 1 2 3 4 5 6 7; Second at 0x1FE8 + 0 1 2 3),
        trigger: None,
        ram: 2048,
        windows: &[
            window!(
                0,
                0x03FF,
                WritePort,
                slice!(Start::At(0), OF_1024),
                When::Bank(BankByte::First, 7)
            ),
            window!(
                0x0400,
                0x07FF,
                ReadPort,
                slice!(Start::At(0), OF_1024),
                When::Bank(BankByte::First, 7)
            ),
            window!(
                0,
                0x07FF,
                Rom,
                slice!(Start::Bank(0, BankByte::First), OF_2048)
            ),
            window!(
                0x0800,
                0x08FF,
                WritePort,
                slice!(Start::Bank(1024, BankByte::Second), OF_256)
            ),
            window!(
                0x0900,
                0x09FF,
                ReadPort,
                slice!(Start::Bank(1024, BankByte::Second), OF_256)
            ),
        ],
        rest: slice!(Start::Last, OF_2048),
    },
    in_banks!(
        13,
        "UA",
        8192,
        banks!(1, 0),
        line_hot_spots!(0x1260: 0x0220, 0x0240)
    ),
    unbanked!(
        14,
        "CV",
        2048,
        OF_2048,
        1024,
        &[
            window!(0, 0x03FF, ReadPort, slice!(Start::At(0), OF_1024)),
            window!(0x0400, 0x07FF, WritePort, slice!(Start::At(0), OF_1024)),
        ]
    ),
    in_banks!(
        15,
        "0840",
        8192,
        banks!(1, 0),
        line_hot_spots!(0x1840: 0x0800, 0x0840)
    ),
    in_banks!(
        16,
        "F0",
        65536,
        banks!(15, 15),
        &[hot_spot!(ALL_LINES, 0x1FF0, First, Selects::Next)]
    ),
    in_banks!(
        17,
        "0FA0",
        8192,
        banks!(1, 1),
        line_hot_spots!(0x16E0: 0x06A0, 0x06C0)
    ),
];
