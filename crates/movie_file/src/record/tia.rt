//! The bytes of a TIA in a state's record.
ghost use Rattle.std.specs.Prelude.{◌≡◌, length, nat_lt, slice_index, Some, None, if◌then◌else◌};
ghost use Rattle.record_table.specs.Numbers.{bytes_of};
ghost use Rattle.tia_core.specs.Numbers.{tia_numbers};
ghost use Rattle.movie_file.specs.RecordNumbers.{tia_at};

use super::number::{RecordNumber, number};
use tia_core::TiaFields;
use vcs_machine::LINE_CYCLES;

/// The numbers of a TIA.
pub const TIA_NUMBERS: [RecordNumber; 41] = [
    number!("VSYNC", mask: 0x02),
    number!("VBLANK", mask: 0xC2),
    number!("NUSIZ0", mask: 0x37),
    number!("NUSIZ1", mask: 0x37),
    number!("COLUP0", mask: 0xFE),
    number!("COLUP1", mask: 0xFE),
    number!("COLUPF", mask: 0xFE),
    number!("COLUBK", mask: 0xFE),
    number!("CTRLPF", mask: 0x37),
    number!("REFP0", mask: 0x08),
    number!("REFP1", mask: 0x08),
    number!("PF0", mask: 0xF0),
    number!("PF1"),
    number!("PF2"),
    number!("GRP0 new"),
    number!("GRP0 old"),
    number!("GRP1 new"),
    number!("GRP1 old"),
    number!("ENAM0", mask: 0x02),
    number!("ENAM1", mask: 0x02),
    number!("ENABL new", mask: 0x02),
    number!("ENABL old", mask: 0x02),
    number!("HMP0", mask: 0xF0),
    number!("HMP1", mask: 0xF0),
    number!("HMM0", mask: 0xF0),
    number!("HMM1", mask: 0xF0),
    number!("HMBL", mask: 0xF0),
    number!("VDELP0", mask: 0x01),
    number!("VDELP1", mask: 0x01),
    number!("VDELBL", mask: 0x01),
    number!("RESMP0", mask: 0x02),
    number!("RESMP1", mask: 0x02),
    number!("position of player 0", most: 159),
    number!("position of player 1", most: 159),
    number!("position of missile 0", most: 159),
    number!("position of missile 1", most: 159),
    number!("position of the ball", most: 159),
    number!("collisions", length: 2, mask: 0x7F),
    number!("button latches", mask: 0x03),
    number!("line cycle", most: 75),
    number!("comb", most: 1),
];

/// The bytes of a TIA.
pub const TIA_LENGTH: usize = 42;

/// The TIA that the bytes spell; none if the beam is beyond its scanline.
pub fn tia_in(bytes: &[u8]) -> Option<TiaFields>
    requires { length bytes.now ≡ TIA_LENGTH }
    ensures { result
        ≡ (if nat_lt (slice_index bytes.now 40) 76 then Some (tia_at bytes.now) else None) }
{
    let cycle = bytes[40];
    if cycle >= LINE_CYCLES {
        return None;
    }
    Some(TiaFields {
        vsync: bytes[0],
        vblank: bytes[1],
        nusiz0: bytes[2],
        nusiz1: bytes[3],
        colup0: bytes[4],
        colup1: bytes[5],
        colupf: bytes[6],
        colubk: bytes[7],
        ctrlpf: bytes[8],
        refp0: bytes[9],
        refp1: bytes[10],
        pf0: bytes[11],
        pf1: bytes[12],
        pf2: bytes[13],
        grp0_new: bytes[14],
        grp0_old: bytes[15],
        grp1_new: bytes[16],
        grp1_old: bytes[17],
        enam0: bytes[18],
        enam1: bytes[19],
        enabl_new: bytes[20],
        enabl_old: bytes[21],
        hmp0: bytes[22],
        hmp1: bytes[23],
        hmm0: bytes[24],
        hmm1: bytes[25],
        hmbl: bytes[26],
        vdelp0: bytes[27],
        vdelp1: bytes[28],
        vdelbl: bytes[29],
        resmp0: bytes[30],
        resmp1: bytes[31],
        position_p0: bytes[32],
        position_p1: bytes[33],
        position_m0: bytes[34],
        position_m1: bytes[35],
        position_bl: bytes[36],
        collisions: u16::from_be_bytes([bytes[37], bytes[38]]),
        latches: bytes[39],
        clock: 3 * cycle,
        comb: bytes[41],
    })
}

/// The bytes that spell a TIA.
pub fn tia_bytes(tia: &TiaFields) -> [u8; TIA_LENGTH]
    ensures { result ≡ bytes_of tia_numbers tia.now }
{
    let collisions = tia.collisions.to_be_bytes();
    [
        tia.vsync,
        tia.vblank,
        tia.nusiz0,
        tia.nusiz1,
        tia.colup0,
        tia.colup1,
        tia.colupf,
        tia.colubk,
        tia.ctrlpf,
        tia.refp0,
        tia.refp1,
        tia.pf0,
        tia.pf1,
        tia.pf2,
        tia.grp0_new,
        tia.grp0_old,
        tia.grp1_new,
        tia.grp1_old,
        tia.enam0,
        tia.enam1,
        tia.enabl_new,
        tia.enabl_old,
        tia.hmp0,
        tia.hmp1,
        tia.hmm0,
        tia.hmm1,
        tia.hmbl,
        tia.vdelp0,
        tia.vdelp1,
        tia.vdelbl,
        tia.resmp0,
        tia.resmp1,
        tia.position_p0,
        tia.position_p1,
        tia.position_m0,
        tia.position_m1,
        tia.position_bl,
        collisions[0],
        collisions[1],
        tia.latches,
        tia.clock / 3,
        tia.comb,
    ]
}
