//! The bytes of a TIA in a state's record.
ghost use Rattle.std.specs.Prelude.{◌≡◌, ◌++◌, ◌<◌, IsTrue, length, nat_lt, slice_index, Some, None, if◌then◌else◌};
ghost use Rattle.record_table.specs.Numbers.{bytes_of};
ghost use Rattle.tia_chip.specs.Bits.{has_bit};
ghost use Rattle.tia_chip.specs.Numbers.{beam_numbers, colour_numbers, counter_numbers, is_tia};
ghost use Rattle.tia_chip.specs.Numbers.{motion_numbers, object_numbers, place_numbers};
ghost use Rattle.tia_chip.specs.Numbers.{player_numbers, size_numbers, tia_numbers};
ghost use Rattle.chip_machine.specs.RecordNumbers.{tia_at};

use super::objects::{ball_at, missile_at, player_at};
use tia_chip::{
    TiaState, ball_copy_number, bit_number, missile_copy_number, moves_number, own_size_number,
    player_copy_number, seen_number, size_number,
};
use vcs_machine::LINE_CYCLES;

/// The bytes of a TIA.
pub const TIA_LENGTH: usize = 62;

/// Whether a bit of a byte is 1.
fn has_bit(byte: u8, bit: u32) -> bool
    requires { bit < 8 }
    ensures { result ≡ has_bit byte bit }
{
    (byte >> bit) % 2 == 1
}

/// The TIA that the bytes spell; none if the beam is beyond its scanline.
pub fn tia_in(bytes: &[u8]) -> Option<TiaState>
    requires { length bytes.now ≡ TIA_LENGTH }
    ensures { result ≡ (if nat_lt (slice_index bytes.now 55) 76 then Some (tia_at bytes.now) else None) }
{
    let cycle = bytes[55];
    if cycle >= LINE_CYCLES {
        return None;
    }
    let (moves, seen) = (bytes[52], bytes[61]);
    Some(TiaState {
        vsync: bytes[0],
        vblank: bytes[1],
        colup0: bytes[4],
        colup1: bytes[5],
        colupf: bytes[6],
        colubk: bytes[7],
        ctrlpf: bytes[8],
        pf0: bytes[11],
        pf1: bytes[12],
        pf2: bytes[13],
        player0: player_at(bytes, 0, has_bit(moves, 0), has_bit(seen, 0)),
        player1: player_at(bytes, 1, has_bit(moves, 1), has_bit(seen, 1)),
        missile0: missile_at(bytes, 0, has_bit(moves, 2), has_bit(seen, 2)),
        missile1: missile_at(bytes, 1, has_bit(moves, 3), has_bit(seen, 3)),
        ball: ball_at(bytes, has_bit(moves, 4), has_bit(seen, 4)),
        mirrored: bytes[48] == 1,
        playfield: bytes[49] == 1,
        collisions: u16::from_be_bytes([bytes[50], bytes[51]]),
        pulses: bytes[53],
        latches: bytes[54],
        clock: 3 * cycle,
        beam: 3 * cycle,
        longer: bytes[56] == 1,
        waiting: None,
        hmove: None,
        changed: false,
        line: 0,
        fire0: false,
        fire1: false,
    })
}

/// The bytes of the registers that time and colour the picture, and those that draw the objects.
fn drawing_bytes(tia: &TiaState) -> [u8; 22]
    ensures { result ≡ bytes_of colour_numbers tia.now ++ bytes_of object_numbers tia.now }
{
    let (player0, player1, ball) = (&tia.player0, &tia.player1, &tia.ball);
    [
        tia.vsync,
        tia.vblank,
        player0.nusiz,
        player1.nusiz,
        tia.colup0,
        tia.colup1,
        tia.colupf,
        tia.colubk,
        tia.ctrlpf,
        player0.refp,
        player1.refp,
        tia.pf0,
        tia.pf1,
        tia.pf2,
        player0.grp_new,
        player0.grp_old,
        player1.grp_new,
        player1.grp_old,
        tia.missile0.enam,
        tia.missile1.enam,
        ball.enabl_new,
        ball.enabl_old,
    ]
}

/// The bytes of the registers that move, delay and lock the objects, and of the counters.
fn motion_bytes(tia: &TiaState) -> [u8; 15]
    ensures { result ≡ bytes_of motion_numbers tia.now ++ bytes_of counter_numbers tia.now }
{
    [
        tia.player0.hmp,
        tia.player1.hmp,
        tia.missile0.hmm,
        tia.missile1.hmm,
        tia.ball.hmbl,
        tia.player0.vdelp,
        tia.player1.vdelp,
        tia.ball.vdelbl,
        tia.missile0.resmp,
        tia.missile1.resmp,
        tia.player0.counter,
        tia.player1.counter,
        tia.missile0.counter,
        tia.missile1.counter,
        tia.ball.counter,
    ]
}

/// The bytes of the copies on their way, and of the playfield.
fn copy_bytes(tia: &TiaState) -> [u8; 13]
    requires { IsTrue (is_tia tia.now) }
    ensures { result ≡ bytes_of player_numbers tia.now ++ bytes_of place_numbers tia.now }
{
    [
        player_copy_number(tia.player0.copy) as u8,
        player_copy_number(tia.player1.copy) as u8,
        bit_number(tia.player0.copy),
        bit_number(tia.player1.copy),
        tia.player0.width / 2,
        tia.player1.width / 2,
        tia.player0.change,
        tia.player1.change,
        missile_copy_number(tia.missile0.copy) as u8,
        missile_copy_number(tia.missile1.copy) as u8,
        ball_copy_number(tia.ball.place) as u8,
        u8::from(tia.mirrored),
        u8::from(tia.playfield),
    ]
}

/// The bytes of collisions, motion, latches and beam, and of own sizes and what was seen.
fn beam_bytes(tia: &TiaState) -> [u8; 12]
    requires { IsTrue (is_tia tia.now) }
    ensures { result ≡ bytes_of beam_numbers tia.now ++ bytes_of size_numbers tia.now }
{
    let collisions = tia.collisions.to_be_bytes();
    [
        collisions[0],
        collisions[1],
        moves_number(tia) as u8,
        tia.pulses,
        tia.latches,
        tia.clock / 3,
        u8::from(tia.longer),
        own_size_number(tia.missile0.copy),
        own_size_number(tia.missile1.copy),
        size_number(tia.ball.own_size),
        tia.ball.phase,
        seen_number(tia) as u8,
    ]
}

/// The bytes that spell a TIA.
pub fn tia_bytes(tia: &TiaState) -> [u8; TIA_LENGTH]
    requires { IsTrue (is_tia tia.now) }
    ensures { result ≡ bytes_of tia_numbers tia.now }
{
    let mut out = [0; TIA_LENGTH];
    out[..22].copy_from_slice(&drawing_bytes(tia));
    out[22..37].copy_from_slice(&motion_bytes(tia));
    out[37..50].copy_from_slice(&copy_bytes(tia));
    out[50..].copy_from_slice(&beam_bytes(tia));
    out
}
