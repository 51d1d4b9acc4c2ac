//! Calls of a console by the chip's rules. What they have to give is worked out by hand from these.

use crate::call_failure::{CallFailure, OUT_OF_MEMORY, right};
use crate::movies::put;
use cart_board::{Cart, KnownBoard, MappedCart};
use chip_machine::{State, Stepping, frame, read_state, write_state};
use refused::Refused;
use std::alloc::Global;
use vcs_machine::{FaultKind, Input};

/// LDA #02, STA F000, STA VSYNC, LDA #00, STA VSYNC, JMP F100: a frame of 14 cycles, then one of 17.
/// F000 leads to the first byte of the cartridge's RAM.
const PROGRAM: [u8; 14] = [
    0xA9, 2, 0x8D, 0, 0xF0, 0x85, 0, 0xA9, 0, 0x85, 0, 0x4C, 0, 0xF1,
];

/// Tries a call of a console; none has another name.
pub(crate) fn outcome(alloc: Global, call: &str) -> Option<Result<(), CallFailure>> {
    Some(match call {
        "board_power_on" => is_plugged_in(alloc),
        "machine_power_on" => is_switched_on(alloc),
        "machine_copy" => is_copied(alloc),
        "machine_read_state" => is_read(alloc),
        "machine_write_state" => is_written(alloc),
        "machine_frame" => is_played(alloc),
        "machine_frame_with_fault" => is_faulty(alloc),
        "machine_stepping" => is_stepped(alloc),
        _ => return None,
    })
}

/// The cartridge of these bytes on a board.
fn cartridge(alloc: Global, board: &str, bytes: &[u8]) -> Result<Cart, CallFailure> {
    let known = KnownBoard::of_name(board).ok_or(CallFailure::Wrong)?;
    match Cart::new(known.board, bytes.to_vec(alloc)?) {
        Ok(cart) => Ok(cart),
        Err(_) => Err(CallFailure::Wrong),
    }
}

/// A cartridge with 128 bytes of RAM, whose second bank, that of power-on, has the program at F100.
fn program(alloc: Global) -> Result<Cart, CallFailure> {
    let mut bytes = [0; 8192];
    put(&mut bytes, 0x1100, &PROGRAM);
    put(&mut bytes, 0x1FFC, &[0x00, 0xF1]);
    cartridge(alloc, "F8SC", &bytes)
}

/// A cartridge without RAM, which has 02, no opcode, at F000.
fn without_opcode(alloc: Global) -> Result<Cart, CallFailure> {
    let mut bytes = [0; 4096];
    put(&mut bytes, 0, &[0x02]);
    put(&mut bytes, 0x0FFC, &[0x00, 0xF0]);
    cartridge(alloc, "4K", &bytes)
}

/// The record of a console that was just switched on with the program's cartridge.
fn record() -> [u8; 335] {
    let mut bytes = [0; 335];
    // S, P and PC; the timer's part and the code of its interval; the bank, before the RAM.
    put(&mut bytes, 3, &[0xFF, 0x04, 0xF1, 0x00]);
    put(&mut bytes, 141, &[1, 3]);
    put(&mut bytes, 206, &[1]);
    bytes
}

/// What the program changes in a state.
struct Moment {
    p: u8,
    pc: u16,
    timer: u8,
    part: u16,
    line_cycle: u8,
    /// The first byte of the cartridge's RAM.
    stored: u8,
}

const SWITCHED_ON: Moment = Moment {
    p: 0x04,
    pc: 0xF100,
    timer: 0,
    part: 1,
    line_cycle: 0,
    stored: 0,
};

/// After the frame of 14 cycles. The timer passes zero in the first, so it falls by one in each.
const ONE_FRAME: Moment = Moment {
    p: 0x06,
    pc: 0xF10B,
    timer: 0xF2,
    part: 0x3F3,
    line_cycle: 14,
    stored: 2,
};

/// After the one of 17 cycles.
const TWO_FRAMES: Moment = Moment {
    timer: 0xE1,
    part: 0x3E2,
    line_cycle: 31,
    ..ONE_FRAME
};

impl Moment {
    /// Whether a state of the program's cartridge is that of this moment.
    fn is_of(&self, state: &State) -> bool {
        let fields = state.fields();
        let timer = fields.riot.timer;
        fields.cpu.p == self.p
            && fields.cpu.pc == self.pc
            && timer.value == self.timer
            && timer.part == self.part
            && state.line_cycle() == self.line_cycle
            && fields.banks == [1, 0, 0]
            && state.ram().len() == 128
            && state.ram().first() == Some(&self.stored)
    }
}

/// A cartridge with 256 bytes of RAM and three banks, of which the last is that of power-on.
fn is_plugged_in(alloc: Global) -> Result<(), CallFailure> {
    let cart = cartridge(alloc, "FA", &[0; 12288])?;
    let mapped = MappedCart::power_on(alloc, &cart)?;
    right(mapped.banks() == [2, 0, 0] && mapped.ram() == [0; 256].as_slice())
}

fn is_switched_on(alloc: Global) -> Result<(), CallFailure> {
    let cart = program(alloc)?;
    let state = State::power_on(alloc, &cart)?;
    right(SWITCHED_ON.is_of(&state))
}

/// The state of a record.
fn state_of(alloc: Global, cart: &Cart) -> Result<State, CallFailure> {
    match read_state(alloc, cart, &record())? {
        Some(state) => Ok(state),
        None => Err(CallFailure::Wrong),
    }
}

fn is_read(alloc: Global) -> Result<(), CallFailure> {
    let cart = program(alloc)?;
    let state = state_of(alloc, &cart)?;
    right(SWITCHED_ON.is_of(&state))
}

fn is_copied(alloc: Global) -> Result<(), CallFailure> {
    let cart = program(alloc)?;
    let state = state_of(alloc, &cart)?;
    let copy = state.copy(alloc)?;
    right(SWITCHED_ON.is_of(&copy))
}

fn is_written(alloc: Global) -> Result<(), CallFailure> {
    let cart = program(alloc)?;
    let state = State::power_on(alloc, &cart)?;
    let mut out = Vec::new(alloc);
    write_state(&cart, &state, &mut out)?;
    right(out.as_slice() == record().as_slice())
}

/// The second frame, with its picture. Where that is refused, the state is as the first one left it.
fn is_played(alloc: Global) -> Result<(), CallFailure> {
    let idle = Input::new(0xFF, 0x3F, 0).ok_or(CallFailure::Wrong)?;
    let cart = program(alloc)?;
    let mut state = State::power_on(alloc, &cart)?;
    if frame(alloc, &cart, &mut state, idle, false).is_err() || !ONE_FRAME.is_of(&state) {
        return Err(CallFailure::Wrong);
    }
    match frame(alloc, &cart, &mut state, idle, true) {
        Ok(timed) => right(
            TWO_FRAMES.is_of(&state)
                && timed.cycles == 17
                && timed.rows == 1
                && timed.picture.is_some(),
        ),
        Err(Refused::NoMemory) if ONE_FRAME.is_of(&state) => Err(OUT_OF_MEMORY),
        Err(_) => Err(CallFailure::Wrong),
    }
}

/// A frame that faults, with its picture: that is refused first.
fn is_faulty(alloc: Global) -> Result<(), CallFailure> {
    let idle = Input::new(0xFF, 0x3F, 0).ok_or(CallFailure::Wrong)?;
    let cart = without_opcode(alloc)?;
    let mut state = State::power_on(alloc, &cart)?;
    match frame(alloc, &cart, &mut state, idle, true) {
        Err(Refused::Of(kind)) => right(
            kind == FaultKind::BadOpcode {
                opcode: 0x02,
                at: 0xF000,
            },
        ),
        Err(Refused::NoMemory) => Err(OUT_OF_MEMORY),
        Ok(_) => Err(CallFailure::Wrong),
    }
}

/// The five instructions of the first frame, one by one.
fn is_stepped(alloc: Global) -> Result<(), CallFailure> {
    let idle = Input::new(0xFF, 0x3F, 0).ok_or(CallFailure::Wrong)?;
    let cart = program(alloc)?;
    let state = State::power_on(alloc, &cart)?;
    let mut stepping = Stepping::begin(alloc, &cart, &state, idle)?;
    for _instruction in 0..5 {
        if stepping.has_ended() || stepping.next().is_err() {
            return Err(CallFailure::Wrong);
        }
    }
    right(stepping.has_ended() && stepping.cycles() == 14 && stepping.rows() == 1)
}
