//! The numbers of a state, as the cases name them.

use chip_machine::State;

/// A number of a state, or of the frame that left it.
#[derive(Clone, Copy)]
pub(crate) enum Number {
    A,
    X,
    Y,
    S,
    P,
    Pc,
    TimerValue,
    TimerPart,
    TimerFlag,
    Vsync,
    Vblank,
    LineCycle,
    /// A bank byte, by its place.
    Bank(usize),
    /// A byte of the RIOT's memory, by its address.
    Memory(usize),
    /// A byte of the cartridge's memory, by its offset.
    CartridgeMemory(usize),
}

impl Number {
    /// The number of a name.
    pub(crate) fn named(name: &str) -> Option<Number> {
        match name {
            "A" => Some(Number::A),
            "X" => Some(Number::X),
            "Y" => Some(Number::Y),
            "S" => Some(Number::S),
            "P" => Some(Number::P),
            "PC" => Some(Number::Pc),
            "timer" => Some(Number::TimerValue),
            "part" => Some(Number::TimerPart),
            "flag" => Some(Number::TimerFlag),
            "VSYNC" => Some(Number::Vsync),
            "VBLANK" => Some(Number::Vblank),
            "cycle" => Some(Number::LineCycle),
            _ => Number::placed(name),
        }
    }

    /// The number of a name with a place in hexadecimal, as `memory:90`.
    fn placed(name: &str) -> Option<Number> {
        let (name, place) = name.split_once(':')?;
        let place = usize::from_str_radix(place, 16).ok()?;
        match name {
            "bank" => Some(Number::Bank(place)),
            "memory" => Some(Number::Memory(place)),
            "ram" => Some(Number::CartridgeMemory(place)),
            _ => None,
        }
    }

    /// What it is in a state; none where the state has no such byte.
    pub(crate) fn of(self, state: &State) -> Option<u16> {
        let fields = state.fields();
        let byte = match self {
            Number::A => fields.cpu.a,
            Number::X => fields.cpu.x,
            Number::Y => fields.cpu.y,
            Number::S => fields.cpu.s,
            Number::P => fields.cpu.p,
            Number::Pc => return Some(fields.cpu.pc),
            Number::TimerValue => fields.riot.timer.value,
            Number::TimerPart => return Some(fields.riot.timer.part),
            Number::TimerFlag => fields.riot.timer.flag,
            Number::Vsync => fields.tia.vsync,
            Number::Vblank => fields.tia.vblank,
            Number::LineCycle => state.line_cycle(),
            Number::Bank(place) => *fields.banks.get(place)?,
            Number::Memory(address) => *fields.riot.ram.get(address.checked_sub(0x80)?)?,
            Number::CartridgeMemory(offset) => *state.ram().get(offset)?,
        };
        Some(byte as u16)
    }
}
