//! States between frames.
ghost use Rattle.std.specs.Prelude.{◌≡◌, ◌↔◌, ◌<◌, length, IsTrue, IfOk, OnErr};

use crate::cart::Cart;
use mos_cpu::Cpu;
use std::alloc::{AllocError, Global};

/// The state of a console between two frames, by the rules by which it is played.
#[derive(Debug, Drop)]
pub enum State {
    Guide(vcs_machine::State),
    Chip(chip_machine::State),
}

impl State {
    ghost use Rattle.movie_machine.specs.Carts.{ram_length};
    ghost use Rattle.movie_machine.specs.States.{is_of, line_cycle_of, memory_of, ram_of, registers_of, state_at_power_on};

    /// The state of a console that was just switched on, with this cartridge.
    ///
    /// AllocError comes only if memory for the RAM of the cartridge was refused.
    pub fn power_on(alloc: Global, cart: &Cart) -> Result<State, AllocError>
        ensures value { IfOk result (λ s. s ≡ state_at_power_on cart.now) }
        ensures cartridge { IfOk result (λ s. IsTrue (is_of cart.now s)) }
        ensures memory { OnErr result (0 < ram_length cart.now) }
    {
        match cart {
            Cart::Guide(cart) => Ok(State::Guide(vcs_machine::State::power_on(cart))),
            Cart::Chip(cart) => Ok(State::Chip(chip_machine::State::power_on(alloc, cart)?)),
        }
    }

    /// A state with the same numbers and the same RAM of its cartridge.
    ///
    /// AllocError comes only if memory for that RAM was refused.
    pub fn copy(&self, alloc: Global) -> Result<State, AllocError>
        ensures value { IfOk result (λ s. s ≡ self.now) }
        ensures memory { OnErr result (0 < length (ram_of self.now)) }
    {
        match self {
            State::Guide(state) => Ok(State::Guide(state.copy())),
            State::Chip(state) => Ok(State::Chip(state.copy(alloc)?)),
        }
    }

    /// Whether it is one of this cartridge.
    pub fn is_of(&self, cart: &Cart) -> bool
        ensures { result ≡ is_of cart.now self.now }
    {
        match (cart, self) {
            (Cart::Guide(cart), State::Guide(state)) => cart.has_banks()
                || state.fields().bank == 0,
            (Cart::Chip(cart), State::Chip(state)) => state.is_of(cart),
            _ => false,
        }
    }

    /// Whether both are by the same rules, with the same numbers and the same RAM.
    pub fn equals(&self, other: &State) -> bool
        ensures { IsTrue result ↔ (self.now ≡ other.now) }
    {
        match (self, other) {
            (State::Guide(state), State::Guide(other)) => state.equals(other),
            (State::Chip(state), State::Chip(other)) => state.equals(other),
            _ => false,
        }
    }

    /// Its processor.
    pub fn cpu(&self) -> Cpu
        ensures { result ≡ registers_of self.now }
    {
        match self {
            State::Guide(state) => state.fields().cpu,
            State::Chip(state) => state.fields().cpu,
        }
    }

    /// The memory of its RIOT.
    pub fn memory(&self) -> [u8; 128]
        ensures { result ≡ memory_of self.now }
    {
        match self {
            State::Guide(state) => state.fields().riot.ram,
            State::Chip(state) => state.fields().riot.ram,
        }
    }

    /// The beam's place in its scanline, in cycles, 0 to 75.
    pub fn line_cycle(&self) -> u8
        ensures { result ≡ line_cycle_of self.now }
    {
        match self {
            State::Guide(state) => state.line_cycle(),
            State::Chip(state) => state.line_cycle(),
        }
    }
}
