//! A console whose case is under way.

use crate::step::Step;
use cart_board::Cart;
use chip_machine::{State, TimedFrame, frame, read_state, write_state};
use refused::Refused;
use std::alloc::{AllocError, Global};
use vcs_machine::Input;

/// A console between two frames, and the last frame that ended.
#[derive(Drop)]
pub(crate) struct Trial<'a> {
    alloc: Global,
    cart: &'a Cart,
    state: State,
    last: Option<TimedFrame>,
}

impl<'a> Trial<'a> {
    /// A console that was just switched on.
    pub(crate) fn power_on(alloc: Global, cart: &'a Cart) -> Result<Trial<'a>, AllocError> {
        Ok(Trial {
            alloc,
            cart,
            state: State::power_on(alloc, cart)?,
            last: None,
        })
    }

    /// Takes a step. Whether all is as the step says.
    pub(crate) fn take(&mut self, step: Step) -> Result<bool, AllocError> {
        match step {
            Step::Put(offset, value) => self.put(offset, value),
            Step::Lawful(offset, value, is_lawful) => {
                Ok(self.with(offset, value)?.is_some() == is_lawful)
            }
            Step::Frame(input) => self.play(input),
            Step::Fault(text) => self.faults(text),
            Step::Is(number, value) => Ok(number.of(&self.state) == Some(value)),
            Step::Record(length) => Ok(self.record()?.len() == length),
            step => Ok(self.shows(step)),
        }
    }

    /// Whether the last frame is as a step says.
    fn shows(&self, step: Step) -> bool {
        let Some(last) = &self.last else {
            return false;
        };
        match step {
            Step::Cycles(cycles) => last.cycles == cycles,
            Step::Rows(rows) => last.rows == rows,
            Step::Pixel(row, x, colour) => match &last.picture {
                Some(picture) => row < picture.rows() && x < 160 && picture.at(row, x) == colour,
                None => false,
            },
            _ => false,
        }
    }

    /// The record of the state.
    fn record(&self) -> Result<Vec<u8>, AllocError> {
        let mut bytes = Vec::new(self.alloc);
        write_state(self.cart, &self.state, &mut bytes)?;
        Ok(bytes)
    }

    /// The state of this one's record with a byte set.
    fn with(&self, offset: usize, value: u8) -> Result<Option<State>, AllocError> {
        let mut bytes = self.record()?;
        let Some(place) = bytes.get_mut(offset) else {
            return Ok(None);
        };
        *place = value;
        read_state(self.alloc, self.cart, &bytes)
    }

    /// Sets a byte of the state's record. Whether it is a state's then.
    fn put(&mut self, offset: usize, value: u8) -> Result<bool, AllocError> {
        match self.with(offset, value)? {
            Some(state) => {
                self.state = state;
                Ok(true)
            }
            None => Ok(false),
        }
    }

    /// Plays a frame. Whether it ends.
    fn play(&mut self, input: [u8; 3]) -> Result<bool, AllocError> {
        let [swcha, swchb, buttons] = input;
        let Some(input) = Input::new(swcha, swchb, buttons) else {
            return Ok(false);
        };
        if !self.state.is_of(self.cart) {
            return Ok(false);
        }
        match frame(self.alloc, self.cart, &mut self.state, input, true) {
            Ok(timed) => {
                self.last = Some(timed);
                Ok(true)
            }
            Err(Refused::Of(_)) => Ok(false),
            Err(Refused::NoMemory) => Err(AllocError),
        }
    }

    /// Whether a frame ends with a fault of this text.
    fn faults(&mut self, text: &str) -> Result<bool, AllocError> {
        let Some(input) = Input::new(0xFF, 0x3F, 0) else {
            return Ok(false);
        };
        if !self.state.is_of(self.cart) {
            return Ok(false);
        }
        match frame(self.alloc, self.cart, &mut self.state, input, false) {
            Ok(_) => Ok(false),
            Err(Refused::Of(kind)) => Ok(format!(in self.alloc; "{kind}")?.as_str() == text),
            Err(Refused::NoMemory) => Err(AllocError),
        }
    }
}
