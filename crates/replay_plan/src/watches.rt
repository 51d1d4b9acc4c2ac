//! Which bytes of memory are shown after a frame.
ghost use Rattle.std.specs.Prelude.{◌≡◌, ◌≤◌, ◌<◌, ◌-◌, ◌↔◌, ◌++◌, [], ◌∷◌, length, IsOk, IsSome};
ghost use Rattle.std.specs.Prelude.{IfSome, OnErr, OnOk};
ghost use Rattle.replay_plan.specs.Limits.{first_address, most_watches};

use std::marker::Model;

/// The most addresses.
pub const MOST_WATCHES: usize = 16;

/// The first address of the memory.
const FIRST_ADDRESS: u8 = 0x80;

/// An address of the console's memory, 80 to FF.
#[derive(Clone, Copy, Debug, PartialEq, Eq)]
pub struct Address {
    number: u8,
    ghost in_memory: { first_address ≤ number },
}

/// Addresses whose bytes are shown, at most 16, in the order in which they were asked for. One may
/// be there more than once.
#[derive(Debug, Drop)]
pub struct Watches {
    addresses: [Address; MOST_WATCHES],
    count: u8,
}

impl Model for Watches {
    ghost use Rattle.std.specs.Prelude.{List, ◌≤◌, take};
    ghost use Rattle.replay_plan.specs.Limits.{most_watches};
    ghost use Rattle.replay_plan.specs.declared.watches.Address.{Address};

    ghost Value = { List Address };

    ghost view = { λ w. take w.count w.addresses };

    ghost invariant = { λ w. w.count ≤ most_watches };
}

/// There are 16 addresses.
#[derive(Clone, Copy, Debug, PartialEq, Eq)]
pub struct TooManyWatches;

/// What the line about a frame says beside its length and its checkpoint.
#[derive(Debug, Drop)]
pub struct Details {
    /// The addresses whose bytes are shown.
    pub watches: Watches,
    /// Whether all bytes of the memory are shown.
    pub memory: bool,
    /// Whether the digests of its state and its picture are shown.
    pub digests: bool,
}

impl Address {
    /// The address of this number, or None if it is below 80.
    pub fn new(number: u8) -> Option<Address>
        ensures range { IsSome result ↔ (first_address ≤ number) }
        ensures value { IfSome result (λ address. address.number ≡ number) }
    {
        if number < FIRST_ADDRESS {
            return None;
        }
        Some(Address { number })
    }

    /// Its number, 80 to FF.
    pub fn number(self) -> u8
        ensures { result ≡ self.number }
    {
        self.number
    }

    /// The place of its byte in the memory, 0 to 127.
    pub fn place(self) -> u8
        ensures value { result ≡ self.number - first_address }
        ensures range { result < 128 }
    {
        self.number - FIRST_ADDRESS
    }
}

impl Watches {
    /// No address.
    pub fn none() -> Watches
        ensures { result ≡ [] }
    {
        let first = Address {
            number: FIRST_ADDRESS,
        };
        Watches {
            addresses: [first; MOST_WATCHES],
            count: 0,
        }
    }

    /// Adds an address at the end, if there is room.
    pub fn add(&mut self, address: Address) -> Result<(), TooManyWatches>
        ensures range { IsOk result ↔ (length self.old < most_watches) }
        ensures ok { OnOk result (self.new ≡ self.old ++ address ∷ []) }
        ensures err { OnErr result (self.new ≡ self.old) }
    {
        let count = self.count as usize;
        if count == MOST_WATCHES {
            return Err(TooManyWatches);
        }
        self.addresses[count] = address;
        self.count += 1;
        Ok(())
    }

    /// The addresses, in order.
    pub fn addresses(&self) -> &[Address]
        ensures value { result.now ≡ self.now }
        ensures most { length result.now ≤ most_watches }
    {
        &self.addresses[..self.count as usize]
    }
}
