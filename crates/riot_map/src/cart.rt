//! Cartridges.
ghost use Rattle.std.specs.Prelude.{◌≡◌, ◌<◌, ◌↔◌, length, nat_eq, IsTrue, IsOk, IfOk};
ghost use Rattle.std.specs.Cmp.Rules.{comparing};
ghost use Rattle.std.specs.Cmp.Lexicographic.{pointwise};
ghost use Rattle.std.proofs.Common.{rules};
ghost use Rattle.riot_map.specs.Cart.{is_cart_length, has_banks, cart_byte, bank_after};
ghost use Rattle.riot_map.specs.Cart.{bank_at_power_on};

use std::marker::Model;

/// The bytes of a bank.
pub const BANK_LENGTH: usize = 4096;

/// The bytes of a cartridge of two banks.
const BANKED_LENGTH: usize = 2 * BANK_LENGTH;

/// The bytes of a cartridge are neither 2048 nor 4096 nor 8192.
#[derive(Clone, Copy, Debug, PartialEq, Eq)]
pub struct BadCartSize;

/// A cartridge of 2048 or 4096 bytes, or of 8192 bytes in two banks, which contracts see as the
/// list of its bytes.
#[derive(Debug, Drop)]
pub struct Cart {
    bytes: Vec<u8>,
}

impl Model for Cart {
    ghost use Rattle.std.specs.Prelude.{List, ℕ, length, IsTrue};
    ghost use Rattle.riot_map.specs.Cart.{is_cart_length};

    ghost Value = { List ℕ };

    ghost view = { λ c. c.bytes.items };

    ghost invariant = { λ c. IsTrue (is_cart_length (length c.bytes.items)) };
}

impl Cart {
    /// Whether cartridges of this many bytes are taken.
    pub fn is_length(bytes: usize) -> bool
        ensures { result ≡ is_cart_length bytes }
    {
        bytes == BANK_LENGTH / 2 || bytes == BANK_LENGTH || Cart::is_banked(bytes)
    }

    /// Whether cartridges of this many bytes have two banks.
    pub fn is_banked(bytes: usize) -> bool
        ensures { result ≡ has_banks bytes }
    {
        bytes == BANKED_LENGTH
    }

    /// The cartridge of these bytes. Takes no memory.
    pub fn new(bytes: Vec<u8>) -> Result<Cart, BadCartSize>
        ensures size { IsOk result ↔ IsTrue (is_cart_length (length bytes.items)) }
        ensures bytes { IfOk result (λ cart. cart ≡ bytes.items) }
    {
        if Cart::is_length(bytes.len()) {
            Ok(Cart { bytes })
        } else {
            Err(BadCartSize)
        }
    }

    /// The number of its bytes.
    pub fn len(&self) -> u16
        ensures value { result ≡ length self.now }
        ensures lawful { IsTrue (is_cart_length result) }
    {
        self.bytes.len() as u16
    }

    /// Its bytes, lowest address first.
    pub fn bytes(&self) -> &[u8]
        ensures value { result.now ≡ self.now }
        ensures lawful { IsTrue (is_cart_length (length self.now)) }
    {
        &self.bytes
    }

    /// Whether it has two banks.
    pub fn has_banks(&self) -> bool
        ensures value { result ≡ has_banks (length self.now) }
        ensures lawful { IsTrue (is_cart_length (length self.now)) }
    {
        Cart::is_banked(self.bytes.len())
    }

    /// The byte that a read of an address gives while this bank is selected. A cartridge without
    /// banks stands there again and again, whatever the bank.
    #[tactic(auto, using(crate::proofs::CartLemmas::mask_is_mirror))]
    pub fn at(&self, bank: u8, address: u16) -> u8
        requires { bank < 2 }
        ensures { result ≡ cart_byte self.now bank address }
    {
        let place = BANK_LENGTH * bank as usize + address as usize % BANK_LENGTH;
        // The length is a power of two, so this is the remainder by it.
        self.bytes[place & (self.bytes.len() - 1)]
    }

    /// The bank after a data access to this address. A cartridge without banks leaves it.
    pub fn select(&self, bank: u8, address: u16) -> u8
        ensures value { result ≡ bank_after self.now bank address }
        ensures range { bank < 2 → result < 2 }
    {
        if !self.has_banks() {
            return bank;
        }
        match address % 8192 {
            0x1FF8 => 0,
            0x1FF9 => 1,
            _ => bank,
        }
    }

    /// The bank that is selected when a console is switched on.
    pub fn bank_at_power_on(&self) -> u8
        ensures value { result ≡ bank_at_power_on self.now }
        ensures range { result < 2 }
    {
        u8::from(self.has_banks())
    }
}

impl PartialEq for Cart {
    ghost eq = { pointwise nat_eq };

    ghost laws = { Prim.search (comparing, rules) };

    fn eq(&self, other: &Cart) -> bool {
        self.bytes == other.bytes
    }
}

impl Eq for Cart {
    ghost laws = { Prim.search (comparing, rules) };
}
