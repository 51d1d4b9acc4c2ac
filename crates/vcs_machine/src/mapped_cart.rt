//! A cartridge in a console.
ghost use Rattle.std.specs.Prelude.{◌≡◌, ◌<◌, ℕ, ◌+◌, ◌-◌, ◌%◌, length, slice_index, bit_and};
ghost use Rattle.std.specs.Prelude.{IfSome};
ghost use Rattle.riot_map.specs.Cart.{cart_byte, bank_after};
ghost use Rattle.vcs_machine.specs.Private.Polls.{IsPoll};
ghost use Rattle.vcs_machine.specs.Private.NextBytes.{IsFollowed};

use crate::polls::{Branch, Poll};
use riot_map::{BANK_LENGTH, Cart, Place, place};

/// The opcode of LDA with an address of two bytes.
const LDA_ABSOLUTE: u8 = 0xAD;

/// The offset of a branch to five bytes before the next instruction.
const BACK_BY_FIVE: u8 = 0xFB;

/// A cartridge and its selected bank, with the bytes that this bank shows at hand. Their number is
/// a power of two, so that an address finds its byte by a mask, one less.
#[derive(Clone, Copy)]
pub struct MappedCart<'a> {
    pub cart: &'a Cart,
    pub bank: u8,
    pub bytes: &'a [u8],
    pub mask: usize,
    ghost small: { bank < 2 },
    ghost within: { mask < length bytes.now },
    ghost next: { (address : ℕ) → bit_and address mask < mask → IsFollowed mask address },
    ghost shown: { (address : ℕ) → slice_index bytes.now (bit_and address mask) ≡ cart_byte cart.now bank address },
}

impl<'a> MappedCart<'a> {
    /// A cartridge with a bank selected.
    pub fn new(cart: &'a Cart, bank: u8) -> Self
        requires { bank < 2 }
        ensures cart { result.cart.now ≡ cart.now }
        ensures bank { result.bank ≡ bank }
    {
        let all = cart.bytes();
        if !cart.has_banks() {
            return MappedCart {
                cart,
                bank,
                bytes: all,
                mask: all.len() - 1,
            };
        }
        let start = BANK_LENGTH * bank as usize;
        let bytes = &all[start..start + BANK_LENGTH];
        MappedCart {
            cart,
            bank,
            bytes,
            mask: BANK_LENGTH - 1,
        }
    }

    /// The byte at an address.
    #[tactic(auto, using(std::proofs::lemmas::Nat::and_le_r))]
    #[inline(always)]
    pub fn at(&self, address: u16) -> u8
        ensures { result ≡ cart_byte self.now.cart.now self.now.bank address }
    {
        self.bytes[address as usize & self.mask]
    }

    /// The byte after the one at an address, if it is not at the other end of what is mapped.
    #[tactic(auto, using(std::proofs::lemmas::Nat::and_le_r))]
    #[inline(always)]
    pub fn after(&self, address: u16) -> Option<u8>
        ensures byte { IfSome result (λ byte. byte ≡ cart_byte self.now.cart.now self.now.bank (address + 1)) }
        ensures inside { IfSome result (λ byte. address % 4096 < 4095) }
    {
        let index = address as usize & self.mask;
        if index == self.mask {
            None
        } else {
            Some(self.bytes[index + 1])
        }
    }

    /// The loop that waits for the timer whose branch stands at an address, if one does there. Its
    /// bytes lie in a row, none of them at an end of the bank.
    pub fn poll_at(&self, pc: u16) -> Option<Poll>
        ensures { IfSome result (λ poll. IsPoll self.now.cart.now self.now.bank pc poll) }
    {
        let in_bank = pc % 4096;
        if pc / 4096 % 2 != 1 || in_bank < 3 || in_bank > 4093 {
            return None;
        }
        if self.at(pc - 3) != LDA_ABSOLUTE || self.at(pc + 1) != BACK_BY_FIVE {
            return None;
        }
        let branch = Branch::of_opcode(self.at(pc))?;
        let address = u16::from_le_bytes([self.at(pc - 2), self.at(pc - 1)]);
        let Place::Io(register) = place(address) else {
            return None;
        };
        if register / 4 % 2 != 1 {
            return None;
        }
        let crosses = (pc + 2) / 256 != (pc - 3) / 256;
        Some(Poll {
            branch,
            register,
            cycles: if crosses { 8 } else { 7 },
        })
    }

    /// Selects the bank that an access to an address selects.
    #[inline(always)]
    pub fn select(&mut self, address: u16)
        ensures cart { self.new.cart.now ≡ self.old.cart.now }
        ensures bank { self.new.bank ≡ bank_after self.old.cart.now self.old.bank address }
    {
        let bank = self.cart.select(self.bank, address);
        if bank != self.bank {
            *self = MappedCart::new(self.cart, bank);
        }
    }
}
