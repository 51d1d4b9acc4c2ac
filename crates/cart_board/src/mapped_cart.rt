//! A cartridge in a console.
ghost use Rattle.std.specs.Prelude.{◌≡◌, ◌↔◌, ◌<◌, length, replicate, IsTrue, IsOk, IfOk, IfSome, OnErr, slice_set};
ghost use Rattle.cart_board.specs.Board.{has_length};
ghost use Rattle.cart_board.specs.Boards.{IsBoard};
ghost use Rattle.cart_board.specs.CartState.{CartState, are_banks, fits, is_bank, cart_at_power_on, cart_target};
ghost use Rattle.cart_board.specs.CartState.{cart_read, after_select, after_write, after_byte};
ghost use Rattle.cart_board.specs.Plain.{SelectsNothing, ShowsRom, ShowsRomPair};
ghost use Rattle.cart_board.specs.Private.Kept.{IsPlainAt};

use crate::bank::BankByte;
use crate::cart::Cart;
use crate::window::{Kind, Target};
use std::alloc::{AllocError, Global};
use std::marker::Model;

/// A RAM of zeros. AllocError comes only if its allocation was refused; no bytes need none.
fn blank_ram(alloc: Global, length: u16) -> Result<Vec<u8>, AllocError>
    ensures value { IfOk result (λ ram. ram.items ≡ replicate length 0) }
    ensures memory { OnErr result (0 < length) }
{
    if length == 0 {
        Ok(Vec::new(alloc))
    } else {
        vec![in alloc; 0; length as usize]
    }
}

/// A bank byte is above the last bank, or the RAM isn't as long as the board's.
#[derive(Clone, Copy, Debug, PartialEq, Eq)]
pub struct BadCartState;

/// A cartridge, its three bank bytes and its RAM.
#[derive(Drop)]
pub struct MappedCart<'a> {
    cart: &'a Cart,
    banks: [u8; 3],
    ram: Vec<u8>,
    /// Where the ROM begins that addresses in no window lead to.
    rest: usize,
    /// Addresses below this one, of 13 lines, select nothing and are in no window.
    plain_to: u16,
    /// So many of those, from the first of the cartridge on, have another behind them.
    pairs: u16,
}

impl<'a> Model for MappedCart<'a> {
    ghost use Rattle.cart_board.specs.CartState.{CartState};
    ghost use Rattle.cart_board.specs.Private.Kept.{IsKept};

    ghost Value = { CartState };

    ghost view = { λ c. record { cartridge = c.cart.now; banks = c.banks; ram = c.ram.items } };

    ghost invariant = { λ c. IsKept c.cart.now c.banks c.ram.items c.rest c.plain_to c.pairs };
}

impl<'a> MappedCart<'a> {
    /// Whether a bank byte is the number of a bank of this cartridge.
    fn is_bank(cart: &Cart, banks: &[u8; 3], byte: BankByte) -> bool
        ensures { result ≡ is_bank cart.now.row (length cart.now.bytes) banks.now byte }
    {
        banks[byte.index()] <= cart.board().last_bank(cart.bytes().len(), byte)
    }

    /// A cartridge in which these are selected. Takes no memory.
    fn with(cart: &'a Cart, banks: [u8; 3], ram: Vec<u8>) -> MappedCart<'a>
        requires { IsTrue (fits cart.now banks ram.items) }
        ensures { result ≡ record { cartridge = cart.now; banks = banks; ram = ram.items } }
    {
        let board = cart.board();
        let rest = board.rest.start(cart.bytes().len(), &banks);
        let plain_to = board.plain_to();
        MappedCart {
            cart,
            banks,
            ram,
            rest,
            plain_to,
            pairs: plain_to.saturating_sub(4097),
        }
    }

    /// Whether a cartridge can have these bank bytes and this RAM.
    pub fn fits(cart: &Cart, banks: &[u8; 3], ram: &[u8]) -> bool
        ensures { result ≡ fits cart.now banks.now ram.now }
    {
        MappedCart::is_bank(cart, banks, BankByte::First)
            && MappedCart::is_bank(cart, banks, BankByte::Second)
            && MappedCart::is_bank(cart, banks, BankByte::Third)
            && ram.len() == cart.board().ram as usize
    }

    /// A cartridge with these bank bytes and this RAM. Takes no memory.
    pub fn new(cart: &'a Cart, banks: [u8; 3], ram: Vec<u8>) -> Result<MappedCart<'a>, BadCartState>
        ensures lawful { IsOk result ↔ IsTrue (fits cart.now banks ram.items) }
        ensures value { IfOk result (λ c. c ≡ record { cartridge = cart.now; banks = banks; ram = ram.items }) }
    {
        if MappedCart::fits(cart, &banks, &ram) {
            Ok(MappedCart::with(cart, banks, ram))
        } else {
            Err(BadCartState)
        }
    }

    /// A cartridge as a console is switched on.
    ///
    /// AllocError comes only if the allocation of its RAM was refused. A board without RAM takes no
    /// memory.
    pub fn power_on(alloc: Global, cart: &'a Cart) -> Result<MappedCart<'a>, AllocError>
        ensures value { IfOk result (λ c. c ≡ cart_at_power_on cart.now) }
        ensures memory { OnErr result (0 < cart.now.row.ram) }
    {
        let board = cart.board();
        let ram = blank_ram(alloc, board.ram)?;
        Ok(MappedCart::with(cart, board.banks_at_power_on(), ram))
    }

    /// The three bank bytes. Those that the board hasn't are 0.
    pub fn banks(&self) -> [u8; 3]
        ensures value { result ≡ self.now.banks }
        ensures lawful { IsTrue (fits self.now.cartridge self.now.banks self.now.ram) }
    {
        self.banks
    }

    /// The RAM.
    pub fn ram(&self) -> &[u8]
        ensures { result.now ≡ self.now.ram }
    {
        &self.ram
    }

    /// The bank bytes and the RAM that it leaves.
    pub fn into_parts(self) -> ([u8; 3], Vec<u8>)
        ensures banks { result.0 ≡ self.entry.banks }
        ensures ram { result.1.items ≡ self.entry.ram }
        ensures lawful { IsTrue (fits self.entry.cartridge self.entry.banks self.entry.ram) }
    {
        let MappedCart {
            cart: _,
            banks,
            ram,
            rest: _,
            plain_to: _,
            pairs: _,
        } = self;
        (banks, ram)
    }

    /// Selects what an access to an address, of the cartridge or not, selects before its byte is
    /// taken. A write has the byte.
    pub fn select(&mut self, address: u16, written: Option<u8>)
        ensures { self.new ≡ after_select self.old address written }
    {
        let board = self.cart.board();
        let bytes = self.cart.bytes().len();
        board.select(bytes, &mut self.banks, address, written);
        self.rest = board.rest.start(bytes, &self.banks);
    }

    /// Selects what the byte of an access selects, once it is on the bus.
    pub fn select_by_byte(&mut self, address: u16, byte: u8)
        ensures { self.new ≡ after_byte self.old address byte }
    {
        let board = self.cart.board();
        board.select_by_byte(&mut self.banks, address, byte);
        self.rest = board.rest.start(self.cart.bytes().len(), &self.banks);
    }

    /// Where an address of the cartridge leads.
    fn found(&self, address: u16) -> Target
        ensures value { result ≡ cart_target self.now address }
        ensures board { IsBoard self.now.cartridge.row }
        ensures size { IsTrue (has_length self.now.cartridge.row (length self.now.cartridge.bytes)) }
        ensures banks { IsTrue (are_banks self.now.cartridge.row (length self.now.cartridge.bytes) self.now.banks) }
        ensures ram { length self.now.ram ≡ self.now.cartridge.row.ram }
    {
        let board = self.cart.board();
        match board.window_at(&self.banks, address) {
            Some(window) => Target {
                kind: window.kind,
                offset: window
                    .slice
                    .offset(self.cart.bytes().len(), &self.banks, address),
            },
            None => Target {
                kind: Kind::Rom,
                offset: self.rest + (address & board.rest.mask) as usize,
            },
        }
    }

    /// Where an address of the cartridge leads.
    pub fn target(&self, address: u16) -> Target
        ensures value { result ≡ cart_target self.now address }
        ensures rom { result.kind ≡ Kind.Rom → result.offset < length self.now.cartridge.bytes }
        ensures read_port { result.kind ≡ Kind.ReadPort → result.offset < length self.now.ram }
        ensures write_port { result.kind ≡ Kind.WritePort → result.offset < length self.now.ram }
    {
        self.found(address)
    }

    /// Whether an access to an address, of the cartridge or not, surely selects nothing.
    #[inline(always)]
    pub fn is_plain(&self, address: u16) -> bool
        ensures { IsTrue result → SelectsNothing self.now address }
    {
        address % 8192 < self.plain_to
    }

    /// The byte of ROM that a read from a plain address of the cartridge gives.
    #[inline(always)]
    fn plain_rom(&self, address: u16) -> u8
        requires { IsPlainAt self.now.cartridge.row address }
        ensures { ShowsRom self.now address result }
    {
        let mask = self.cart.board().rest.mask;
        self.cart.bytes()[self.rest + (address & mask) as usize]
    }

    /// The byte of ROM that a read from an address of the cartridge gives, if it surely selects
    /// nothing. None says nothing.
    #[inline(always)]
    pub fn rom_at(&self, address: u16) -> Option<u8>
        ensures { IfSome result (λ byte. ShowsRom self.now address byte) }
    {
        if address % 8192 < self.plain_to {
            Some(self.plain_rom(address))
        } else {
            None
        }
    }

    /// The same of an address and of the one after it, if both are of the cartridge.
    #[inline(always)]
    pub fn rom_pair_at(&self, address: u16) -> Option<(u8, u8)>
        ensures { IfSome result (λ bytes. ShowsRomPair self.now address bytes.0 bytes.1) }
    {
        if address.wrapping_add(4096) % 8192 < self.pairs {
            Some((self.plain_rom(address), self.plain_rom(address + 1)))
        } else {
            None
        }
    }

    /// What a read from an address of the cartridge would give, while this is the last byte on the
    /// bus.
    pub fn peek(&self, address: u16, bus: u8) -> u8
        ensures { result ≡ cart_read self.now address bus }
    {
        let Target { kind, offset } = self.target(address);
        match kind {
            Kind::Rom => self.cart.bytes()[offset],
            Kind::ReadPort => self.ram[offset],
            Kind::WritePort => bus,
        }
    }

    /// Reads from an address of the cartridge, while this is the last byte on the bus. A read where
    /// RAM is for writing puts that byte there, and gives it.
    pub fn read(&mut self, address: u16, bus: u8) -> u8
        ensures value { result ≡ cart_read self.old address bus }
        ensures after { self.new ≡ after_write self.old address bus }
    {
        let target = self.target(address);
        match target.kind {
            Kind::Rom => self.cart.bytes()[target.offset],
            Kind::ReadPort => self.ram[target.offset],
            Kind::WritePort => {
                self.store(target.offset, bus);
                bus
            }
        }
    }

    /// Writes to an address of the cartridge. A write to ROM, or where RAM is for reading, does
    /// nothing.
    pub fn write(&mut self, address: u16, byte: u8)
        ensures { self.new ≡ after_write self.old address byte }
    {
        let target = self.target(address);
        if target.kind == Kind::WritePort {
            self.store(target.offset, byte);
        }
    }

    /// Sets a byte of the RAM.
    fn store(&mut self, offset: usize, byte: u8)
        requires { offset < length self.old.ram }
        ensures { self.new ≡ record self.old { ram = slice_set self.old.ram offset byte } }
    {
        self.ram[offset] = byte;
    }
}
