//! Loops that wait for the timer.
ghost use Rattle.std.specs.Prelude.{◌≡◌, ◌≤◌, ◌+◌, ◌-◌, ◌%◌, IfSome, IsTrue};
ghost use Rattle.cart_board.specs.Plain.{ShowsRom};
ghost use Rattle.mos_cpu.specs.Accesses.{is_taken};
ghost use Rattle.chip_machine.specs.Private.Polls.{IsPoll, after_reader, branch_opcode, goes_on, is_told};
ghost use Rattle.chip_machine.specs.Private.Polls.{least_of, operation_of, reader_opcode};

use cart_board::MappedCart;
use mos_cpu::{Cpu, bit, load};
use riot_map::{Place, place};

/// The offset of a branch back to the instruction of three bytes before it.
const BACK_BY_FIVE: u8 = 0xFB;

/// The cycles of a round: the branch, taken within its page, and the read.
pub const ROUND_CYCLES: u8 = 7;

/// The instruction that reads the timer, by an absolute address.
#[derive(Clone, Copy)]
pub enum Reader {
    Lda,
    Ldx,
    Ldy,
    Bit,
}

/// The branch back to it.
#[derive(Clone, Copy)]
pub enum Branch {
    IfNotZero,
    IfZero,
    IfPlus,
    IfMinus,
}

/// A loop of two instructions: one reads INTIM or the timer's flag, and the other branches back to it.
#[derive(Clone, Copy)]
pub struct Poll {
    pub reader: Reader,
    pub branch: Branch,
    /// The register of the RIOT that is read.
    pub register: u8,
    /// The bytes of its address.
    pub low: u8,
    pub high: u8,
    /// The byte after the branch.
    pub after: u8,
}

impl Reader {
    /// The reader of an opcode. None for those that no such loop begins with.
    fn of_opcode(opcode: u8) -> Option<Reader>
        ensures { IfSome result (λ reader. reader_opcode reader ≡ opcode) }
    {
        match opcode {
            0xAD => Some(Reader::Lda),
            0xAE => Some(Reader::Ldx),
            0xAC => Some(Reader::Ldy),
            0x2C => Some(Reader::Bit),
            _ => None,
        }
    }

    /// The registers after it has read a byte.
    pub fn after(self, cpu: Cpu, byte: u8) -> Cpu
        ensures { result ≡ after_reader self byte cpu }
    {
        match self {
            Reader::Lda => {
                let loaded = load(byte, cpu.p);
                Cpu {
                    a: loaded.value,
                    p: loaded.p,
                    ..cpu
                }
            }
            Reader::Ldx => {
                let loaded = load(byte, cpu.p);
                Cpu {
                    x: loaded.value,
                    p: loaded.p,
                    ..cpu
                }
            }
            Reader::Ldy => {
                let loaded = load(byte, cpu.p);
                Cpu {
                    y: loaded.value,
                    p: loaded.p,
                    ..cpu
                }
            }
            Reader::Bit => Cpu {
                p: bit(cpu.a, byte, cpu.p).p,
                ..cpu
            },
        }
    }
}

impl Branch {
    /// The branch of an opcode. None for those that no such loop ends with.
    fn of_opcode(opcode: u8) -> Option<Branch>
        ensures { IfSome result (λ branch. branch_opcode branch ≡ opcode) }
    {
        match opcode {
            0xD0 => Some(Branch::IfNotZero),
            0xF0 => Some(Branch::IfZero),
            0x10 => Some(Branch::IfPlus),
            0x30 => Some(Branch::IfMinus),
            _ => None,
        }
    }

    /// Whether it is taken at a status.
    pub fn is_taken(self, p: u8) -> bool
        ensures { result ≡ is_taken (operation_of self) p }
    {
        match self {
            Branch::IfNotZero => p / 2 % 2 != 1,
            Branch::IfZero => p / 2 % 2 == 1,
            Branch::IfPlus => p / 128 % 2 != 1,
            Branch::IfMinus => p / 128 % 2 == 1,
        }
    }

    /// Whether the loop goes on after a read of this byte.
    pub fn goes_on(self, byte: u8) -> bool
        ensures { result ≡ goes_on self byte }
    {
        match self {
            Branch::IfNotZero => byte != 0,
            Branch::IfZero => byte == 0,
            Branch::IfPlus => byte / 128 % 2 != 1,
            Branch::IfMinus => byte / 128 % 2 == 1,
        }
    }

    /// If it goes on after a read of a byte, it does so after that of each byte from this one up to it.
    pub fn least(self) -> u8
        ensures { result ≡ least_of self }
    {
        match self {
            Branch::IfNotZero => 1,
            Branch::IfZero | Branch::IfPlus => 0,
            Branch::IfMinus => 128,
        }
    }
}

/// Whether the byte that was read tells by itself that the loop goes on. After BIT Z depends on A too,
/// and a byte other than 0 says nothing of it.
fn is_told(reader: Reader, branch: Branch) -> bool
    ensures { result ≡ is_told reader branch }
{
    !matches!((reader, branch), (Reader::Bit, Branch::IfNotZero))
}

/// Whether the byte of ROM at an address is this one, and a read of it selects nothing.
fn shows(cart: &MappedCart, address: u16, byte: u8) -> bool
    ensures { IsTrue result → ShowsRom cart.now address byte }
{
    match cart.rom_at(address) {
        Some(shown) => shown == byte,
        None => false,
    }
}

/// The loop that waits for the timer whose branch stands at an address, if one does there and in one
/// page, and its accesses select nothing.
pub fn poll_at(cart: &MappedCart, pc: u16) -> Option<Poll>
    ensures { IfSome result (λ poll. IsPoll cart.now pc poll) }
{
    let in_page = pc % 256;
    if pc / 4096 % 2 != 1 || in_page < 3 || in_page > 253 || !shows(cart, pc + 1, BACK_BY_FIVE) {
        return None;
    }
    let branch = Branch::of_opcode(cart.rom_at(pc)?)?;
    let reader = Reader::of_opcode(cart.rom_at(pc - 3)?)?;
    if !is_told(reader, branch) {
        return None;
    }
    let low = cart.rom_at(pc - 2)?;
    let high = cart.rom_at(pc - 1)?;
    let after = cart.rom_at(pc + 2)?;
    let address = u16::from_le_bytes([low, high]);
    let Place::Io(register) = place(address) else {
        return None;
    };
    if register / 4 % 2 != 1 || !cart.is_plain(address) {
        return None;
    }
    Some(Poll {
        reader,
        branch,
        register,
        low,
        high,
        after,
    })
}
