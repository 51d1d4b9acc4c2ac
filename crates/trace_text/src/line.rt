//! The line of an instruction.
ghost use Rattle.std.specs.Prelude.{◌≡◌, IfOk, slice_index, string_bytes};
ghost use Rattle.mos_cpu.specs.Opcodes.{row_of};
ghost use Rattle.trace_text.specs.TraceLines.{access_text, banks_text, beam_text, code_text};
ghost use Rattle.trace_text.specs.TraceLines.{instruction_text, registers_text, trace_line};

use crate::assembly::{InstructionBytes, OperandText};
use crate::mnemonic::Mnemonic;
use mos_cpu::{Cpu, row};
use movie_machine::Executed;
use std::alloc::{AllocError, Global};
use std::fmt;
use vcs_machine::{DataAccess, HexByte, HexWord};

/// Where the beam was: the scanline of the frame in 3 columns, and the cycle of it in 2.
#[derive(Clone, Copy)]
struct Beam {
    line: u16,
    cycle: u8,
}

impl fmt::Display for Beam {
    ghost use Rattle.std.specs.Prelude.{Some};

    ghost output = { λ b. Some (beam_text b.line b.cycle) };

    fn fmt<W: fmt::Write>(&self, f: &mut fmt::Formatter<W>) -> fmt::Result {
        write!(f, "{:>3} {:>2}", self.line, self.cycle)
    }
}

/// An instruction at an address: its bytes, and the same as an assembler has it.
#[derive(Clone, Copy)]
struct Code<'a> {
    pc: u16,
    code: &'a [u8],
}

impl Code<'_> {
    /// A byte of it, by its place; 0 after the last.
    fn at(&self, place: usize) -> u8
        ensures { result ≡ slice_index self.now.code.now place }
    {
        self.code.get(place).copied().unwrap_or(0)
    }
}

impl fmt::Display for Code<'_> {
    ghost use Rattle.std.specs.Prelude.{Some, slice_index};

    ghost output = { λ c. Some (code_text c.pc c.code.now (row_of (slice_index c.code.now 0))) };

    fn fmt<W: fmt::Write>(&self, f: &mut fmt::Formatter<W>) -> fmt::Result {
        let Some(row) = row(self.at(0)) else {
            return Ok(());
        };
        let bytes = InstructionBytes(self.code);
        let operand = OperandText {
            mode: row.mode,
            pc: self.pc,
            low: self.at(1),
            high: self.at(2),
        };
        write!(f, "{bytes}  {} {operand}", Mnemonic(row.operation))
    }
}

/// The registers but for PC.
#[derive(Clone, Copy)]
struct Registers(Cpu);

impl fmt::Display for Registers {
    ghost use Rattle.std.specs.Prelude.{Some};

    ghost output = { λ r. Some (registers_text r.0) };

    fn fmt<W: fmt::Write>(&self, f: &mut fmt::Formatter<W>) -> fmt::Result {
        let Cpu {
            a,
            x,
            y,
            s,
            p,
            pc: _,
        } = self.0;
        write!(
            f,
            "A={} X={} Y={} S={} P={}",
            HexByte(a),
            HexByte(x),
            HexByte(y),
            HexByte(s),
            HexByte(p)
        )
    }
}

/// The selected banks, of a cartridge that has some.
#[derive(Clone, Copy)]
struct Banks<'a>(&'a [u8]);

impl fmt::Display for Banks<'_> {
    ghost use Rattle.std.specs.Prelude.{Some};

    ghost output = { λ b. Some (banks_text b.0.now) };

    fn fmt<W: fmt::Write>(&self, f: &mut fmt::Formatter<W>) -> fmt::Result {
        let Some((first, more)) = self.0.split_first() else {
            return Ok(());
        };
        write!(f, " B={first:X}")?;
        for bank in more {
            write!(f, ".{bank:X}")?;
        }
        Ok(())
    }
}

/// A data access.
#[derive(Clone, Copy)]
struct Access(DataAccess);

impl fmt::Display for Access {
    ghost use Rattle.std.specs.Prelude.{Some};

    ghost output = { λ a. Some (access_text a.0) };

    fn fmt<W: fmt::Write>(&self, f: &mut fmt::Formatter<W>) -> fmt::Result {
        let DataAccess {
            is_write,
            address,
            byte,
        } = self.0;
        let verb = if is_write { "write" } else { "read" };
        write!(f, "  {verb} {} {}", HexWord(address), HexByte(byte))
    }
}

/// The line of an instruction without its accesses.
fn instruction_text(alloc: Global, executed: &Executed) -> Result<String, AllocError>
    ensures { IfOk result (λ text. string_bytes text ≡ instruction_text executed.now) }
{
    let cpu = executed.cpu;
    let beam = Beam {
        line: executed.line,
        cycle: executed.cycle,
    };
    let code = Code {
        pc: cpu.pc,
        code: executed.code.as_slice(),
    };
    let banks = Banks(executed.banks.as_slice());
    format!(in alloc;
        "{beam}  {}  {code}  {}{banks}",
        HexWord(cpu.pc),
        Registers(cpu)
    )
}

/// The line of an instruction in a trace, with its line feed.
pub fn trace_line(alloc: Global, executed: &Executed) -> Result<String, AllocError>
    ensures { IfOk result (λ line. string_bytes line ≡ trace_line executed.now) }
{
    let mut line = instruction_text(alloc, executed)?;
    for access in executed.accesses.as_slice() {
        write!(line, "{}", Access(*access))?;
    }
    line.push_str("\n")?;
    Ok(line)
}
