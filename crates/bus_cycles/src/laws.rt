//! Laws about the definitions.

ghost use Rattle.std.specs.Prelude.{ℕ, ◌≡◌, ◌-◌, Some};
ghost use Rattle.mos_cpu.specs.Accesses.{accesses_of, instruction_cycles};
ghost use Rattle.mos_cpu.specs.Buses.{Meaning as GuideMeaning};
ghost use Rattle.mos_cpu.specs.Effects.{registers_after, written_byte};
ghost use Rattle.mos_cpu.specs.Execution.{after_accesses, step_of as guide_step_of};
ghost use Rattle.mos_cpu.specs.Opcodes.{row_of};
ghost use Rattle.mos_cpu.specs.Operands.{instruction_at};
ghost use Rattle.mos_cpu.specs.Registers.{Registers};
ghost use Rattle.mos_cpu.specs.declared.fault.CpuFault.{CpuFault};
ghost use Rattle.mos_cpu.specs.declared.opcode_row.Row.{Row};
ghost use Rattle.bus_cycles.specs.Addresses.{Seen};
ghost use Rattle.bus_cycles.specs.Buses.{Meaning};
ghost use Rattle.bus_cycles.specs.Cycles.{Source};
ghost use Rattle.bus_cycles.specs.DataAccesses.{accesses_before, data_accesses_of};
ghost use Rattle.bus_cycles.specs.DataAccesses.{instruction_seen, written_from};
ghost use Rattle.bus_cycles.specs.Execution.{Under, Ended, byte_from, run_of};

/// A law: an instruction takes as many cycles as `mos_cpu` says, and its data accesses are those of
/// `mos_cpu`, in the same cycles. So the step of `mos_cpu` makes them, on each bus that shows it this
/// instruction; here its operand is that of the bytes as the cycles have read them. Before a byte
/// that can't be fetched JSR may have made its pushes, where `mos_cpu` makes no access.
pub const fn law_of_data_accesses<S, U>()
    ensures cycles { (m : Meaning S) (r : Registers) (s after : S) (opcode n : ℕ) (row : Row) (seen : Seen)
        → row_of opcode ≡ Some row → run_of m r s opcode row ≡ Under after n seen
        → n ≡ instruction_cycles (instruction_seen row r seen) r.p }
    ensures accesses { (m : Meaning S) (r : Registers) (s after : S) (opcode n : ℕ) (row : Row) (seen : Seen)
        → row_of opcode ≡ Some row → run_of m r s opcode row ≡ Under after n seen
        → data_accesses_of m r s opcode row ≡ accesses_of (instruction_seen row r seen) r n }
    ensures step { (m : Meaning S) (guide : GuideMeaning U) (r : Registers) (s after : S) (u : U) (opcode n : ℕ) (row : Row) (seen : Seen)
        → row_of opcode ≡ Some row → run_of m r s opcode row ≡ Under after n seen
        → instruction_at guide u r ≡ Ok (instruction_seen row r seen)
        → let end = after_accesses guide row.operation r.p u (data_accesses_of m r s opcode row) in
        guide_step_of guide r u ≡ record {
          answer = Ok n;
          registers = registers_after (instruction_seen row r seen) r end.bytes;
          bus = guide.passed end.bus (n - end.cycle);
        } }
    ensures fault { (m : Meaning S) (r : Registers) (s after : S) (opcode : ℕ) (row : Row) (fault : CpuFault)
        → row_of opcode ≡ Some row → run_of m r s opcode row ≡ Ended after fault
        → data_accesses_of m r s opcode row ≡ accesses_before row.operation r fault }
    ensures bytes { (source : Source) (row : Row) (r : Registers) (seen : Seen)
        → byte_from source row r seen ≡ written_byte row.operation r.p seen.read (written_from source r) }
{}
