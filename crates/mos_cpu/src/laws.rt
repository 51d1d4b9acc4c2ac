//! Laws about the definition of an instruction.

ghost use Rattle.std.specs.Prelude.{ℕ, ◌≡◌, ◌≢◌, ◌<◌, ◌≤◌, ◌+◌, ◌/◌, ◌%◌, Bool, true, None};
ghost use Rattle.std.specs.Prelude.{IfOk, int_le, length, map, nat_eq, nat_le, option_map, pos};
ghost use Rattle.std.specs.Prelude.{slice_get};
ghost use Rattle.std.specs.List.{IsDistinct};
ghost use Rattle.mos_cpu.specs.Accesses.{accesses_of};
ghost use Rattle.mos_cpu.specs.Buses.{Meaning, Respects};
ghost use Rattle.mos_cpu.specs.Decimal.{decimal_byte, adc_of, sbc_of};
ghost use Rattle.mos_cpu.specs.Execution.{step_of, map_step};
ghost use Rattle.mos_cpu.specs.Numbers.{modulo};
ghost use Rattle.mos_cpu.specs.OpcodeMatrix.{operations_in_order, modes_in_order};
ghost use Rattle.mos_cpu.specs.Opcodes.{Entry, entries, row_of};
ghost use Rattle.mos_cpu.specs.Operands.{Instruction, instruction_at};
ghost use Rattle.mos_cpu.specs.Registers.{Registers, IsStatus};
ghost use Rattle.mos_cpu.specs.Status.{has_flag, put_flag, carry_of, pushed_of, pulled_of};
ghost use Rattle.mos_cpu.specs.Sums.{less_borrow};
ghost use Rattle.mos_cpu.specs.Timing.{KeepsTime};
ghost use Rattle.mos_cpu.specs.declared.status.Flag.{Flag};
ghost use Rattle.mos_cpu.specs.declared.status.Flag.TheVariants.{Carry, Decimal};

/// A law: every instruction takes 2 to 7 cycles, on any bus.
pub const fn law_of_cycles<S>()
    ensures least { (m : Meaning S) (r : Registers) (s : S) →
        IfOk (step_of m r s).answer (λ cycles. 2 ≤ cycles) }
    ensures most { (m : Meaning S) (r : Registers) (s : S) →
        IfOk (step_of m r s).answer (λ cycles. cycles ≤ 7) }
{}

/// A law: an instruction commutes with each map between buses that keeps what they say.
pub const fn law_of_maps<S, U>()
    ensures { (m : Meaning S) (n : Meaning U) (h : S → U) → Respects m n h
        → (r : Registers) (s : S) → step_of n r (h s) ≡ map_step h (step_of m r s) }
{}

/// A law: each access of an instruction is made when exactly the cycles up to its own have passed,
/// by any clock of the bus.
pub const fn law_of_access_times<S>()
    ensures { (m : Meaning S) (r : Registers) (s : S) → IfOk (instruction_at m s r) (KeepsTime m r s) }
{}

/// A law: the table has 151 opcodes, none of them twice.
pub const fn law_of_opcodes()
    ensures count { length entries ≡ 151 }
    ensures once { IsDistinct nat_eq (map (λ (entry : Entry). entry.0) entries) }
{}

/// A law: of the opcodes that are 1 modulo 4 the high three bits name the operation, and the middle
/// three bits the addressing mode. The one exception is 89, which stands for nothing.
pub const fn law_of_regular_opcodes()
    ensures operation { (opcode : ℕ) → opcode < 256 → opcode % 4 ≡ 1 → opcode ≢ 0x89
        → option_map (λ row. row.operation) (row_of opcode)
        ≡ slice_get operations_in_order (opcode / 32) }
    ensures mode { (opcode : ℕ) → opcode < 256 → opcode % 4 ≡ 1 → opcode ≢ 0x89
        → option_map (λ row. row.mode) (row_of opcode) ≡ slice_get modes_in_order (opcode / 4 % 8) }
    ensures absent { row_of 0x89 ≡ None }
{}

/// A law: an instruction has at most three data accesses.
pub const fn law_of_accesses()
    ensures { (i : Instruction) (r : Registers) (cycles : ℕ) → length (accesses_of i r cycles) ≤ 3 }
{}

/// A law: a flag that is set or cleared is set or clear then, and each other flag stays.
pub const fn law_of_flags()
    ensures given { (flag : Flag) (on : Bool) (p : ℕ) → has_flag flag (put_flag flag on p) ≡ on }
    ensures others { (flag other : Flag) (on : Bool) (p : ℕ) → flag ≢ other
        → has_flag other (put_flag flag on p) ≡ has_flag other p }
{}

/// A law: a status is pushed with its flags, and with bits 5 and 4 set whatever they were. Pulled
/// again it is what it was.
pub const fn law_of_pushed_status()
    ensures set { (p : ℕ) → pushed_of p / 16 % 4 ≡ 3 }
    ensures flags { (flag : Flag) (p : ℕ) → has_flag flag (pushed_of p) ≡ has_flag flag p }
    ensures pulled { (p : ℕ) → IsStatus p → pulled_of (pushed_of p) ≡ p }
{}

/// A law: in decimal mode ADC and SBC add and subtract numbers of two decimal digits modulo 100. C
/// is set if a sum is 100 or more, and if a difference isn't negative.
pub const fn law_of_decimal()
    ensures sum { (a m p : ℕ) → a < 100 → m < 100 → has_flag Decimal p ≡ true
        → (adc_of (decimal_byte a) (decimal_byte m) p).value
        ≡ decimal_byte ((a + m + carry_of p) % 100) }
    ensures sum_carry { (a m p : ℕ) → a < 100 → m < 100 → has_flag Decimal p ≡ true
        → has_flag Carry (adc_of (decimal_byte a) (decimal_byte m) p).p
        ≡ nat_le 100 (a + m + carry_of p) }
    ensures difference { (a m p : ℕ) → a < 100 → m < 100 → has_flag Decimal p ≡ true
        → (sbc_of (decimal_byte a) (decimal_byte m) p).value
        ≡ decimal_byte (modulo (less_borrow (pos a) (pos m) p) 100) }
    ensures difference_carry { (a m p : ℕ) → a < 100 → m < 100 → has_flag Decimal p ≡ true
        → has_flag Carry (sbc_of (decimal_byte a) (decimal_byte m) p).p
        ≡ int_le (pos 0) (less_borrow (pos a) (pos m) p) }
{}
