//! Laws about the definitions of a frame.
ghost use Rattle.std.specs.Prelude.{◌≡◌, ◌↔◌, ℕ, ◌+◌, ◌*◌, ◌%◌, ◌<◌, ◌≤◌, List, [], length, IsTrue};
ghost use Rattle.std.specs.Prelude.{true, false, map, filter, All, IfOk};
ghost use Rattle.std.specs.Fn.{iterate};
ghost use Rattle.std.specs.List.{range_with_len};
ghost use Rattle.mos_cpu.specs.Buses.{IsClock};
ghost use Rattle.mos_cpu.specs.Execution.{step_of};
ghost use Rattle.mos_cpu.specs.Operands.{instruction_at};
ghost use Rattle.riot_map.specs.Cart.{has_banks};
ghost use Rattle.tia_core.specs.Beam.{beam_of_pixel, is_visible};
ghost use Rattle.tia_core.specs.Clock.{Pixel};
ghost use Rattle.vcs_machine.specs.Consoles.{Console, frame_meaning_of, with_pixel_logged, meaning_of};
ghost use Rattle.vcs_machine.specs.Consoles.{after_wait, passed, wait_cycles};
ghost use Rattle.vcs_machine.specs.Cycles.{MeetsBeam, after_one_cycle, beam_place, place_after};
ghost use Rattle.vcs_machine.specs.Faults.{stop_with};
ghost use Rattle.vcs_machine.specs.Frame.{FrameMeaning, Machine, Stop, Ended, machine_at, StopsAs};
ghost use Rattle.vcs_machine.specs.Frame.{most_frame_cycles, stop_of, turn, turns, Went};
ghost use Rattle.vcs_machine.specs.Inputs.{InputData};
ghost use Rattle.vcs_machine.specs.Instructions.{StopsAfter, Undrawn, undrawn_meaning, undrawn_of};
ghost use Rattle.vcs_machine.specs.Outcomes.{Failed, Played, cycles_of, frame_of, left_by};
ghost use Rattle.vcs_machine.specs.Outcomes.{machine_of, state_left};
ghost use Rattle.vcs_machine.specs.Pictures.{Rows, most_rows, rows_of};
ghost use Rattle.vcs_machine.specs.States.{is_state, line_cycle_of};
ghost use Rattle.vcs_machine.specs.declared.fault.FaultKind.{FaultKind};
ghost use Rattle.vcs_machine.specs.declared.fields.StateFields.{StateFields};

/// A law: on any bus a frame stops in one way, at the least number of instructions at which it can
/// stop, and the function that searches for that way finds it.
pub const fn law_of_one_stop<B>()
    ensures only { (meaning : FrameMeaning B) (start : Machine B) (stop : Stop B) → start.cycles ≡ 0
        → StopsAs meaning start stop → stop ≡ stop_of meaning start }
    ensures found { (meaning : FrameMeaning B) (start : Machine B) (stop : Stop B) → start.cycles ≡ 0
        → stop ≡ stop_of meaning start → StopsAs meaning start stop }
{}

/// A law: so many cycles that pass are as many times one cycle, which is a step of the RIOT's timer
/// and three colour clocks of the TIA, each with its pixel.
pub const fn law_of_passed_cycles<S>()
    ensures { (drawn : S → ℕ → ℕ → ℕ → S) (c : Console S) (n : ℕ) → passed drawn c n ≡ iterate (after_one_cycle drawn) n c }
{}

/// A law: the beam's place is a clock of the console, with three colour clocks a cycle, in a frame
/// those of all its cycles so far. So a data access in the k-th cycle of an instruction meets the
/// beam where k cycles more have brought it: after the three clocks of its own cycle.
pub const fn law_of_the_beam<S>()
    ensures clock { (drawn : S → ℕ → ℕ → ℕ → S) → IsClock (meaning_of drawn) place_after beam_place }
    ensures frame { (drawn : S → ℕ → ℕ → ℕ → S) (cartridge : List ℕ) (s : StateFields) (i : InputData) (sink : S) (count : ℕ) (m : Machine (Console S))
        → IsTrue (is_state s) → turns (frame_meaning_of drawn) count (machine_of cartridge s i sink) ≡ Went m
        → beam_place m.bus ≡ place_after 0 (line_cycle_of s + m.cycles) }
    ensures accesses { (drawn : S → ℕ → ℕ → ℕ → S) (cartridge : List ℕ) (s : StateFields) (i : InputData) (sink : S) (count : ℕ) (m : Machine (Console S))
        → IsTrue (is_state s) → turns (frame_meaning_of drawn) count (machine_of cartridge s i sink) ≡ Went m → m.cycles ≤ most_frame_cycles
        → IfOk (instruction_at (meaning_of drawn) m.bus m.registers) (MeetsBeam drawn m.registers m.bus (line_cycle_of s + m.cycles)) }
{}

/// A law: an instruction waits at most 75 cycles, and then the beam stands where a scanline begins.
pub const fn law_of_waits<S>()
    ensures most { (c : Console S) → wait_cycles c ≤ 75 }
    ensures line { (drawn : S → ℕ → ℕ → ℕ → S) (c : Console S) → c.awaits_line ≡ true → c.tia.fields.clock < 228 → c.tia.fields.clock % 3 ≡ 0
        → (after_wait drawn c).tia.fields.clock ≡ 0 }
{}

/// A law: what the law of waits asks for holds in each frame. After so many instructions with their
/// waits, and one more without its wait, the beam stands at one of the 228 clocks of a scanline,
/// and a whole number of cycles after its begin.
pub const fn law_of_whole_cycles()
    ensures { (cartridge : List ℕ) (s : StateFields) (i : InputData) (count : ℕ) (m : Machine (Console (List Pixel))) → IsTrue (is_state s)
        → turns (frame_meaning_of with_pixel_logged) count (machine_of cartridge s i []) ≡ Went m
        → let c = (step_of (meaning_of with_pixel_logged) m.registers m.bus).bus in
        (c.tia.fields.clock < 228) × (c.tia.fields.clock % 3 ≡ 0) }
{}

/// A law: however a frame stops, it takes at most 24,401 cycles, its picture has at most 322 rows,
/// and the state that it leaves has the beam's place: three clocks a cycle on from where it began.
pub const fn law_of_frame_lengths()
    ensures cycles { (cartridge : List ℕ) (s : StateFields) (i : InputData) → IsTrue (is_state s)
        → (machine_at (stop_of (frame_meaning_of with_pixel_logged) (machine_of cartridge s i []))).cycles ≤ most_frame_cycles }
    ensures rows { (cartridge : List ℕ) (s : StateFields) (i : InputData) → IsTrue (is_state s)
        → rows_of (line_cycle_of s) (machine_at (stop_of (frame_meaning_of with_pixel_logged) (machine_of cartridge s i []))).cycles ≤ most_rows }
    ensures beam { (cartridge : List ℕ) (s : StateFields) (i : InputData) → IsTrue (is_state s)
        → let here = machine_at (stop_of (frame_meaning_of with_pixel_logged) (machine_of cartridge s i [])) in
        here.bus.tia.fields.clock ≡ 3 * line_cycle_of (state_left here) }
    ensures line_cycle { (cartridge : List ℕ) (s : StateFields) (i : InputData) → IsTrue (is_state s)
        → let here = machine_at (stop_of (frame_meaning_of with_pixel_logged) (machine_of cartridge s i [])) in
        line_cycle_of (state_left here) ≡ (line_cycle_of s + here.cycles) % 76 }
{}

/// A law: however a frame stops, it has put one pixel for each visible clock since it began, in
/// order, and so no pixel twice. None lies below the rows that are counted for its cycles, or to
/// the right of them.
pub const fn law_of_frame_pixels()
    ensures places { (cartridge : List ℕ) (s : StateFields) (i : InputData) → IsTrue (is_state s)
        → let here = machine_at (stop_of (frame_meaning_of with_pixel_logged) (machine_of cartridge s i [])) in
        map beam_of_pixel here.bus.sink ≡ filter is_visible (range_with_len (3 * line_cycle_of s) (3 * here.cycles)) }
    ensures inside { (cartridge : List ℕ) (s : StateFields) (i : InputData) → IsTrue (is_state s)
        → let here = machine_at (stop_of (frame_meaning_of with_pixel_logged) (machine_of cartridge s i [])) in
        All (λ p. (p.line < rows_of (line_cycle_of s) here.cycles) × (p.x < 160)) here.bus.sink }
{}

/// A law: a frame that begins at a lawful state leaves a lawful one, whatever is on its cartridge.
pub const fn law_of_lawful_states()
    ensures { (cartridge : List ℕ) (s : StateFields) (i : InputData) → IsTrue (is_state s) → IsTrue (is_state (left_by (frame_of cartridge s i))) }
{}

/// A law: on a cartridge without banks a frame leaves the bank as it was.
pub const fn law_of_banks()
    ensures { (cartridge : List ℕ) (s : StateFields) (i : InputData) → has_banks (length cartridge) ≡ false
        → (left_by (frame_of cartridge s i)).bank ≡ s.bank }
{}

/// A law: a frame that is executed one instruction at a time, and draws nothing, leaves what any
/// frame leaves, and takes as many cycles.
pub const fn law_of_stepping()
    ensures ended { (cartridge : List ℕ) (s : StateFields) (i : InputData) (count : ℕ) (here : Machine Undrawn)
        → StopsAfter undrawn_meaning (undrawn_of cartridge s i) count (Ended here)
        → ((rows : Rows) × (frame_of cartridge s i ≡ Played (state_left here) rows)) × (cycles_of cartridge s i ≡ here.cycles) }
    ensures failed { (cartridge : List ℕ) (s : StateFields) (i : InputData) (count : ℕ) (kind : FaultKind) (here : Machine Undrawn)
        → StopsAfter undrawn_meaning (undrawn_of cartridge s i) count (stop_with kind here)
        → frame_of cartridge s i ≡ Failed kind (state_left here) }
{}
