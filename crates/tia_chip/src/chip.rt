//! A TIA up to date: colour clocks pass, and its registers are written and read.
ghost use Rattle.std.specs.Fn.{iterate};
ghost use Rattle.std.specs.Prelude.{ℕ, ◌≡◌, ◌+◌, ◌%◌, ◌<◌, ◌≤◌, ◌&&◌, not, if◌then◌else◌, IfSome, IsTrue, Some, None, true, false};
ghost use Rattle.tia_chip.specs.AtRest.{awaits_rsync};
ghost use Rattle.tia_chip.specs.Clock.{after_clock, at_line_start, at_next_clock, at_next_line};
ghost use Rattle.tia_chip.specs.Clock.{at_pixel, stepped, with_next_clock, without_rest};
ghost use Rattle.tia_chip.specs.Clocks.{sink_after_clocks, with_pixel};
ghost use Rattle.tia_chip.specs.Colour.{pixel_of};
ghost use Rattle.tia_chip.specs.Numbers.{is_settled, is_tia};
ghost use Rattle.tia_chip.specs.PowerOn.{at_frame_start, tia_at_power_on, with_fire};
ghost use Rattle.tia_chip.specs.Private.Late.{gives_way, is_free, is_there as is_there_of, written_of};
ghost use Rattle.tia_chip.specs.Private.Owed.{MayOwe, settled};
ghost use Rattle.tia_chip.specs.Private.Ranges.{IsInRange};
ghost use Rattle.tia_chip.specs.Read.{tia_after_read, tia_read};
ghost use Rattle.tia_chip.specs.Write.{after_action, after_register_write, effect_of, tia_after_write};
ghost use Rattle.tia_chip.specs.declared.effect.Effect.TheVariants.{Nothing};

use crate::ball::Ball;
use crate::calm::{is_at_rest_in_blank, is_calm_in_picture, pass_blank, pass_some};
use crate::collision::latch;
use crate::colour::pixel;
use crate::effect::Effect;
use crate::missile::Missile;
use crate::motion::pulse;
use crate::owed::{NO_STEPS, Owed};
use crate::pixel::Pixel;
use crate::player::Player;
use crate::playfield::take;
use crate::read::{latch_button, register_byte};
use crate::register::Register;
use crate::sight::{forget_seen, look};
use crate::state::TiaState;
use crate::waiting::Waiting;
use crate::write::{act_and_notice, bring_on, effect, is_there, put_on_its_way, waits_after};
use std::marker::Model;
use tia_core::{NoPaint, Paint};

/// A TIA that has seen all clocks that have passed. Contracts see its state.
#[derive(Drop)]
pub struct Chip {
    state: TiaState,
    owed: Owed,
}

impl Model for Chip {
    ghost use Rattle.tia_chip.specs.Private.Owed.{MayOwe, settled};
    ghost use Rattle.tia_chip.specs.Private.Ranges.{IsInRange};
    ghost use Rattle.tia_chip.specs.declared.state.TiaState.{TiaState};

    ghost Value = { TiaState };

    ghost view = { λ a. settled a.owed a.state };

    ghost invariant = { λ a. IsInRange a.state × MayOwe a.owed a.state };
}

/// A player that was just switched on.
const PLAYER: Player = Player {
    nusiz: 0,
    refp: 0,
    grp_new: 0,
    grp_old: 0,
    vdelp: 0,
    hmp: 0,
    counter: 0,
    copy: None,
    width: 1,
    change: 0,
    moves: false,
    seen: false,
};

/// A missile that was just switched on.
const MISSILE: Missile = Missile {
    enam: 0,
    resmp: 0,
    hmm: 0,
    counter: 0,
    copy: None,
    moves: false,
    seen: false,
};

/// A ball that was just switched on.
const BALL: Ball = Ball {
    enabl_new: 0,
    enabl_old: 0,
    vdelbl: 0,
    hmbl: 0,
    counter: 0,
    place: None,
    own_size: 1,
    phase: 0,
    moves: false,
    seen: false,
};

/// A TIA that was just switched on.
const POWER_ON: TiaState = TiaState {
    vsync: 0,
    vblank: 0,
    colup0: 0,
    colup1: 0,
    colupf: 0,
    colubk: 0,
    ctrlpf: 0,
    pf0: 0,
    pf1: 0,
    pf2: 0,
    player0: PLAYER,
    player1: PLAYER,
    missile0: MISSILE,
    missile1: MISSILE,
    ball: BALL,
    mirrored: false,
    playfield: false,
    collisions: 0,
    pulses: 0,
    latches: 0,
    clock: 0,
    beam: 0,
    longer: false,
    waiting: None,
    hmove: None,
    changed: false,
    line: 0,
    fire0: false,
    fire1: false,
};

/// In the picture each object makes a step.
fn step(tia: &mut TiaState)
    requires { IsInRange tia.old }
    ensures value { tia.new ≡ stepped tia.old }
    ensures range { IsInRange tia.new }
{
    if !tia.is_in_blank() {
        let clock = tia.clock;
        let (nusiz0, nusiz1) = (tia.player0.nusiz, tia.player1.nusiz);
        let ctrlpf = tia.ctrlpf;
        tia.missile0.step(nusiz0, clock);
        tia.missile1.step(nusiz1, clock);
        tia.player0.step();
        tia.player1.step();
        tia.ball.step(ctrlpf, false);
    }
}

/// As a line begins its blank isn't longer.
fn begin_line(tia: &mut TiaState)
    requires { IsInRange tia.old }
    ensures value { tia.new ≡ at_line_start tia.old }
    ensures range { IsInRange tia.new }
{
    if tia.clock == 0 {
        tia.longer = false;
    }
}

/// What a clock does before its pixel.
#[tactic(auto, unfolding(crate::specs::Clock::at_pixel))]
fn begin_clock(tia: &mut TiaState)
    requires { IsInRange tia.old }
    ensures value { tia.new ≡ at_pixel tia.old }
    ensures range { IsInRange tia.new }
{
    bring_on(tia);
    begin_line(tia);
    pulse(tia);
    take(tia);
    step(tia);
}

/// Goes to the first clock of the next line.
fn go_to_next_line(tia: &mut TiaState)
    requires { IsInRange tia.old }
    ensures value { tia.new ≡ at_next_line tia.old }
    ensures range { IsInRange tia.new }
{
    look(tia);
    tia.clock = 0;
    tia.beam = 0;
    tia.line = tia.line.wrapping_add(1);
    tia.longer = false;
    tia.playfield = false;
    tia.mirrored = false;
}

/// Goes to the next clock of the line.
fn go_on(tia: &mut TiaState)
    requires range { IsInRange tia.old }
    requires clock { tia.old.clock < 227 }
    ensures value { tia.new ≡ at_next_clock tia.old }
    ensures range { IsInRange tia.new }
{
    tia.longer = tia.longer && tia.clock != 75;
    tia.clock += 1;
    tia.beam = (tia.beam + 1).min(227);
}

/// Clears what the rest of the line has no use for.
fn clear_rest(tia: &mut TiaState)
    requires { IsInRange tia.old }
    ensures value { tia.new ≡ without_rest tia.old }
    ensures range { IsInRange tia.new }
{
    tia.playfield = tia.playfield && tia.beam % 4 != 0;
    tia.mirrored = tia.mirrored && tia.beam < 225;
    if !tia.is_in_blank() {
        forget_seen(tia);
    }
}

/// Goes to the next clock.
fn end_clock(tia: &mut TiaState)
    requires { IsInRange tia.old }
    ensures value { tia.new ≡ with_next_clock tia.old }
    ensures range { IsInRange tia.new }
{
    if tia.clock == 227 {
        go_to_next_line(tia);
    } else {
        go_on(tia);
        clear_rest(tia);
    }
}

/// Whether an RSYNC is on its way.
#[inline(always)]
fn awaits_rsync(waiting: Option<Waiting>) -> bool
    ensures { result ≡ awaits_rsync waiting }
{
    match waiting {
        Some(write) => match write.register {
            Register::Rsync => true,
            _ => false,
        },
        None => false,
    }
}

/// A write acts, and what it changes is looked at.
fn act_owing(tia: &mut TiaState, owed: &mut Owed, register: Register, value: u8)
    requires range { IsInRange tia.old }
    requires still { MayOwe owed.old tia.old }
    ensures value { settled owed.new tia.new ≡ after_action register value (settled owed.old tia.old) }
    ensures range { IsInRange tia.new }
    ensures still { MayOwe owed.new tia.new }
{
    owed.settle_for(register, tia);
    act_and_notice(tia, register, value);
}

/// Writes a register.
fn write_owing(tia: &mut TiaState, owed: &mut Owed, register: Register, value: u8)
    requires range { IsInRange tia.old }
    requires still { MayOwe owed.old tia.old }
    ensures value { settled owed.new tia.new ≡ after_register_write register value (settled owed.old tia.old) }
    ensures range { IsInRange tia.new }
    ensures still { MayOwe owed.new tia.new }
{
    if register.delay() == 0 {
        act_owing(tia, owed, register, value);
    } else {
        put_on_its_way(tia, register, value);
    }
}

impl Chip {
    /// A TIA that was just switched on.
    pub fn power_on() -> Self
        ensures { result ≡ tia_at_power_on }
    {
        Chip {
            state: POWER_ON,
            owed: NO_STEPS,
        }
    }

    /// The TIA of a state. None if its numbers aren't lawful, or if a record doesn't say all of it.
    #[tactic(auto, using(crate::proofs::RangeLemmas::in_range))]
    pub fn from_state(state: TiaState) -> Option<Self>
        ensures { result ≡ (if is_tia state && is_settled state then Some state else None) }
    {
        if state.is_lawful() && state.is_settled() {
            Some(Chip {
                state,
                owed: NO_STEPS,
            })
        } else {
            None
        }
    }

    /// The clock of the line that comes next, 0 to 227.
    #[inline(always)]
    pub fn line_clock(&self) -> u8
        ensures value { result ≡ self.now.clock }
        ensures range { result < 228 }
    {
        self.state.clock
    }

    /// The clock of the line that comes next once so many clocks have passed. None if an RSYNC is on
    /// its way, which no write leaves.
    #[inline(always)]
    #[tactic(auto, using(crate::proofs::LineClockLemmas::later))]
    pub fn line_clock_after(&self, count: u32) -> Option<u8>
        ensures value { result ≡ (if awaits_rsync self.now.waiting then None else Some ((self.now.clock + count) % 228)) }
        ensures clock { IfSome result (λ clock. (iterate after_clock count self.now).clock ≡ clock) }
        ensures range { IfSome result (λ clock. clock < 228) }
    {
        if awaits_rsync(self.state.waiting) {
            None
        } else {
            Some(((self.state.clock as u32 + count % 228) % 228) as u8)
        }
    }

    /// The line, from 0 at a frame's start, modulo 65,536.
    pub fn line(&self) -> u16
        ensures { result ≡ self.now.line }
    {
        self.state.line
    }

    /// The same TIA again.
    pub fn copy(&self) -> Chip
        ensures value { result ≡ self.now }
    {
        Chip {
            state: self.state,
            owed: self.owed,
        }
    }

    /// Its state.
    pub fn state(&self) -> TiaState
        ensures { result ≡ self.now }
    {
        let mut state = self.state;
        let mut owed = self.owed;
        owed.settle(&mut state);
        state
    }

    /// One colour clock, and the pixel that it puts.
    #[tactic(auto, unfolding(crate::specs::Clock::after_clock))]
    pub fn clock(&mut self) -> Option<Pixel>
        ensures value { self.new ≡ after_clock self.old }
        ensures pixel { result ≡ pixel_of (at_pixel self.old) }
    {
        self.owed.settle(&mut self.state);
        begin_clock(&mut self.state);
        let pixel = pixel(&self.state);
        latch(&mut self.state);
        end_clock(&mut self.state);
        pixel
    }

    /// So many colour clocks, whose pixels go to the sink in order.
    pub fn clocks<S: Paint>(&mut self, count: u32, sink: &mut S)
        ensures state { self.new ≡ iterate after_clock count self.old }
        ensures sink { sink.new ≡ sink_after_clocks S.drawn sink.old count self.old }
    {
        let mut left = count;
        while left > 0 {
            left -= self.some_clocks(left, sink);
        }
    }

    /// So many colour clocks, whose pixels nobody keeps.
    #[inline(never)]
    pub fn pass(&mut self, count: u32)
        ensures { self.new ≡ iterate after_clock count self.old }
    {
        self.clocks(count, &mut NoPaint);
    }

    /// The first of so many colour clocks, at least one. How many they were.
    fn some_clocks<S: Paint>(&mut self, most: u32, sink: &mut S) -> u32
        requires { 1 ≤ most }
        ensures some { 1 ≤ result }
        ensures most { result ≤ most }
        ensures state { self.new ≡ iterate after_clock result self.old }
        ensures sink { sink.new ≡ sink_after_clocks S.drawn sink.old result self.old }
    {
        let Some(waiting) = self.state.waiting else {
            return self.free_clocks(most, sink);
        };
        if is_there(&self.state, waiting) {
            return self.unwritten_clocks(waiting, most, sink);
        }
        if waiting.clocks == 0 {
            self.state.waiting = None;
            act_owing(
                &mut self.state,
                &mut self.owed,
                waiting.register,
                waiting.value,
            );
            return self.free_clocks(most, sink);
        }
        self.waited_clocks(waiting, most.min(u32::from(waiting.clocks)), sink)
    }

    /// The first of so many colour clocks in which a write waits, or acts and changes nothing, at least
    /// one. How many they were.
    fn unwritten_clocks<S: Paint>(&mut self, waiting: Waiting, most: u32, sink: &mut S) -> u32
        requires waiting { self.old.waiting ≡ Some waiting }
        requires there { is_there_of waiting.register waiting.value (written_of self.old) ≡ true }
        requires some { 1 ≤ most }
        ensures some { 1 ≤ result }
        ensures most { result ≤ most }
        ensures state { self.new ≡ iterate after_clock result self.old }
        ensures sink { sink.new ≡ sink_after_clocks S.drawn sink.old result self.old }
    {
        self.state.waiting = None;
        let passed = self.free_clocks(most, sink);
        self.state.waiting = waits_after(waiting, passed);
        passed
    }

    /// The first of so many colour clocks in which a write waits, at least one. How many they were.
    fn waited_clocks<S: Paint>(&mut self, waiting: Waiting, most: u32, sink: &mut S) -> u32
        requires waiting { self.old.waiting ≡ Some waiting }
        requires some { 1 ≤ most }
        requires most { most ≤ waiting.clocks }
        ensures some { 1 ≤ result }
        ensures most { result ≤ most }
        ensures state { self.new ≡ iterate after_clock result self.old }
        ensures sink { sink.new ≡ sink_after_clocks S.drawn sink.old result self.old }
    {
        self.state.waiting = None;
        let passed = self.free_clocks(most, sink);
        self.state.waiting = Some(Waiting {
            clocks: waiting.clocks - passed as u8,
            ..waiting
        });
        passed
    }

    /// The first of so many colour clocks, at least one: many, if no write waits and nothing moves. How
    /// many they were.
    fn free_clocks<S: Paint>(&mut self, most: u32, sink: &mut S) -> u32
        requires { 1 ≤ most }
        ensures some { 1 ≤ result }
        ensures most { result ≤ most }
        ensures state { self.new ≡ iterate after_clock result self.old }
        ensures sink { sink.new ≡ sink_after_clocks S.drawn sink.old result self.old }
    {
        let most = most.min(160) as u8;
        if is_at_rest_in_blank(&self.state) {
            let count = most.min(68 - self.state.clock);
            pass_blank(&mut self.state, &mut self.owed, count);
            u32::from(count)
        } else if is_calm_in_picture(&self.state) {
            let most = most.min(228 - self.state.clock);
            let passed = pass_some(&mut self.state, &mut self.owed, most, sink);
            u32::from(passed)
        } else {
            self.put_clock(sink);
            1
        }
    }

    /// One colour clock, whose pixel goes to the sink.
    #[inline(never)]
    fn put_clock<S: Paint>(&mut self, sink: &mut S)
        ensures state { self.new ≡ after_clock self.old }
        ensures sink { sink.new ≡ with_pixel S.drawn sink.old (pixel_of (at_pixel self.old)) }
    {
        if let Some(pixel) = self.clock() {
            sink.put(pixel.line, pixel.x, pixel.colour);
        }
    }

    /// Writes a register, of whose number the low six bits count, between two clocks.
    #[tactic(auto, unfolding(crate::specs::Write::tia_after_write))]
    pub fn write(&mut self, number: u8, value: u8) -> Effect
        ensures value { self.new ≡ tia_after_write self.old number value }
        ensures effect { result ≡ effect_of self.old number value }
    {
        let register = Register::from_number(number);
        let effect = effect(&self.state, register, value);
        write_owing(&mut self.state, &mut self.owed, register, value);
        effect
    }

    /// Whether no write is on its way, or one that acts late.
    #[inline(always)]
    pub fn is_free(&self) -> bool
        ensures { result ≡ is_free self.now.waiting }
    {
        match self.state.waiting {
            None => true,
            Some(waiting) => waiting.register.acts_late(),
        }
    }

    /// Whether no write is on its way, or one that is known to change nothing.
    #[inline(always)]
    fn gives_way(&self) -> bool
        ensures { result ≡ gives_way self.now.waiting (written_of self.now) }
    {
        match self.state.waiting {
            None => true,
            Some(waiting) => is_there(&self.state, waiting),
        }
    }

    /// Writes a register so many clocks from now, if it can be put on its way already, and answers
    /// whether it is. That asks for nothing. It can be if it acts late, and no write is on its
    /// way but one that changes nothing.
    #[inline(always)]
    pub fn write_late(&mut self, lag: u8, number: u8, value: u8) -> bool
        ensures state { IsTrue result → iterate after_clock lag self.new ≡ tia_after_write (iterate after_clock lag self.old) number value }
        ensures pixels { IsTrue result → (n : ℕ) → n < lag → pixel_of (at_pixel (iterate after_clock n self.new)) ≡ pixel_of (at_pixel (iterate after_clock n self.old)) }
        ensures effect { IsTrue result → effect_of (iterate after_clock lag self.old) number value ≡ Nothing }
        ensures others { result ≡ false → self.new ≡ self.old }
    {
        let register = Register::from_number(number);
        if lag > 240 || !self.gives_way() || !register.acts_late() {
            return false;
        }
        self.state.waiting = Some(Waiting {
            register,
            value,
            clocks: lag + register.delay(),
        });
        true
    }

    /// Reads a register, of whose number the low four bits count, between two clocks. `bus` is the
    /// last byte on the bus.
    pub fn read(&mut self, number: u8, bus: u8) -> u8
        ensures value { result ≡ tia_read self.old number bus }
        ensures state { self.new ≡ tia_after_read self.old number }
    {
        let byte = register_byte(&self.state, number % 16) + bus % 64;
        latch_button(&mut self.state, number);
        byte
    }

    /// Presses and releases the two buttons.
    pub fn set_fire(&mut self, fire0: bool, fire1: bool)
        ensures { self.new ≡ with_fire self.old fire0 fire1 }
    {
        self.state.fire0 = fire0;
        self.state.fire1 = fire1;
    }

    /// The start of a frame: lines are counted from 0.
    pub fn new_frame(&mut self)
        ensures { self.new ≡ at_frame_start self.old }
    {
        self.state.line = 0;
    }
}
