//! Steps of the objects that a TIA owes: nobody has looked at the objects since, so it makes these steps
//! when somebody does.
ghost use Rattle.std.specs.Prelude.{◌≡◌, ◌≤◌, true, false};
ghost use Rattle.tia_chip.specs.Motion.{any_moves};
ghost use Rattle.tia_chip.specs.Private.Owed.{AreQuiet, MayOwe, needs_steps, made_steps, settled};
ghost use Rattle.tia_chip.specs.Private.Ranges.{IsInRange};

use crate::register::Register;
use crate::sight::look;
use crate::state::TiaState;

/// The steps that each object still has to make.
#[derive(Clone, Copy, Debug)]
pub struct Owed {
    /// How many they are.
    pub steps: u32,
    /// Whether each object is looked at after the last of them. Else what was seen is forgotten then.
    pub looked: bool,
}

/// No steps.
pub const NO_STEPS: Owed = Owed {
    steps: 0,
    looked: false,
};

impl Owed {
    /// Lets the objects make the steps.
    #[inline(always)]
    pub fn settle(&mut self, tia: &mut TiaState)
        requires range { IsInRange tia.old }
        requires still { MayOwe self.old tia.old }
        ensures value { tia.new ≡ settled self.old tia.old }
        ensures none { self.new.steps ≡ 0 }
        ensures range { IsInRange tia.new }
    {
        if self.steps > 0 {
            self.settle_some(tia);
        }
    }

    /// The same of some steps.
    #[inline(never)]
    fn settle_some(&mut self, tia: &mut TiaState)
        requires some { 1 ≤ self.old.steps }
        requires range { IsInRange tia.old }
        requires still { MayOwe self.old tia.old }
        ensures value { tia.new ≡ settled self.old tia.old }
        ensures none { self.new.steps ≡ 0 }
        ensures range { IsInRange tia.new }
    {
        make_steps(tia, self.steps);
        self.steps = 0;
        if self.looked {
            look(tia);
        }
    }

    /// The same if a write of this register needs them.
    #[inline(always)]
    pub fn settle_for(&mut self, register: Register, tia: &mut TiaState)
        requires range { IsInRange tia.old }
        requires still { MayOwe self.old tia.old }
        ensures value { settled self.new tia.new ≡ settled self.old tia.old }
        ensures none { needs_steps register ≡ true → self.new.steps ≡ 0 }
        ensures range { IsInRange tia.new }
        ensures still { MayOwe self.new tia.new }
    {
        if register.needs_steps() {
            self.settle(tia);
        }
    }
}

/// So many steps of each object, after which what was seen is forgotten.
fn make_steps(tia: &mut TiaState, steps: u32)
    requires range { IsInRange tia.old }
    requires still { any_moves tia.old ≡ false }
    ensures value { tia.new ≡ made_steps steps false tia.old }
    ensures range { IsInRange tia.new }
{
    let mut left = make_rounds(tia, steps);
    while left > 0 {
        let count = left.min(160) as u8;
        pass_objects(tia, count);
        left -= u32::from(count);
    }
}

/// Makes the first of many steps, and answers how many are left. A round of 160 leads a quiet object to
/// where it is, so further rounds change nothing.
#[inline(always)]
fn make_rounds(tia: &mut TiaState, steps: u32) -> u32
    requires range { IsInRange tia.old }
    requires still { any_moves tia.old ≡ false }
    ensures value { made_steps result false tia.new ≡ made_steps steps false tia.old }
    ensures range { IsInRange tia.new }
    ensures still { any_moves tia.new ≡ false }
{
    if steps < 480 {
        return steps;
    }
    pass_objects(tia, 160);
    if !are_quiet(tia) {
        return steps - 160;
    }
    pass_objects(tia, 160);
    (steps - 320) % 160
}

/// Whether each object is quiet.
fn are_quiet(tia: &TiaState) -> bool
    requires { IsInRange tia.now }
    ensures { result ≡ true → AreQuiet tia.now }
{
    tia.player0.is_quiet()
        && tia.player1.is_quiet()
        && tia.missile0.is_quiet(tia.player0.nusiz)
        && tia.missile1.is_quiet(tia.player1.nusiz)
        && tia.ball.is_quiet(tia.ctrlpf)
}

/// So many steps of each object, at least one and at most 160. What was seen is forgotten.
fn pass_objects(tia: &mut TiaState, count: u8)
    requires range { IsInRange tia.old }
    requires still { any_moves tia.old ≡ false }
    requires some { 1 ≤ count }
    requires most { count ≤ 160 }
    ensures value { tia.new ≡ made_steps count false tia.old }
    ensures range { IsInRange tia.new }
    ensures still { any_moves tia.new ≡ false }
{
    let ctrlpf = tia.ctrlpf;
    let (nusiz0, nusiz1) = (tia.player0.nusiz, tia.player1.nusiz);
    tia.player0.pass(count);
    tia.player1.pass(count);
    tia.missile0.pass(nusiz0, 0, count);
    tia.missile1.pass(nusiz1, 0, count);
    tia.ball.pass(ctrlpf, count);
}
