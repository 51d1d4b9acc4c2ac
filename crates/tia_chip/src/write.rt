//! What a write does, and when.
ghost use Rattle.std.specs.Prelude.{◌≡◌, ◌<◌, ◌≤◌};
ghost use Rattle.tia_chip.specs.Private.Late.{is_there, waits_after, written_of};
ghost use Rattle.tia_chip.specs.Private.Ranges.{IsInRange, IsPlayerInRange};
ghost use Rattle.tia_chip.specs.Write.{acted, after_action, at_once, effect_after};
ghost use Rattle.tia_chip.specs.Write.{after_rsync, is_changed, player_after_write, vblank_of};
ghost use Rattle.tia_chip.specs.Write.{with_changes, with_latching, with_waited_hmove, with_waited_write};
ghost use Rattle.tia_chip.specs.Write.{with_waited_writes, with_waiting};
ghost use Rattle.tia_chip.specs.declared.register.Register.TheVariants.{Grp0, Grp1, Hmclr, Nusiz0};
ghost use Rattle.tia_chip.specs.declared.register.Register.TheVariants.{Nusiz1, Resm0, Resm1};
ghost use Rattle.tia_chip.specs.declared.register.Register.TheVariants.{Resmp0, Resmp1};

use crate::bits::has_bit;
use crate::effect::Effect;
use crate::motion;
use crate::player::Player;
use crate::register::Register;
use crate::state::TiaState;
use crate::waiting::Waiting;

/// VBLANK by the bit 6 of one value and the bit 1 of another.
#[inline(always)]
fn vblank(six: u8, one: u8) -> u8
    ensures { result ≡ vblank_of six one }
{
    (six & 0x40) + (one & 0x02)
}

/// RSYNC: three clocks are left of the line.
fn act_rsync(tia: &mut TiaState)
    ensures { tia.new ≡ after_rsync tia.old }
{
    tia.longer = tia.is_in_blank();
    tia.clock = 225;
}

/// Writes NUSIZ0, which is the missile's too.
fn act_nusiz0(tia: &mut TiaState, value: u8)
    requires { IsInRange tia.old }
    ensures value { tia.new ≡ acted Nusiz0 value tia.old }
    ensures range { IsInRange tia.new }
{
    let nusiz = Register::Nusiz0.keep(value);
    let in_blank = tia.is_in_blank();
    tia.player0.write_nusiz(in_blank, nusiz);
    tia.missile0.write_nusiz(nusiz);
}

/// Writes NUSIZ1, which is the missile's too.
fn act_nusiz1(tia: &mut TiaState, value: u8)
    requires { IsInRange tia.old }
    ensures value { tia.new ≡ acted Nusiz1 value tia.old }
    ensures range { IsInRange tia.new }
{
    let nusiz = Register::Nusiz1.keep(value);
    let in_blank = tia.is_in_blank();
    tia.player1.write_nusiz(in_blank, nusiz);
    tia.missile1.write_nusiz(nusiz);
}

/// Writes GRP0, which makes the other graphic old.
fn act_grp0(tia: &mut TiaState, value: u8)
    requires { IsInRange tia.old }
    ensures value { tia.new ≡ acted Grp0 value tia.old }
    ensures range { IsInRange tia.new }
{
    tia.player0.grp_new = Register::Grp0.keep(value);
    tia.player1.grp_old = tia.player1.grp_new;
}

/// Writes GRP1, which makes the other graphic old, and the ball's enable.
fn act_grp1(tia: &mut TiaState, value: u8)
    requires { IsInRange tia.old }
    ensures value { tia.new ≡ acted Grp1 value tia.old }
    ensures range { IsInRange tia.new }
{
    tia.player1.grp_new = Register::Grp1.keep(value);
    tia.player0.grp_old = tia.player0.grp_new;
    tia.ball.enabl_old = tia.ball.enabl_new;
}

/// Strobes RESM0.
fn act_resm0(tia: &mut TiaState, value: u8)
    requires { IsInRange tia.old }
    ensures value { tia.new ≡ acted Resm0 value tia.old }
    ensures range { IsInRange tia.new }
{
    let in_blank = tia.is_in_blank();
    let late = tia.lateness();
    let nusiz = tia.player0.nusiz;
    tia.missile0.strobe(nusiz, in_blank, late);
}

/// Writes RESMP0.
fn act_resmp0(tia: &mut TiaState, value: u8)
    requires { IsInRange tia.old }
    ensures value { tia.new ≡ acted Resmp0 value tia.old }
    ensures range { IsInRange tia.new }
{
    let resmp = Register::Resmp0.keep(value);
    let player = tia.player0;
    tia.missile0
        .write_resmp(player.width, player.counter, resmp);
}

/// Strobes RESM1.
fn act_resm1(tia: &mut TiaState, value: u8)
    requires { IsInRange tia.old }
    ensures value { tia.new ≡ acted Resm1 value tia.old }
    ensures range { IsInRange tia.new }
{
    let in_blank = tia.is_in_blank();
    let late = tia.lateness();
    let nusiz = tia.player1.nusiz;
    tia.missile1.strobe(nusiz, in_blank, late);
}

/// Writes RESMP1.
fn act_resmp1(tia: &mut TiaState, value: u8)
    requires { IsInRange tia.old }
    ensures value { tia.new ≡ acted Resmp1 value tia.old }
    ensures range { IsInRange tia.new }
{
    let resmp = Register::Resmp1.keep(value);
    let player = tia.player1;
    tia.missile1
        .write_resmp(player.width, player.counter, resmp);
}

/// Clears the motion of all objects.
fn act_hmclr(tia: &mut TiaState)
    requires { IsInRange tia.old }
    ensures value { tia.new ≡ acted Hmclr 0 tia.old }
    ensures range { IsInRange tia.new }
{
    tia.player0.hmp = 0;
    tia.player1.hmp = 0;
    tia.missile0.hmm = 0;
    tia.missile1.hmm = 0;
    tia.ball.hmbl = 0;
}

/// A write of a register acts.
#[inline(always)]
fn act(tia: &mut TiaState, register: Register, value: u8)
    requires { IsInRange tia.old }
    ensures value { tia.new ≡ acted register value tia.old }
    ensures range { IsInRange tia.new }
{
    let late = tia.lateness();
    match register {
        Register::Vsync => tia.vsync = Register::Vsync.keep(value),
        Register::Vblank => tia.vblank = vblank(tia.vblank, value),
        Register::Rsync => act_rsync(tia),
        Register::Nusiz0 => act_nusiz0(tia, value),
        Register::Nusiz1 => act_nusiz1(tia, value),
        Register::Colup0 => tia.colup0 = Register::Colup0.keep(value),
        Register::Colup1 => tia.colup1 = Register::Colup1.keep(value),
        Register::Colupf => tia.colupf = Register::Colupf.keep(value),
        Register::Colubk => tia.colubk = Register::Colubk.keep(value),
        Register::Ctrlpf => tia.ctrlpf = Register::Ctrlpf.keep(value),
        Register::Pf0 => tia.pf0 = Register::Pf0.keep(value),
        Register::Pf1 => tia.pf1 = Register::Pf1.keep(value),
        Register::Pf2 => tia.pf2 = Register::Pf2.keep(value),
        Register::Refp0 => tia.player0.refp = Register::Refp0.keep(value),
        Register::Refp1 => tia.player1.refp = Register::Refp1.keep(value),
        Register::Resp0 => tia.player0.strobe(late),
        Register::Resp1 => tia.player1.strobe(late),
        Register::Resm0 => act_resm0(tia, value),
        Register::Resm1 => act_resm1(tia, value),
        Register::Resbl => tia.ball.strobe(late),
        Register::Grp0 => act_grp0(tia, value),
        Register::Grp1 => act_grp1(tia, value),
        Register::Enam0 => tia.missile0.enam = Register::Enam0.keep(value),
        Register::Enam1 => tia.missile1.enam = Register::Enam1.keep(value),
        Register::Enabl => tia.ball.enabl_new = Register::Enabl.keep(value),
        Register::Hmp0 => tia.player0.hmp = Register::Hmp0.keep(value),
        Register::Hmp1 => tia.player1.hmp = Register::Hmp1.keep(value),
        Register::Hmm0 => tia.missile0.hmm = Register::Hmm0.keep(value),
        Register::Hmm1 => tia.missile1.hmm = Register::Hmm1.keep(value),
        Register::Hmbl => tia.ball.hmbl = Register::Hmbl.keep(value),
        Register::Vdelp0 => tia.player0.vdelp = Register::Vdelp0.keep(value),
        Register::Vdelp1 => tia.player1.vdelp = Register::Vdelp1.keep(value),
        Register::Vdelbl => tia.ball.vdelbl = Register::Vdelbl.keep(value),
        Register::Resmp0 => act_resmp0(tia, value),
        Register::Resmp1 => act_resmp1(tia, value),
        Register::Hmove => motion::start(tia),
        Register::Hmclr => act_hmclr(tia),
        Register::Cxclr => tia.collisions = 0,
        Register::Wsync | Register::Ignored => {}
    }
}

/// Whether a write that made a TIA of `before` changed a player, a missile or the ball.
fn is_changed(before: &TiaState, after: &TiaState) -> bool
    ensures { result ≡ is_changed before.now after.now }
{
    after.player0.is_changed_from(&before.player0)
        || after.player1.is_changed_from(&before.player1)
        || after.missile0.is_changed_from(&before.missile0)
        || after.missile1.is_changed_from(&before.missile1)
        || after.ball.is_changed_from(&before.ball)
}

/// A player after a write that made it of `before`: in the blank it is looked at if it changed.
fn player_after_write(in_blank: bool, before: Player, mut after: Player) -> Player
    requires { IsPlayerInRange after }
    ensures value { result ≡ player_after_write in_blank before after }
    ensures range { IsPlayerInRange result }
{
    if in_blank && after.is_changed_from(&before) {
        after.look();
    }
    after
}

/// Looks at what a write has changed of the TIA.
fn notice(before: &TiaState, after: &mut TiaState)
    requires { IsInRange after.old }
    ensures value { after.new ≡ with_changes before.now after.old }
    ensures range { IsInRange after.new }
{
    let in_blank = after.is_in_blank();
    after.changed = before.changed || is_changed(before, after);
    after.player0 = player_after_write(in_blank, before.player0, after.player0);
    after.player1 = player_after_write(in_blank, before.player1, after.player1);
}

/// A write acts, and what it changes is looked at.
#[inline(always)]
pub fn act_and_notice(tia: &mut TiaState, register: Register, value: u8)
    requires { IsInRange tia.old }
    ensures value { tia.new ≡ after_action register value tia.old }
    ensures range { IsInRange tia.new }
{
    if register.keeps_shown() {
        act(tia, register, value);
        return;
    }
    let before = *tia;
    act(tia, register, value);
    notice(&before, tia);
}

/// VBLANK D6 acts.
fn act_latching(tia: &mut TiaState, value: u8)
    requires { IsInRange tia.old }
    ensures value { tia.new ≡ with_latching value tia.old }
    ensures range { IsInRange tia.new }
{
    tia.vblank = vblank(value, tia.vblank);
    if !has_bit(value, 6) {
        tia.latches = 0;
    }
}

/// What of a write that is put on its way acts at once.
fn act_at_once(tia: &mut TiaState, register: Register, value: u8)
    requires { IsInRange tia.old }
    ensures value { tia.new ≡ at_once register value tia.old }
    ensures range { IsInRange tia.new }
{
    match register {
        Register::Vblank => act_latching(tia, value),
        _ => {}
    }
}

/// Puts a write on its way.
pub fn put_on_its_way(tia: &mut TiaState, register: Register, value: u8)
    requires { IsInRange tia.old }
    ensures value { tia.new ≡ with_waiting register value (at_once register value tia.old) }
    ensures range { IsInRange tia.new }
{
    act_at_once(tia, register, value);
    let clocks = register.delay();
    if register == Register::Hmove {
        tia.hmove = Some(clocks);
    } else {
        tia.waiting = Some(Waiting {
            register,
            value,
            clocks,
        });
    }
}

/// Whether a write that is on its way is known to change nothing.
#[inline(always)]
pub fn is_there(tia: &TiaState, waiting: Waiting) -> bool
    ensures { result ≡ is_there waiting.register waiting.value (written_of tia.now) }
{
    let kept = waiting.register.keep(waiting.value);
    let (player0, player1) = (&tia.player0, &tia.player1);
    match waiting.register {
        Register::Refp0 => player0.refp == kept,
        Register::Refp1 => player1.refp == kept,
        Register::Pf0 => tia.pf0 == kept,
        Register::Pf1 => tia.pf1 == kept,
        Register::Pf2 => tia.pf2 == kept,
        Register::Grp0 => player0.grp_new == kept && player1.grp_old == player1.grp_new,
        Register::Grp1 => {
            player1.grp_new == kept
                && player0.grp_old == player0.grp_new
                && tia.ball.enabl_old == tia.ball.enabl_new
        }
        Register::Enam0 => tia.missile0.enam == kept,
        Register::Enam1 => tia.missile1.enam == kept,
        Register::Enabl => tia.ball.enabl_new == kept,
        _ => false,
    }
}

/// A write on its way after so many clocks, if it is still on its way.
#[inline(always)]
pub fn waits_after(waiting: Waiting, clocks: u32) -> Option<Waiting>
    ensures { result ≡ waits_after clocks waiting }
{
    if clocks <= u32::from(waiting.clocks) {
        Some(Waiting {
            clocks: waiting.clocks - clocks as u8,
            ..waiting
        })
    } else {
        None
    }
}

/// A write that is on its way is a clock nearer, or acts.
fn bring_on_write(tia: &mut TiaState)
    requires { IsInRange tia.old }
    ensures value { tia.new ≡ with_waited_write tia.old }
    ensures range { IsInRange tia.new }
{
    match tia.waiting {
        None => {}
        Some(waiting) if waiting.clocks == 0 => {
            tia.waiting = None;
            act_and_notice(tia, waiting.register, waiting.value);
        }
        Some(waiting) => {
            tia.waiting = Some(Waiting {
                clocks: waiting.clocks - 1,
                ..waiting
            });
        }
    }
}

/// An HMOVE that is on its way is a clock nearer, or acts.
fn bring_on_hmove(tia: &mut TiaState)
    requires { IsInRange tia.old }
    ensures value { tia.new ≡ with_waited_hmove tia.old }
    ensures range { IsInRange tia.new }
{
    match tia.hmove {
        None => {}
        Some(0) => {
            tia.hmove = None;
            motion::start(tia);
        }
        Some(clocks) => tia.hmove = Some(clocks - 1),
    }
}

/// The writes that are on their way are a clock nearer, or act.
pub fn bring_on(tia: &mut TiaState)
    requires { IsInRange tia.old }
    ensures value { tia.new ≡ with_waited_writes tia.old }
    ensures range { IsInRange tia.new }
{
    bring_on_write(tia);
    bring_on_hmove(tia);
}

/// What a write asks of the machine around the TIA.
#[inline(always)]
pub fn effect(tia: &TiaState, register: Register, value: u8) -> Effect
    ensures { result ≡ effect_after tia.now register value }
{
    match register {
        Register::Wsync => Effect::Sync,
        Register::Vsync if has_bit(tia.vsync, 1) && !has_bit(value, 1) => Effect::FrameEnd,
        _ => Effect::Nothing,
    }
}
