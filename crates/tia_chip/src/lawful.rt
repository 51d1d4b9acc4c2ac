//! Which numbers are those of a TIA.
ghost use Rattle.std.specs.Prelude.{◌≡◌};
ghost use Rattle.record_table.specs.Numbers.{are_lawful};
ghost use Rattle.tia_chip.specs.Numbers.{beam_numbers, colour_numbers, counter_numbers, is_ball};
ghost use Rattle.tia_chip.specs.Numbers.{is_beam, is_missile_copy, is_player, is_settled, is_tia};
ghost use Rattle.tia_chip.specs.Numbers.{motion_numbers, object_numbers, place_numbers};
ghost use Rattle.tia_chip.specs.Numbers.{player_numbers, size_numbers, tia_numbers};
ghost use Rattle.tia_chip.specs.Registers.{fits_register};

use crate::ball::Ball;
use crate::bits::has_bit;
use crate::collision::number_of;
use crate::missile::MissileCopy;
use crate::motion::any_moves;
use crate::numbers::{
    ball_copy_number, bit_number, missile_copy_number, moves_number, own_size_number,
    player_copy_number, seen_number, size_number,
};
use crate::player::{Player, width};
use crate::register::Register;
use crate::state::TiaState;

/// Whether a number has no other bits than those that a register keeps.
fn fits(register: Register, number: u8) -> bool
    ensures { result ≡ fits_register register number }
{
    register.keep(number) == number
}

/// Whether a copy that isn't drawn yet is at bit 0, the width is one that there is, and a change is
/// waited for exactly where it isn't that of NUSIZ.
fn is_player(player: &Player) -> bool
    ensures { result ≡ is_player player.now }
{
    let is_begun = 7 <= player_copy_number(player.copy) || bit_number(player.copy) == 0;
    let is_width = player.width == 1 || player.width == 2 || player.width == 4;
    let is_awaited = if player.width == width(player.nusiz) {
        player.change == 0
    } else {
        player.change != 0
    };
    is_begun && is_width && is_awaited
}

/// Whether a copy that isn't drawn yet has no own size.
fn is_missile_copy(copy: Option<MissileCopy>) -> bool
    ensures { result ≡ is_missile_copy copy }
{
    5 <= missile_copy_number(copy) || own_size_number(copy) == 0
}

/// Whether the own size of the ball is one that there is.
fn is_ball(ball: &Ball) -> bool
    ensures { result ≡ is_ball ball.now }
{
    size_number(ball.own_size) < 4 || ball.own_size == 0
}

impl TiaState {
    fn has_lawful_colours(&self) -> bool
        ensures { result ≡ are_lawful colour_numbers self.now }
    {
        fits(Register::Vsync, self.vsync)
            && fits(Register::Vblank, self.vblank)
            && fits(Register::Nusiz0, self.player0.nusiz)
            && fits(Register::Nusiz1, self.player1.nusiz)
            && fits(Register::Colup0, self.colup0)
            && fits(Register::Colup1, self.colup1)
            && fits(Register::Colupf, self.colupf)
            && fits(Register::Colubk, self.colubk)
    }

    fn has_lawful_objects(&self) -> bool
        ensures { result ≡ are_lawful object_numbers self.now }
    {
        fits(Register::Ctrlpf, self.ctrlpf)
            && fits(Register::Refp0, self.player0.refp)
            && fits(Register::Refp1, self.player1.refp)
            && fits(Register::Pf0, self.pf0)
            && fits(Register::Enam0, self.missile0.enam)
            && fits(Register::Enam1, self.missile1.enam)
            && fits(Register::Enabl, self.ball.enabl_new)
            && fits(Register::Enabl, self.ball.enabl_old)
    }

    fn has_lawful_motion(&self) -> bool
        ensures { result ≡ are_lawful motion_numbers self.now }
    {
        fits(Register::Hmp0, self.player0.hmp)
            && fits(Register::Hmp1, self.player1.hmp)
            && fits(Register::Hmm0, self.missile0.hmm)
            && fits(Register::Hmm1, self.missile1.hmm)
            && fits(Register::Hmbl, self.ball.hmbl)
            && fits(Register::Vdelp0, self.player0.vdelp)
            && fits(Register::Vdelp1, self.player1.vdelp)
            && fits(Register::Vdelbl, self.ball.vdelbl)
            && fits(Register::Resmp0, self.missile0.resmp)
            && fits(Register::Resmp1, self.missile1.resmp)
    }

    fn has_lawful_counters(&self) -> bool
        ensures { result ≡ are_lawful counter_numbers self.now }
    {
        self.player0.counter < 160
            && self.player1.counter < 160
            && self.missile0.counter < 160
            && self.missile1.counter < 160
            && self.ball.counter < 160
    }

    fn has_lawful_players(&self) -> bool
        ensures { result ≡ are_lawful player_numbers self.now }
    {
        player_copy_number(self.player0.copy) < 11
            && player_copy_number(self.player1.copy) < 11
            && bit_number(self.player0.copy) < 8
            && bit_number(self.player1.copy) < 8
            && self.player0.width / 2 < 3
            && self.player1.width / 2 < 3
            && self.player0.change < 6
            && self.player1.change < 6
    }

    fn has_lawful_places(&self) -> bool
        ensures { result ≡ are_lawful place_numbers self.now }
    {
        missile_copy_number(self.missile0.copy) < 13
            && missile_copy_number(self.missile1.copy) < 13
            && ball_copy_number(self.ball.place) < 13
            && number_of(&[self.mirrored]) < 2
            && number_of(&[self.playfield]) < 2
    }

    fn has_lawful_beam(&self) -> bool
        ensures { result ≡ are_lawful beam_numbers self.now }
    {
        self.collisions < 0x8000
            && moves_number(self) < 32
            && self.pulses < 17
            && self.latches < 4
            && self.clock / 3 < 76
            && number_of(&[self.longer]) < 2
    }

    fn has_lawful_sizes(&self) -> bool
        ensures { result ≡ are_lawful size_numbers self.now }
    {
        own_size_number(self.missile0.copy) < 4
            && own_size_number(self.missile1.copy) < 4
            && size_number(self.ball.own_size) < 5
            && self.ball.phase < 4
            && seen_number(self) < 32
    }

    /// Whether the numbers of the line fit the clock.
    fn fits_clock(&self) -> bool
        ensures { result ≡ is_beam self.now }
    {
        let clock = self.clock;
        (!self.longer || (clock != 0 && (clock < 76 || 225 <= clock)))
            && (!self.playfield || (69 <= clock && clock % 4 != 0))
            && (!self.mirrored || (149 <= clock && clock < 225))
            && (self.is_in_blank() || seen_number(self) == 0)
    }

    /// Whether each number is one that it may be.
    #[tactic(auto, using(crate::proofs::NumberLemmas::of_parts))]
    fn has_lawful_numbers(&self) -> bool
        ensures { result ≡ are_lawful tia_numbers self.now }
    {
        self.has_lawful_colours()
            && self.has_lawful_objects()
            && self.has_lawful_motion()
            && self.has_lawful_counters()
            && self.has_lawful_players()
            && self.has_lawful_places()
            && self.has_lawful_beam()
            && self.has_lawful_sizes()
    }

    /// Whether there is a TIA of these numbers, on which no write is on its way.
    #[tactic(auto, unfolding(crate::specs::Numbers::is_tia))]
    pub fn is_lawful(&self) -> bool
        ensures { result ≡ is_tia self.now }
    {
        self.has_lawful_numbers()
            && is_player(&self.player0)
            && is_player(&self.player1)
            && is_missile_copy(self.missile0.copy)
            && is_missile_copy(self.missile1.copy)
            && is_ball(&self.ball)
            && self.fits_clock()
            && (any_moves(self) || self.pulses == 0)
            && (has_bit(self.vblank, 6) || self.latches == 0)
    }

    /// Whether a record says all of it, between two cycles of the processor: no write is on its
    /// way, pixels come where the line's clock is, and the line and the buttons are as when a
    /// console is switched on.
    pub fn is_settled(&self) -> bool
        ensures { result ≡ is_settled self.now }
    {
        self.waiting.is_none()
            && self.hmove.is_none()
            && !self.changed
            && self.beam == self.clock
            && self.line == 0
            && !self.fire0
            && !self.fire1
    }
}
