//! Laws about the definitions.
ghost use Rattle.std.specs.Fn.{iterate};
ghost use Rattle.std.specs.Prelude.{◌≡◌, ◌≢◌, ◌<◌, ◌+◌, ◌⊎◌, ◌||◌, not, ℕ, suc, Bool, false, IsTrue, replicate};
ghost use Rattle.std.specs.Prelude.{◌*◌, ◌%◌, ◌==◌, if◌then◌else◌, bit_or, true, Some, None};
ghost use Rattle.record_table.specs.Numbers.{bytes_of, table_length};
ghost use Rattle.tia_chip.specs.AtRest.{IsCycle, is_at_rest, leaves_at_rest};
ghost use Rattle.tia_chip.specs.Ball.{ball_after_step, is_ball_drawn, is_ball_lit};
ghost use Rattle.tia_chip.specs.Blank.{is_in_blank};
ghost use Rattle.tia_chip.specs.Calm.{IsCalmInBlank, IsCalmInPicture, IsFreeInBlank, after_blank, after_line};
ghost use Rattle.tia_chip.specs.Calm.{after_picture};
ghost use Rattle.tia_chip.specs.Calm.{at_blank_end, at_pixel_after, blank_end, with_rest_of};
ghost use Rattle.tia_chip.specs.Clock.{after_clock, at_pixel};
ghost use Rattle.tia_chip.specs.Bits.{has_bit};
ghost use Rattle.tia_chip.specs.Collision.{pairs_of};
ghost use Rattle.tia_chip.specs.Missile.{is_missile_drawn, is_missile_lit, missile_after_step};
ghost use Rattle.tia_chip.specs.Motion.{after_hmove, player_after_pulse, pulsed, pulses_of};
ghost use Rattle.tia_chip.specs.Numbers.{is_settled, is_tia, tia_numbers};
ghost use Rattle.tia_chip.specs.Objects.{lit_objects};
ghost use Rattle.tia_chip.specs.Player.{player_after_step, shows_one};
ghost use Rattle.tia_chip.specs.PowerOn.{at_frame_start, tia_at_power_on, with_fire};
ghost use Rattle.tia_chip.specs.Pulses.{moving_steps, player_after_pulses, pulsed_player};
ghost use Rattle.tia_chip.specs.Quiet.{IsQuietBall, IsQuietMissile, IsQuietPlayer, ball_mask, counter_after};
ghost use Rattle.tia_chip.specs.Quiet.{keeps_quiet};
ghost use Rattle.tia_chip.specs.Quiet.{missile_mask, player_mask, quiet_ball_after, quiet_missile_after};
ghost use Rattle.tia_chip.specs.Quiet.{quiet_player_after};
ghost use Rattle.tia_chip.specs.Read.{tia_after_read};
ghost use Rattle.tia_chip.specs.Registers.{register_of};
ghost use Rattle.tia_chip.specs.Underway.{IsUnderway};
ghost use Rattle.tia_chip.specs.Write.{after_action, tia_after_write};
ghost use Rattle.tia_chip.specs.declared.ball.Ball.{Ball};
ghost use Rattle.tia_chip.specs.declared.missile.Missile.{Missile};
ghost use Rattle.tia_chip.specs.declared.player.Player.{Player};
ghost use Rattle.tia_chip.specs.declared.register.Register.TheVariants.{Hmove};
ghost use Rattle.tia_chip.specs.declared.state.TiaState.{TiaState};
ghost use Rattle.tia_chip.specs.declared.waiting.Waiting.{Waiting};

/// A record of a TIA has 62 bytes. They are all 0 at power-on, where the numbers are lawful.
#[tactic(auto, unfolding(crate::specs::Numbers::is_tia))]
pub const fn law_of_records()
    ensures length { table_length tia_numbers ≡ 62 }
    ensures power_on { bytes_of tia_numbers tia_at_power_on ≡ replicate 62 0 }
    ensures lawful { IsTrue (is_tia tia_at_power_on) }
{}

/// What is true of the numbers of a TIA that runs, also while writes are on their way. A TIA of a
/// record has such numbers, and each clock, write and read, the buttons and the start of a frame
/// keep them. Those of a settled TIA are lawful in a record.
pub const fn law_of_tias_underway()
    ensures power_on { IsUnderway tia_at_power_on }
    ensures from_record { (t : TiaState) → IsTrue (is_tia t) → IsTrue (is_settled t) → IsUnderway t }
    ensures clock { (t : TiaState) → IsUnderway t → IsUnderway (after_clock t) }
    ensures write { (t : TiaState) (number value : ℕ) → IsUnderway t → IsUnderway (tia_after_write t number value) }
    ensures read { (t : TiaState) (number : ℕ) → IsUnderway t → IsUnderway (tia_after_read t number) }
    ensures fire { (t : TiaState) (fire0 fire1 : Bool) → IsUnderway t → IsUnderway (with_fire t fire0 fire1) }
    ensures frame { (t : TiaState) → IsUnderway t → IsUnderway (at_frame_start t) }
    ensures to_record { (t : TiaState) → IsUnderway t → IsTrue (is_settled t) → IsTrue (is_tia t) }
{}

/// What a cycle of the processor leaves on its way: HMOVE at most, so that a TIA on which none is on
/// its way is at rest then. It stays at rest with reads, and with writes that change VSYNC alone, or
/// nothing. Only a write of HMOVE puts one on its way. No read changes the clock, and a write leaves
/// it, or goes to clock 225. Of a TIA at rest a record says all but its line and its buttons.
pub const fn law_of_cycles()
    ensures cycle { (t : TiaState) → IsUnderway t → IsCycle t (iterate after_clock 3 t) }
    ensures hmove { (t : TiaState) (number value : ℕ) → register_of number ≢ Hmove → (tia_after_write t number value).hmove ≡ t.hmove }
    ensures clock { (t : TiaState) (number value : ℕ) → let after = tia_after_write t number value in (after.clock ≡ t.clock) ⊎ (after.clock ≡ 225) }
    ensures read { (t : TiaState) (number : ℕ) → let after = tia_after_read t number in (after.hmove ≡ t.hmove) × (after.clock ≡ t.clock) }
    ensures written_at_rest { (t : TiaState) (number value : ℕ) → IsTrue (leaves_at_rest (register_of number)) → IsTrue (is_at_rest t) → IsTrue (is_at_rest (tia_after_write t number value)) }
    ensures read_at_rest { (t : TiaState) (number : ℕ) → IsTrue (is_at_rest t) → IsTrue (is_at_rest (tia_after_read t number)) }
    ensures left { (t : TiaState) → IsTrue (is_at_rest t) → IsTrue (is_settled (at_frame_start (with_fire t false false))) }
{}

/// A quiet player shows what its mask has for its counter, and after n steps it is quiet, in a state
/// that its counter and its registers give. So in the next steps it shows the mask's next bits.
pub const fn law_of_quiet_players()
    ensures shows { (p : Player) → IsQuietPlayer p → shows_one p p.copy ≡ player_mask p p.counter }
    ensures steps { (p : Player) (n : ℕ) → IsQuietPlayer p → iterate player_after_step n p ≡ quiet_player_after n p }
    ensures quiet { (p : Player) (n : ℕ) → IsQuietPlayer p → IsQuietPlayer (quiet_player_after n p) }
{}

/// The same of a quiet missile, with NUSIZ of its player, whose steps are in the blank or where HMOVE
/// doesn't move it.
pub const fn law_of_quiet_missiles()
    ensures shows { (nusiz : ℕ) (m : Missile) → IsQuietMissile nusiz m → is_missile_drawn m.copy ≡ missile_mask nusiz m m.counter }
    ensures steps { (nusiz clock : ℕ) (m : Missile) (n : ℕ) → IsQuietMissile nusiz m → IsTrue (keeps_quiet clock m) → iterate (missile_after_step nusiz clock) n m ≡ quiet_missile_after nusiz n m }
    ensures quiet { (nusiz : ℕ) (m : Missile) (n : ℕ) → IsQuietMissile nusiz m → IsQuietMissile nusiz (quiet_missile_after nusiz n m) }
{}

/// The same of a quiet ball, with CTRLPF, whose steps are in the blank or where HMOVE doesn't move it.
pub const fn law_of_quiet_balls()
    ensures shows { (ctrlpf : ℕ) (b : Ball) → IsQuietBall ctrlpf b → is_ball_drawn b.place ≡ ball_mask ctrlpf b.counter }
    ensures steps { (ctrlpf : ℕ) (in_blank : Bool) (b : Ball) (n : ℕ) → IsQuietBall ctrlpf b → IsTrue (not b.moves || in_blank) → iterate (ball_after_step ctrlpf in_blank) n b ≡ quiet_ball_after ctrlpf n b }
    ensures quiet { (ctrlpf : ℕ) (b : Ball) (n : ℕ) → IsQuietBall ctrlpf b → IsQuietBall ctrlpf (quiet_ball_after ctrlpf n b) }
{}

/// In the picture, where no write is on its way and HMOVE moves nothing, n clocks are n steps of each
/// object, but for the playfield and the collisions. The same of the line's last clock, after which the
/// objects are looked at, and of the pixel of each. In the blank such clocks do nothing, and one at which
/// objects move is a pulse alone. Pairs are latched by each clock of the picture, and in the blank by none
/// unless a write has changed an object since the last clock.
pub const fn law_of_calm_clocks()
    ensures picture { (t : TiaState) (n : ℕ) → IsCalmInPicture t → t.clock + suc n < 228 → let after = iterate after_clock (suc n) t in after ≡ with_rest_of after (after_picture (suc n) t) }
    ensures line { (t : TiaState) (n : ℕ) → IsCalmInPicture t → t.clock + suc n ≡ 228 → let after = iterate after_clock (suc n) t in after ≡ with_rest_of after (after_line (suc n) t) }
    ensures pixel { (t : TiaState) (n : ℕ) → IsCalmInPicture t → t.clock + n < 228 → let pixel = at_pixel (iterate after_clock n t) in pixel ≡ with_rest_of pixel (at_pixel_after n t) }
    ensures blank { (t : TiaState) (n : ℕ) → IsCalmInBlank t → t.clock + n < blank_end t → let after = iterate after_clock n t in after ≡ with_rest_of after (after_blank n t) }
    ensures leaves_blank { (t : TiaState) (n : ℕ) → IsCalmInBlank t → t.clock + suc n ≡ blank_end t → let after = iterate after_clock (suc n) t in after ≡ with_rest_of after (at_blank_end (suc n) t) }
    ensures pulse { (t : TiaState) → IsFreeInBlank t → t.clock + 1 < blank_end t → let after = after_clock t in after ≡ with_rest_of after (after_blank 1 (pulsed t)) }
    ensures last_pulse { (t : TiaState) → IsFreeInBlank t → t.clock + 1 ≡ blank_end t → let after = after_clock t in after ≡ with_rest_of after (at_blank_end 1 (pulsed t)) }
    ensures latch { (t : TiaState) → IsCalmInBlank t → t.clock < blank_end t → t.changed ≡ false → (after_clock t).collisions ≡ t.collisions }
    ensures changed { (t : TiaState) (changed : Bool) → IsCalmInPicture t → after_clock (record t { changed = changed }) ≡ after_clock t }
    ensures pairs { (t : TiaState) → IsCalmInPicture t → (after_clock t).collisions ≡ (if has_bit t.vblank 1 then t.collisions else bit_or t.collisions (pairs_of (lit_objects (at_pixel t)))) }
{}

/// The pixels of quiet objects in the picture, where no write is on its way and HMOVE moves nothing: that
/// of clock n is lit by the bit of the mask that is n on from the counter, and after n + 1 clocks the
/// object is as after so many steps, with nothing seen.
pub const fn law_of_quiet_pixels()
    ensures player0 { (t : TiaState) (n : ℕ) → IsCalmInPicture t → t.clock + n < 228 → IsQuietPlayer t.player0 → (lit_objects (at_pixel (iterate after_clock n t))).player0 ≡ player_mask t.player0 (counter_after n t.player0.counter) }
    ensures player1 { (t : TiaState) (n : ℕ) → IsCalmInPicture t → t.clock + n < 228 → IsQuietPlayer t.player1 → (lit_objects (at_pixel (iterate after_clock n t))).player1 ≡ player_mask t.player1 (counter_after n t.player1.counter) }
    ensures missile0 { (t : TiaState) (n : ℕ) → IsCalmInPicture t → t.clock + n < 228 → IsQuietMissile t.player0.nusiz t.missile0 → (lit_objects (at_pixel (iterate after_clock n t))).missile0 ≡ is_missile_lit (record t.missile0 { seen = missile_mask t.player0.nusiz t.missile0 (counter_after n t.missile0.counter) }) }
    ensures missile1 { (t : TiaState) (n : ℕ) → IsCalmInPicture t → t.clock + n < 228 → IsQuietMissile t.player1.nusiz t.missile1 → (lit_objects (at_pixel (iterate after_clock n t))).missile1 ≡ is_missile_lit (record t.missile1 { seen = missile_mask t.player1.nusiz t.missile1 (counter_after n t.missile1.counter) }) }
    ensures ball { (t : TiaState) (n : ℕ) → IsCalmInPicture t → t.clock + n < 228 → IsQuietBall t.ctrlpf t.ball → (lit_objects (at_pixel (iterate after_clock n t))).ball ≡ is_ball_lit (record t.ball { seen = ball_mask t.ctrlpf (counter_after n t.ball.counter) }) }
    ensures after_player0 { (t : TiaState) (n : ℕ) → IsCalmInPicture t → t.clock + suc n < 228 → IsQuietPlayer t.player0 → (iterate after_clock (suc n) t).player0 ≡ record (quiet_player_after (suc n) t.player0) { seen = false } }
    ensures after_player1 { (t : TiaState) (n : ℕ) → IsCalmInPicture t → t.clock + suc n < 228 → IsQuietPlayer t.player1 → (iterate after_clock (suc n) t).player1 ≡ record (quiet_player_after (suc n) t.player1) { seen = false } }
    ensures after_missile0 { (t : TiaState) (n : ℕ) → IsCalmInPicture t → t.clock + suc n < 228 → IsQuietMissile t.player0.nusiz t.missile0 → (iterate after_clock (suc n) t).missile0 ≡ record (quiet_missile_after t.player0.nusiz (suc n) t.missile0) { seen = false } }
    ensures after_missile1 { (t : TiaState) (n : ℕ) → IsCalmInPicture t → t.clock + suc n < 228 → IsQuietMissile t.player1.nusiz t.missile1 → (iterate after_clock (suc n) t).missile1 ≡ record (quiet_missile_after t.player1.nusiz (suc n) t.missile1) { seen = false } }
    ensures after_ball { (t : TiaState) (n : ℕ) → IsCalmInPicture t → t.clock + suc n < 228 → IsQuietBall t.ctrlpf t.ball → (iterate after_clock (suc n) t).ball ≡ record (quiet_ball_after t.ctrlpf (suc n) t.ball) { seen = false } }
{}

/// Clocks with a write on its way are those without it, after which it is so many clocks nearer. That
/// with which it acts is one of the TIA on which it has acted. The same of HMOVE, where no other write is
/// on its way.
pub const fn law_of_waiting_writes()
    ensures waits { (n k : ℕ) (t : TiaState) (w : Waiting) → iterate after_clock n (record t { waiting = Some (record w { clocks = n + k }) }) ≡ record (iterate after_clock n (record t { waiting = None })) { waiting = Some (record w { clocks = k }) } }
    ensures acts { (t : TiaState) (w : Waiting) → after_clock (record t { waiting = Some (record w { clocks = 0 }) }) ≡ after_clock (after_action w.register w.value (record t { waiting = None })) }
    ensures hmove_waits { (n k : ℕ) (t : TiaState) → t.waiting ≡ None → iterate after_clock n (record t { hmove = Some (n + k) }) ≡ record (iterate after_clock n (record t { hmove = None })) { hmove = Some k } }
    ensures hmove_acts { (t : TiaState) → t.waiting ≡ None → after_clock (record t { hmove = Some 0 }) ≡ after_clock (after_hmove (record t { hmove = None })) }
{}

/// HMOVE in the blank, where four clocks are a pulse: n pulses of a player that moves are as many steps as its register leaves of them,
/// by the count, and it goes on moving if each was a step. The sixteen of a blank from its start on are
/// 8 and what its register says: of a line with 8 steps fewer it is that many to the left.
pub const fn law_of_pulses()
    ensures pulse { (t : TiaState) (p : Player) → is_in_blank t ≡ true → player_after_pulse t p ≡ pulsed_player t.pulses p }
    ensures steps { (p : Player) (pulses n : ℕ) → p.moves ≡ true → player_after_pulses pulses n p ≡ record (iterate player_after_step (moving_steps (pulses_of p.hmp) pulses n) p) { moves = moving_steps (pulses_of p.hmp) pulses n == n } }
    ensures four_clocks { (t : TiaState) → IsFreeInBlank t → IsTrue (t.clock % 4 == 0) → t.clock + 4 < blank_end t → let after = iterate after_clock 4 t in after ≡ with_rest_of after (after_blank 4 (pulsed t)) }
    ensures last_four { (t : TiaState) → IsFreeInBlank t → IsTrue (t.clock % 4 == 0) → t.clock + 4 ≡ blank_end t → let after = iterate after_clock 4 t in after ≡ with_rest_of after (at_blank_end 4 (pulsed t)) }
    ensures players { (t : TiaState) (n : ℕ) → IsFreeInBlank t → IsTrue (t.clock % 4 == 0) → t.clock + 4 * n < blank_end t → let after = iterate (iterate after_clock 4) n t in (after.player0 ≡ player_after_pulses t.pulses n t.player0) × (after.player1 ≡ player_after_pulses t.pulses n t.player1) }
    ensures all { (motion : ℕ) → moving_steps (pulses_of motion) 0 16 ≡ pulses_of motion }
{}
