//! Many colour clocks at once, where no write is on its way and nothing moves.
ghost use Rattle.std.specs.Fn.{iterate};
ghost use Rattle.std.specs.Prelude.{◌≡◌, ◌<◌, ◌≤◌, ◌+◌, ◌-◌, ◌^◌, ◌%◌, ◌&&◌, ◌==◌, ℕ, nat_le, nat_lt, true, false};
ghost use Rattle.tia_chip.specs.Bits.{has_bit as bit_of};
ghost use Rattle.tia_chip.specs.Calm.{IsCalm, IsCalmInPicture, blank_end};
ghost use Rattle.tia_chip.specs.Clock.{after_clock};
ghost use Rattle.tia_chip.specs.Clocks.{sink_after_clocks};
ghost use Rattle.tia_chip.specs.Private.Lines.{AreLit, IsAtRestInBlank, IsLatched, gone_on, line_of};
ghost use Rattle.tia_chip.specs.Private.Lines.{lit_at, lit_somewhere, shown_playfield, unlatched_line};
ghost use Rattle.tia_chip.specs.Private.Lines.{with_beam, with_line};
ghost use Rattle.tia_chip.specs.Motion.{any_moves};
ghost use Rattle.tia_chip.specs.Private.Owed.{MayOwe, settled};
ghost use Rattle.tia_chip.specs.Private.Ranges.{IsInRange};

use crate::bits::{bits_at, bits_from, first_bits, has_bit};
use crate::collision::has_pairs;
use crate::colour::colour;
use crate::line::{Line, shown_mirrored, shown_playfield};
use crate::lit_pixels::LitPixels;
use crate::motion::any_moves;
use crate::objects::Objects;
use crate::owed::Owed;
use crate::sight::{forget_seen, look};
use crate::state::TiaState;
use tia_core::Paint;

/// Where more steps than these are owed, no others are.
const MOST_OWED: u32 = 1_000_000;

/// Whether no write is on its way, nothing moves, and pixels are put where the line's clock is.
#[inline(always)]
fn is_calm(tia: &TiaState) -> bool
    ensures { result ≡ true → IsCalm tia.now }
{
    tia.waiting.is_none() && tia.hmove.is_none() && !any_moves(tia) && tia.beam == tia.clock
}

/// Whether the clocks up to the picture do nothing.
#[inline(always)]
pub fn is_at_rest_in_blank(tia: &TiaState) -> bool
    ensures rest { result ≡ true → IsAtRestInBlank tia.now }
    ensures clock { result ≡ true → tia.now.clock < 68 }
{
    tia.clock < 68
        && is_calm(tia)
        && !(tia.changed || tia.playfield || tia.mirrored)
        && !(tia.longer && tia.clock == 0)
}

/// So many clocks up to the picture that do nothing.
#[inline(always)]
pub fn pass_blank(tia: &mut TiaState, owed: &mut Owed, count: u8)
    requires range { IsInRange tia.old }
    requires rest { IsAtRestInBlank tia.old }
    requires some { 1 ≤ count }
    requires end { tia.old.clock + count ≤ 68 }
    ensures value { settled owed.new tia.new ≡ iterate after_clock count (settled owed.old tia.old) }
    ensures range { IsInRange tia.new }
    ensures still { any_moves tia.new ≡ false }
{
    let leaves = leaves_blank(tia, count);
    tia.clock += count;
    tia.beam = tia.clock;
    if leaves {
        forget_seen(tia);
        owed.looked = false;
    }
}

/// Whether the blank is over after so many clocks.
#[inline(always)]
fn leaves_blank(tia: &TiaState, count: u8) -> bool
    requires { tia.now.clock + count ≤ 68 }
    ensures { result ≡ (tia.now.clock + count == blank_end tia.now) }
{
    tia.clock + count == (if tia.longer { 76 } else { 68 })
}

/// Whether the clocks up to the line's end are of the picture, and the objects only make steps.
#[inline(always)]
pub fn is_calm_in_picture(tia: &TiaState) -> bool
    ensures { result ≡ true → IsCalmInPicture tia.now }
{
    tia.clock >= 68 && !tia.longer && is_calm(tia)
}

/// The first of so many clocks of the picture, at least one, whose pixels go to the sink in order. How
/// many they were.
#[inline(never)]
pub fn pass_some<S: Paint>(tia: &mut TiaState, owed: &mut Owed, most: u8, sink: &mut S) -> u8
    requires range { IsInRange tia.old }
    requires calm { IsCalmInPicture tia.old }
    requires some { 1 ≤ most }
    requires end { tia.old.clock + most ≤ 228 }
    ensures some { 1 ≤ result }
    ensures most { result ≤ most }
    ensures value { settled owed.new tia.new ≡ iterate after_clock result (settled owed.old tia.old) }
    ensures sink { sink.new ≡ sink_after_clocks S.drawn sink.old result (settled owed.old tia.old) }
    ensures range { IsInRange tia.new }
    ensures still { MayOwe owed.new tia.new }
{
    if !sink.keeps() && owed.steps <= MOST_OWED && latches_none(tia) {
        pass_latched(tia, owed, most);
        return most;
    }
    owed.settle(tia);
    let count = most.min(64);
    pass_picture(tia, count, sink);
    count
}

/// Whether no pixel latches a pair that isn't latched, wherever the objects are.
fn latches_none(tia: &TiaState) -> bool
    ensures { result ≡ true → IsLatched tia.now (lit_somewhere tia.now) }
{
    has_bit(tia.vblank, 1) || has_pairs(tia.collisions, Objects::lit_somewhere(tia))
}

/// So many clocks of the picture that latch no pair, wherever the objects are.
#[inline(always)]
fn pass_latched(tia: &mut TiaState, owed: &mut Owed, count: u8)
    requires range { IsInRange tia.old }
    requires calm { IsCalmInPicture tia.old }
    requires latched { IsLatched tia.old (lit_somewhere tia.old) }
    requires few { owed.old.steps ≤ 1000000 }
    requires some { 1 ≤ count }
    requires end { tia.old.clock + count ≤ 228 }
    ensures value { settled owed.new tia.new ≡ iterate after_clock count (settled owed.old tia.old) }
    ensures range { IsInRange tia.new }
    ensures still { any_moves tia.new ≡ false }
{
    let line = unlatched_line(tia, count);
    set_line(tia, line);
    let is_over = move_beam(tia, count);
    owed.steps += u32::from(count);
    owed.looked = is_over;
}

/// So many clocks of the picture, at most 64, whose pixels go to the sink in order.
#[inline(never)]
fn pass_picture<S: Paint>(tia: &mut TiaState, count: u8, sink: &mut S)
    requires range { IsInRange tia.old }
    requires calm { IsCalmInPicture tia.old }
    requires some { 1 ≤ count }
    requires most { count ≤ 64 }
    requires end { tia.old.clock + count ≤ 228 }
    ensures value { tia.new ≡ iterate after_clock count tia.old }
    ensures sink { sink.new ≡ sink_after_clocks S.drawn sink.old count tia.old }
    ensures range { IsInRange tia.new }
{
    let before = *tia;
    let lit = LitPixels::of_steps(tia, count);
    let line = line_after(&before, &lit, count, sink);
    end_pixels(tia, line, count);
}

/// Once the objects have made the steps of so many clocks: the playfield, the collisions and the beam.
fn end_pixels(tia: &mut TiaState, line: Line, count: u8)
    requires range { IsInRange tia.old }
    requires collisions { line.collisions < 2 ^ 15 }
    requires picture { 68 ≤ tia.old.clock }
    requires end { tia.old.clock + count ≤ 228 }
    ensures value { tia.new ≡ gone_on count (with_line line tia.old) }
    ensures range { IsInRange tia.new }
{
    set_line(tia, line);
    go_on(tia, count);
}

/// Sets the playfield and the collisions after some clocks.
#[inline(always)]
fn set_line(tia: &mut TiaState, line: Line)
    requires range { IsInRange tia.old }
    requires collisions { line.collisions < 2 ^ 15 }
    ensures value { tia.new ≡ with_line line tia.old }
    ensures range { IsInRange tia.new }
{
    tia.playfield = line.playfield;
    tia.mirrored = line.mirrored;
    tia.collisions = line.collisions;
    tia.changed = false;
}

/// The playfield and the collisions after so many clocks, whose pixels go to the sink in order.
fn line_after<S: Paint>(tia: &TiaState, lit: &LitPixels, count: u8, sink: &mut S) -> Line
    requires range { IsInRange tia.now }
    requires calm { IsCalmInPicture tia.now }
    requires some { 1 ≤ count }
    requires most { count ≤ 64 }
    requires end { tia.now.clock + count ≤ 228 }
    requires lit { AreLit lit.now count tia.now }
    ensures value { result ≡ line_of (iterate after_clock count tia.now) }
    ensures sink { sink.new ≡ sink_after_clocks S.drawn sink.old count tia.now }
    ensures range { result.collisions < 2 ^ 15 }
{
    if !sink.keeps() && latches_nothing(tia, lit, count) {
        unlatched_line(tia, count)
    } else {
        show(tia, lit, count, sink)
    }
}

/// Whether so many pixels latch no pair that isn't latched.
fn latches_nothing(tia: &TiaState, lit: &LitPixels, count: u8) -> bool
    requires range { IsInRange tia.now }
    requires picture { 68 ≤ tia.now.clock }
    requires most { count ≤ 64 }
    requires end { tia.now.clock + count ≤ 228 }
    ensures { result ≡ true → (k : ℕ) → k < count → IsLatched tia.now (lit_at lit.now k (shown_playfield tia.now (tia.now.clock - 68) (tia.now.clock - 68 + k))) }
{
    let pixels = lit.union();
    if pixels == 0 {
        return true;
    }
    if has_bit(tia.vblank, 1) {
        return true;
    }
    let playfield = playfield_in(tia, pixels, count);
    tia.collisions | lit.pairs(playfield) == tia.collisions
}

/// Which of so many pixels the playfield lights, of those that are in a set.
fn playfield_in(tia: &TiaState, pixels: u64, count: u8) -> u64
    requires picture { 68 ≤ tia.now.clock }
    requires most { count ≤ 64 }
    requires end { tia.now.clock + count ≤ 228 }
    ensures { (k : ℕ) → bit_of result k ≡ (nat_lt k count && (bit_of pixels k && shown_playfield tia.now (tia.now.clock - 68) (tia.now.clock - 68 + k))) }
{
    let first = tia.clock - 68;
    let mut lit = 0;
    let mut k = 0;
    while k < count && pixels >> k != 0 {
        let alike = (4 - (first + k) % 4).min(count - k);
        lit |= playfield_part(tia, pixels, first, k, alike);
        k += alike;
    }
    lit
}

/// Which of so many pixels from the k-th on, which show one bit of the playfield, it lights, of those that
/// are in a set.
#[inline(always)]
fn playfield_part(tia: &TiaState, pixels: u64, first: u8, k: u8, count: u8) -> u64
    requires some { 1 ≤ count }
    requires most { k + count ≤ 64 }
    requires alike { (first + k) % 4 + count ≤ 4 }
    requires end { first + k < 160 }
    ensures { (j : ℕ) → bit_of result j ≡ ((nat_le k j && nat_lt j (k + count)) && (bit_of pixels j && shown_playfield tia.now first (first + j))) }
{
    let part = first_bits(bits_from(pixels, k), count);
    if part != 0 && shown_playfield(tia, first, first + k) {
        bits_at(part, k)
    } else {
        0
    }
}

/// The playfield and the collisions after so many clocks that latch no pair.
#[inline(always)]
fn unlatched_line(tia: &TiaState, count: u8) -> Line
    requires picture { 68 ≤ tia.now.clock }
    requires some { 1 ≤ count }
    requires end { tia.now.clock + count ≤ 228 }
    ensures { result ≡ unlatched_line count tia.now }
{
    let first = tia.clock - 68;
    let last = first + (count - 1);
    Line {
        playfield: (last + 1) % 4 != 0 && shown_playfield(tia, first, last),
        mirrored: last < 156 && shown_mirrored(tia, first, last),
        collisions: tia.collisions,
    }
}

/// Puts so many pixels, and latches their pairs.
fn show<S: Paint>(tia: &TiaState, lit: &LitPixels, count: u8, sink: &mut S) -> Line
    requires range { IsInRange tia.now }
    requires calm { IsCalmInPicture tia.now }
    requires most { count ≤ 64 }
    requires end { tia.now.clock + count ≤ 228 }
    requires lit { AreLit lit.now count tia.now }
    ensures value { result ≡ line_of (iterate after_clock count tia.now) }
    ensures sink { sink.new ≡ sink_after_clocks S.drawn sink.old count tia.now }
    ensures range { result.collisions < 2 ^ 15 }
{
    let first = tia.clock - 68;
    let mut line = Line::of(tia);
    for k in 0..count {
        let x = first + k;
        let begun = line.at(tia, x);
        let objects = lit.objects(k, begun.playfield);
        sink.put(tia.line, x, colour(tia, objects, x));
        line = begun.past(tia, x, objects);
    }
    line
}

/// The beam goes on by so many clocks of the picture.
fn go_on(tia: &mut TiaState, count: u8)
    requires range { IsInRange tia.old }
    requires picture { 68 ≤ tia.old.clock }
    requires end { tia.old.clock + count ≤ 228 }
    ensures value { tia.new ≡ gone_on count tia.old }
    ensures range { IsInRange tia.new }
{
    if move_beam(tia, count) {
        look(tia);
    } else {
        forget_seen(tia);
    }
}

/// Moves the beam on by so many clocks of the picture. Whether the line is over.
#[inline(always)]
fn move_beam(tia: &mut TiaState, count: u8) -> bool
    requires range { IsInRange tia.old }
    requires end { tia.old.clock + count ≤ 228 }
    ensures over { result ≡ (tia.old.clock + count == 228) }
    ensures value { tia.new ≡ with_beam result count tia.old }
    ensures range { IsInRange tia.new }
{
    if tia.clock + count == 228 {
        tia.clock = 0;
        tia.beam = 0;
        tia.line = tia.line.wrapping_add(1);
        true
    } else {
        tia.clock += count;
        tia.beam = tia.clock;
        false
    }
}
