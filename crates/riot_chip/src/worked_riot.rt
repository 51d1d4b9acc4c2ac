//! Worked ports of a RIOT: each bit by hand, from the Stella Programmer's Guide.

use crate::riot::Riot;

/// A RIOT with the pins 3C and C5, F0 in SWACNT, 50 in SWCHA, 0F in SWBCNT and 0A in SWCHB. Lines
/// A4 and A3 of the addresses don't count.
fn riot() -> Riot {
    let mut riot = Riot::power_on();
    riot.set_pins(0x3C, 0xC5);
    riot.write(0x01, 0xF0);
    riot.write(0x18, 0x50);
    riot.write(0x13, 0x0F);
    riot.write(0x0A, 0x0A);
    riot
}

#[test]
fn ports_have_their_own_pins_latches_and_directions(rt: HostRuntime) {
    let mut riot = riot();
    // SWCHA: an output of 0 is 0, and elsewhere the pin counts. SWCHB: an output hides its pin.
    assert!(rt; riot.read(0x00) == 0x1C);
    assert!(rt; riot.read(0x09) == 0xF0);
    assert!(rt; riot.read(0x12) == 0xCA);
    assert!(rt; riot.read(0x1B) == 0x0F);
}

#[test]
fn the_timer_has_line_a2(rt: HostRuntime) {
    let mut riot = riot();
    // TIM1T, which falls with the next cycle.
    riot.write(0x14, 5);
    riot.step();
    assert!(rt; riot.read(0x04) == 4);
    assert!(rt; riot.read(0x00) == 0x1C);
}

#[test]
fn an_output_of_swcha_is_0_where_its_pin_is(rt: HostRuntime) {
    let mut riot = Riot::power_on();
    riot.set_pins(0x3C, 0xFF);
    riot.write(0x01, 0xF0);
    riot.write(0x00, 0x50);
    assert!(rt; riot.read(0x00) == 0x1C);
}

#[test]
fn an_output_of_swchb_hides_its_pin(rt: HostRuntime) {
    let mut riot = Riot::power_on();
    riot.set_pins(0xFF, 0xC5);
    riot.write(0x03, 0x0F);
    riot.write(0x02, 0x0A);
    assert!(rt; riot.read(0x02) == 0xCA);
}

#[test]
fn what_was_written_to_an_input_is_kept(rt: HostRuntime) {
    let mut riot = Riot::power_on();
    riot.write(0x02, 0x5A);
    assert!(rt; riot.read(0x02) == 0xFF);
    riot.write(0x03, 0xFF);
    assert!(rt; riot.read(0x02) == 0x5A);
}

#[test]
fn line_a3_finds_no_other_port(rt: HostRuntime) {
    let mut riot = Riot::power_on();
    riot.write(0x19, 0xF0);
    assert!(rt; riot.read(0x01) == 0xF0);
    assert!(rt; riot.read(0x09) == 0xF0);
}

#[test]
fn lines_a3_and_a1_find_no_other_register_of_a_read_timer(rt: HostRuntime) {
    let mut riot = Riot::power_on();
    riot.write(0x1C, 5);
    riot.step();
    assert!(rt; riot.read(0x06) == 4);
    assert!(rt; riot.read(0x1E) == 4);
}

#[test]
fn intervals_go_on_past_zero(rt: HostRuntime) {
    let mut riot = Riot::power_on();
    // TIM64T of 1 is 0 from the first cycle to the 64th. From the 65th on the value falls in each
    // cycle. 300 cycles later 20 are left of an interval, which the read of INTIM brings back.
    riot.write(0x16, 1);
    riot.steps(64);
    assert!(rt; riot.read(0x04) == 0x00);
    riot.steps(301);
    assert!(rt; riot.read(0x05) == 0x80);
    assert!(rt; riot.read(0x04) == 0xD3);
    riot.steps(19);
    assert!(rt; riot.read(0x04) == 0xD3);
    riot.steps(1);
    assert!(rt; riot.read(0x04) == 0xD2);
}

#[test]
fn intim_shows_2_for_two_intervals(rt: HostRuntime) {
    let mut riot = Riot::power_on();
    // TIM8T of 4: its first cycle leads to 3, and 2 is shown at least until 16 cycles more are over.
    riot.write(0x15, 4);
    assert!(rt; riot.cycles_at_least(2) == 17);
    riot.steps(16);
    assert!(rt; riot.read(0x04) == 2);
    assert!(rt; riot.cycles_at_least(2) == 1);
    riot.steps(1);
    assert!(rt; riot.read(0x04) == 1);
    assert!(rt; riot.cycles_at_least(2) == 0);
}
