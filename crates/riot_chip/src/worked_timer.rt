//! A worked timer, whose values are those that Stella 6.7 shows.

use crate::timer::Timer;

/// What INTIM shows so many cycles after a write of 1 to TIM64T; the flag's register 7 cycles after
/// that; and INTIM 7 cycles later.
fn readings(cycles: u32) -> [u8; 3] {
    let mut timer = Timer::power_on();
    timer.write(0x16, 1);
    timer.cycles(cycles);
    let first = timer.read(4);
    timer.cycles(7);
    let flag = timer.read(5);
    timer.cycles(7);
    [first, flag, timer.read(4)]
}

#[test]
fn a_read_past_zero_brings_the_interval_back(rt: HostRuntime) {
    assert!(rt; readings(64) == [0x00, 0x80, 0xF2]);
    assert!(rt; readings(65) == [0xFF, 0x80, 0xF1]);
    assert!(rt; readings(66) == [0xFE, 0x00, 0xFE]);
}

/// A timer whose interval is that of a register, with this value written.
fn written(register: u8, value: u8) -> Timer {
    let mut timer = Timer::power_on();
    timer.write(register, value);
    timer
}

#[test]
fn past_zero_the_value_falls_each_cycle(rt: HostRuntime) {
    // TIM64T of 0: the first cycle leads past zero.
    let mut timer = written(0x16, 0);
    timer.cycles(2);
    assert!(rt; timer.read(4) == 0xFE);
}

#[test]
fn the_interval_goes_on_while_the_value_falls_each_cycle(rt: HostRuntime) {
    // The read in the second cycle brings the interval of 64 back, of which one cycle is over.
    let mut timer = written(0x16, 0);
    timer.cycles(2);
    assert!(rt; timer.read(4) == 0xFE);
    timer.cycles(62);
    assert!(rt; timer.read(4) == 0xFE);
    timer.cycles(1);
    assert!(rt; timer.read(4) == 0xFD);
}

#[test]
fn a_read_in_the_cycle_past_zero_leaves_the_flag(rt: HostRuntime) {
    let mut timer = written(0x16, 0);
    timer.cycles(1);
    assert!(rt; timer.read(4) == 0xFF);
    assert!(rt; timer.read(5) == 0x80);
}

#[test]
fn a_write_in_the_cycle_past_zero_leaves_the_flag(rt: HostRuntime) {
    let mut timer = written(0x16, 0);
    timer.cycles(1);
    timer.write(0x16, 7);
    assert!(rt; timer.read(5) == 0x80);
}

#[test]
fn the_flag_is_0_while_the_value_is_0(rt: HostRuntime) {
    let mut timer = written(0x16, 1);
    timer.cycles(64);
    assert!(rt; timer.read(5) == 0);
    assert!(rt; timer.read(4) == 0);
    timer.cycles(1);
    assert!(rt; timer.read(5) == 0x80);
}

#[test]
fn a_read_of_the_flag_leaves_it(rt: HostRuntime) {
    let mut timer = written(0x14, 0);
    timer.cycles(3);
    assert!(rt; timer.read(5) == 0x80);
    assert!(rt; timer.read(7) == 0x80);
}

#[test]
fn a_write_without_line_a4_does_nothing(rt: HostRuntime) {
    let mut timer = written(0x16, 5);
    timer.cycles(1);
    timer.write(0x04, 9);
    assert!(rt; timer.read(4) == 4);
}

#[test]
fn an_interval_of_t1024t_has_1024_cycles(rt: HostRuntime) {
    // The first cycle ends an interval, whatever was written.
    let mut timer = written(0x17, 2);
    timer.cycles(1);
    timer.cycles(1023);
    assert!(rt; timer.read(4) == 1);
    timer.cycles(1);
    assert!(rt; timer.read(4) == 0);
}

#[test]
fn an_interval_of_tim8t_has_8_cycles(rt: HostRuntime) {
    let mut timer = written(0x15, 9);
    timer.cycles(8);
    assert!(rt; timer.read(4) == 8);
    timer.cycles(1);
    assert!(rt; timer.read(4) == 7);
}

#[test]
fn at_power_on_the_interval_is_1024(rt: HostRuntime) {
    let fields = Timer::power_on().fields();
    assert!(rt; fields.interval == 3);
    assert!(rt; fields.part == 1);
    assert!(rt; fields.value == 0);
    assert!(rt; fields.flag == 0);
}
