//! A desk with worked values, with room for each ticket, and with real threads.
ghost use Rattle.std.specs.Prelude.{◌≡◌, true};
ghost use Rattle.segment_desk.specs.Views.{IsOf};

use crate::expectation::expect_equal;
use segment_desk::{Desk, Ticket};
use std::test::Fail;
use std::thread;
use std::thread::Threads;

#[test]
fn two_tickets_at_a_desk_of_three_numbers(rt: HostRuntime) -> Result<(), Fail> {
    let (desk, mut tickets) = Desk::new(rt.alloc(), 3, 2)?;
    let mut b = tickets.pop().ok_or("a ticket for b")?;
    let mut a = tickets.pop().ok_or("a ticket for a")?;
    assert_eq!(rt; desk.draw(&mut a), Some(0));
    expect_equal(&rt, desk.draw(&mut b), Some(1));
    desk.report_bad(&mut a, 0);
    expect_equal(&rt, desk.draw(&mut b), Some(2));
    expect_equal(&rt, desk.least_bad(&mut b), 0);
    expect_equal(&rt, desk.draw(&mut a), None);
    expect_equal(&rt, desk.draw(&mut b), None);
    desk.hand_in(&mut a, b);
    expect_equal(&rt, desk.draw(&mut a), None);
    expect_equal(&rt, desk.least_bad(&mut a), 0);
    Ok(())
}

#[test]
fn a_desk_is_made_with_a_ticket_for_each_worker(rt: HostRuntime) -> Result<(), Fail> {
    for workers in [1, 3, 64] {
        let (desk, mut tickets) = Desk::new(rt.alloc(), 1, workers)?;
        expect_equal(&rt, tickets.len(), usize::from(workers));
        let mut ticket = tickets.pop().ok_or("a ticket")?;
        expect_equal(&rt, desk.least_bad(&mut ticket), 1);
        expect_equal(&rt, desk.draw(&mut ticket), Some(0));
        expect_equal(&rt, desk.draw(&mut ticket), None);
    }
    Ok(())
}

#[test]
fn a_desk_of_the_most_numbers_takes_no_more_memory(rt: HostRuntime) -> Result<(), Fail> {
    let (desk, mut tickets) = Desk::new(rt.alloc(), u32::MAX, 255)?;
    expect_equal(&rt, tickets.len(), 255);
    let mut ticket = tickets.pop().ok_or("a ticket")?;
    expect_equal(&rt, desk.least_bad(&mut ticket), u32::MAX);
    expect_equal(&rt, desk.draw(&mut ticket), Some(0));
    Ok(())
}

/// How many numbers the desk of the threads has.
const NUMBERS: usize = 5_000;

/// What a worker drew: how often it drew each number, and its ticket.
#[derive(Drop)]
struct Drawn {
    times: [u8; NUMBERS],
    ticket: Ticket,
}

/// Draws until no number is left, and reports each that leaves 6 when it is divided by 7.
fn draw_all(desk: &Desk, mut ticket: Ticket) -> Drawn
    requires { IsOf desk.now ticket }
    ensures { IsOf desk.now result.ticket }
{
    let mut times = [0u8; NUMBERS];
    'draws: while let Some(number) = desk.draw(&mut ticket) {
        if let Some(count) = times.get_mut(number as usize) {
            *count = count.saturating_add(1);
        }
        if number % 7 == 6 {
            desk.report_bad(&mut ticket, number);
        }
    }
    Drawn { times, ticket }
}

/// The same by two tickets, in two threads.
fn draw_by_two<R: Threads>(rt: &R, desk: &Desk, a: Ticket, b: Ticket) -> (Drawn, Drawn)
    requires a { IsOf desk.now a }
    requires b { IsOf desk.now b }
    ensures a { IsOf desk.now result.0.ticket }
    ensures b { IsOf desk.now result.1.ticket }
{
    thread::join(rt, move || draw_all(desk, a), move || draw_all(desk, b))
}

#[test]
fn three_threads_draw_each_number_once(rt: HostRuntime) -> Result<(), Fail> {
    let (desk, mut tickets) = Desk::new(rt.alloc(), NUMBERS as u32, 3)?;
    let c = tickets.pop().ok_or("a ticket for c")?;
    let b = tickets.pop().ok_or("a ticket for b")?;
    let a = tickets.pop().ok_or("a ticket for a")?;
    let shared = &desk;
    let runtime = &rt;
    let (a, (b, c)) = thread::join(
        runtime,
        move || draw_all(shared, a),
        move || draw_by_two(runtime, shared, b, c),
    );
    let times = a.times.iter().zip(b.times.iter().zip(c.times.iter()));
    for (of_a, (of_b, of_c)) in times {
        expect_equal(&rt, of_a.saturating_add(*of_b).saturating_add(*of_c), 1);
    }
    let mut whole = a.ticket;
    desk.hand_in(&mut whole, b.ticket);
    desk.hand_in(&mut whole, c.ticket);
    expect_equal(&rt, desk.draw(&mut whole), None);
    expect_equal(&rt, desk.least_bad(&mut whole), 6);
    Ok(())
}
