//! The counters of players, missiles and the ball.
ghost use Rattle.std.specs.Prelude.{◌≡◌, ◌<◌, ◌≤◌, ◌+◌, ◌-◌, ◌%◌, min, ℕ, false, true};
ghost use Rattle.tia_chip.specs.Counter.{next_counter, strobed_counter, begins_copy};
ghost use Rattle.tia_chip.specs.Quiet.{age_of, begins_within, counter_after};

/// A counter after a step.
#[inline(always)]
pub fn next_counter(counter: u8) -> u8
    requires { counter < 160 }
    ensures value { result ≡ next_counter counter }
    ensures range { result < 160 }
{
    if counter == 159 { 0 } else { counter + 1 }
}

/// What a strobe sets a counter to, if it takes effect so many steps late.
#[inline(always)]
pub fn strobed_counter(late: u8) -> u8
    requires { late ≤ 2 }
    ensures value { result ≡ strobed_counter late }
    ensures range { result < 160 }
{
    157 + late
}

/// Whether a copy begins with the step of this counter, by NUSIZ D2 to D0.
#[inline(always)]
pub fn begins_copy(mode: u8, counter: u8) -> bool
    ensures { result ≡ begins_copy mode counter }
{
    counter == 156
        || match mode {
            1 => counter == 12,
            2 => counter == 28,
            3 => counter == 12 || counter == 28,
            4 => counter == 60,
            6 => counter == 28 || counter == 60,
            _ => false,
        }
}

/// A counter after so many steps.
#[inline(always)]
pub fn counter_after(steps: u8, counter: u8) -> u8
    requires steps { steps ≤ 160 }
    requires range { counter < 160 }
    ensures value { result ≡ counter_after steps counter }
    ensures range { result < 160 }
{
    if counter >= 160 - steps {
        counter - (160 - steps)
    } else {
        counter + steps
    }
}

/// So many steps come, at least, before one with which a copy may begin by some NUSIZ.
#[inline(always)]
pub fn steps_to_copy(counter: u8) -> u8
    requires { counter < 160 }
    ensures none { (mode k : ℕ) → k < result → begins_copy mode (counter_after k counter) ≡ false }
    ensures most { result ≤ 96 }
{
    if counter <= 12 {
        12 - counter
    } else if counter <= 28 {
        28 - counter
    } else if counter <= 60 {
        60 - counter
    } else if counter <= 156 {
        156 - counter
    } else {
        172 - counter
    }
}

/// How many steps have passed since the one with which the last copy began, if that is the one of this
/// counter or the one of counter 156 in the round before.
#[inline(always)]
fn since(counter: u8, beginning: u8) -> u8
    requires counter { counter ≤ 156 }
    requires beginning { beginning < 156 }
    ensures value { result ≡ min ((counter + 159 - 156) % 160) ((counter + 159 - beginning) % 160) }
    ensures range { result < 160 }
{
    if counter > beginning {
        counter - beginning - 1
    } else {
        counter + 3
    }
}

/// How many steps have passed since the one with which the last copy began, by NUSIZ D2 to D0.
#[inline(always)]
pub fn age(mode: u8, counter: u8) -> u8
    requires { counter < 160 }
    ensures value { result ≡ age_of mode counter }
    ensures range { result < 160 }
{
    if counter > 156 {
        return counter - 157;
    }
    match mode {
        1 => since(counter, 12),
        2 => since(counter, 28),
        3 if counter <= 28 => since(counter, 12),
        3 => counter - 29,
        4 => since(counter, 60),
        6 if counter <= 60 => since(counter, 28),
        6 => counter - 61,
        _ => counter + 3,
    }
}

/// The counter of the first step, from this one to that of counter 156, with which a copy begins, by
/// NUSIZ D2 to D0.
#[inline(always)]
fn next_beginning(mode: u8, counter: u8) -> u8
    requires { counter ≤ 156 }
    ensures from { counter ≤ result }
    ensures to { result ≤ 156 }
    ensures none { (c : ℕ) → counter ≤ c → c < result → begins_copy mode c ≡ false }
{
    match mode {
        1 if counter <= 12 => 12,
        2 if counter <= 28 => 28,
        3 if counter <= 12 => 12,
        3 if counter <= 28 => 28,
        4 if counter <= 60 => 60,
        6 if counter <= 28 => 28,
        6 if counter <= 60 => 60,
        _ => 156,
    }
}

/// So many steps come, at least, before one with which a copy begins, by NUSIZ D2 to D0.
#[inline(always)]
pub fn steps_to_beginning(mode: u8, counter: u8) -> u8
    requires { counter < 160 }
    ensures none { (k : ℕ) → k < result → begins_copy mode (counter_after k counter) ≡ false }
    ensures most { result < 160 }
{
    if counter > 156 {
        159 - counter
    } else {
        next_beginning(mode, counter) - counter
    }
}

/// Whether no copy begins with the next steps, by NUSIZ D2 to D0, and the counter doesn't go round.
#[inline(always)]
pub fn is_free_for(mode: u8, counter: u8, count: u8) -> bool
    ensures begins { result ≡ true → (k : ℕ) → k < count → begins_copy mode (counter_after k counter) ≡ false }
    ensures sum { result ≡ true → counter + count ≤ 156 }
{
    counter <= 156 && next_beginning(mode, counter) - counter >= count
}

/// Whether a copy of the ball begins with one of the next steps.
#[inline(always)]
pub fn begins_within(steps: u8, counter: u8) -> bool
    requires { counter < 160 }
    ensures { result ≡ begins_within steps counter }
{
    let wait = if counter <= 156 {
        156 - counter
    } else {
        156 + (160 - counter)
    };
    wait < steps
}
