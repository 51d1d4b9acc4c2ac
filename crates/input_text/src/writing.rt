//! Printing inputs as text.
ghost use Rattle.std.specs.Prelude.{◌≡◌, ◌≢◌, ◌≤◌, ◌++◌, [], Some, length, take, drop, replicate};
ghost use Rattle.std.specs.Prelude.{slice_get, IfOk, IfSome, MatchOption, OnOk};
ghost use Rattle.std.specs.NonZero.{non_zero_u32_get};
ghost use Rattle.std.specs.String.{string_bytes};
ghost use Rattle.input_text.specs.Stretches.{BeginWith, IsNumbered, IsPrinted, line_of};

use crate::held::is_held;
use crate::name::NAMES;
use crate::stretch::Stretch;
use std::alloc::{AllocError, Global};
use std::num::NonZeroU32;
use vcs_machine::Input;

/// How many inputs from the first on are equal to it.
fn equal_inputs(first: &Input, inputs: &[Input]) -> usize
    ensures within { result ≤ length inputs.now }
    ensures equal { take result inputs.now ≡ replicate result first.now }
    ensures longest { slice_get inputs.now result ≢ Some first.now }
{
    let mut count = 0;
    for input in inputs {
        if input != first {
            return count;
        }
        count += 1;
    }
    count
}

/// The stretch with which inputs begin, as long as it can be, and the inputs after it, or `None` if
/// there are no inputs.
fn first_stretch(inputs: &[Input]) -> Option<(Stretch, &[Input])>
    ensures stretch { MatchOption result (inputs.now ≡ []) (λ p. BeginWith p.0 inputs.now) }
    ensures rest { IfSome result (λ p. p.1.now ≡ drop p.0.count inputs.now) }
    ensures within { IfSome result (λ p. p.0.count ≤ length inputs.now) }
{
    let input = inputs.first()?;
    let count = equal_inputs(input, inputs);
    let stretch = Stretch {
        count: count as u64,
        input: *input,
    };
    Some((stretch, &inputs[count..]))
}

/// Appends a line.
fn put_line(text: &mut String, stretch: Stretch) -> Result<(), AllocError>
    ensures { OnOk result (string_bytes text.new ≡ string_bytes text.old ++ line_of stretch) }
{
    write!(text, "{}", stretch.count)?;
    for name in NAMES {
        if is_held(&stretch.input, name) {
            text.push(' ')?;
            text.push_str(name.named_bit().word)?;
        }
    }
    text.push('\n')?;
    Ok(())
}

/// Inputs as text: a line for each stretch of equal ones, as long as it can be.
#[tactic(auto, using(crate::proofs::Printed::printed_all))]
pub fn write_text(alloc: Global, inputs: &[Input]) -> Result<String, AllocError>
    ensures { IfOk result (λ text. IsPrinted inputs.now (string_bytes text)) }
{
    let mut text = String::new(alloc);
    let mut rest = inputs;
    while let Some((stretch, after)) = first_stretch(rest) {
        put_line(&mut text, stretch)?;
        rest = after;
    }
    Ok(text)
}

/// Inputs as text for a reader who looks for a frame: each line begins with the number of its first
/// frame and a colon. The first input is that of frame `first`.
#[tactic(auto, using(crate::proofs::Printed::numbered_all))]
pub fn write_numbered(
    alloc: Global,
    first: NonZeroU32,
    inputs: &[Input],
) -> Result<String, AllocError>
    ensures { IfOk result (λ listing. IsNumbered (non_zero_u32_get first) inputs.now (string_bytes listing)) }
{
    let mut listing = String::new(alloc);
    let mut frame = u64::from(first.get());
    let mut rest = inputs;
    while let Some((stretch, after)) = first_stretch(rest) {
        write!(listing, "{frame}: ")?;
        frame += stretch.count;
        put_line(&mut listing, stretch)?;
        rest = after;
    }
    Ok(listing)
}
