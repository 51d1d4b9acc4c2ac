//! Reading inputs that stand by themselves.
ghost use Rattle.std.specs.Prelude.{◌≡◌, ◌%◌, ◌<◌, List, length, Err, IfOk, Ok};
ghost use Rattle.vcs_machine.specs.Inputs.{InputData};
ghost use Rattle.movie_file.specs.Format.{input_length};
ghost use Rattle.movie_file.specs.InputLists.{SpellsInputs, all_inputs_at};
ghost use Rattle.movie_file.specs.MovieError.{GivesUnlessRefused};

use super::items::inputs_in;
use crate::error::MovieError;
use crate::format::INPUT_LENGTH;
use refused::Refused;
use std::alloc::Global;
use vcs_machine::Input;

/// The inputs that the bytes spell, three bytes each. `Short` comes if the length is no
/// multiple of three, then `NoMemory` if their allocation is refused, then the first `BadInput`.
#[tactic(auto, unfolding(crate::specs::InputLists::all_inputs_at))]
pub fn read_inputs(alloc: Global, bytes: &[u8]) -> Result<Vec<Input>, Refused<MovieError>>
    ensures found { IfOk result (λ inputs. SpellsInputs bytes.now inputs.items) }
    // What the bytes spell is read, unless memory was refused.
    ensures only { (inputs : List InputData) → SpellsInputs bytes.now inputs
        → GivesUnlessRefused (λ read. read.items) result (Ok inputs) }
    ensures exact { GivesUnlessRefused (λ inputs. inputs.items) result (all_inputs_at bytes.now) }
    ensures refused { (e : MovieError) → result ≡ Err (Refused.Of e)
        → all_inputs_at bytes.now ≡ Err e }
    ensures memory { result ≡ Err Refused.NoMemory
        → (length bytes.now % input_length ≡ 0) × (0 < length bytes.now) }
{
    if bytes.len() % INPUT_LENGTH != 0 {
        return Err(Refused::Of(MovieError::Short));
    }
    let count = bytes.len() / INPUT_LENGTH;
    let inputs = Vec::with_capacity(alloc, count)?;
    let (inputs, _) = inputs_in(inputs, count, bytes)?;
    Ok(inputs)
}
