//! Laws about the definitions.
ghost use Rattle.std.specs.Prelude.{◌≡◌, ◌≤◌, ℕ, List, length, Ok};
ghost use Rattle.std.specs.List.{AllByRecursion, list_any};
ghost use Rattle.std.specs.Str.{bytes_eq};
ghost use Rattle.vcs_machine.specs.Inputs.{InputData};
ghost use Rattle.input_text.specs.Names.{bit_of_name, input_with, is_held, names_in};
ghost use Rattle.input_text.specs.Names.{IsInputOfBytes};
ghost use Rattle.input_text.specs.Stretches.{IsPrinted};
ghost use Rattle.input_text.specs.Texts.{inputs_in, most_frames};
ghost use Rattle.input_text.specs.declared.name.Name.{Name};

/// A law: in the input of some names those are held and no others, and an input is that of the
/// names that are held in it.
#[tactic(auto, using(crate::proofs::HeldNames::held_found, crate::proofs::HeldNames::holding_held))]
pub const fn law_of_held_names()
    ensures held { (held : List Name) (name : Name) → is_held (input_with held) name
        ≡ list_any (λ other. bytes_eq (bit_of_name other).word (bit_of_name name).word) held }
    ensures input { (c : InputData) → IsInputOfBytes c → input_with (names_in c) ≡ c }
{}

/// A law: inputs that are printed and read again are the same inputs.
pub const fn law_of_printed_inputs()
    ensures { (inputs : List InputData) (text : List ℕ) → AllByRecursion IsInputOfBytes inputs
        → length inputs ≤ most_frames → IsPrinted inputs text → inputs_in text ≡ Ok inputs }
{}

/// A law: inputs are printed in one way.
pub const fn law_of_one_text()
    ensures { (inputs : List InputData) (a b : List ℕ) → IsPrinted inputs a → IsPrinted inputs b
        → a ≡ b }
{}
