//! A text of inputs that can't be read.
ghost use Rattle.std.specs.Prelude.{◌≡◌, Err};
ghost use Rattle.input_text.specs.Texts.{inputs_in};

/// A text of inputs, and the number of its first bad line, from 1.
#[derive(Drop)]
pub struct BadText {
    pub(crate) text: Vec<u8>,
    pub(crate) number: u64,
    ghost first_bad: { inputs_in text.items ≡ Err number },
}
