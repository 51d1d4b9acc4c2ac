//! What an opcode stands for.

use crate::mode::Mode;
use crate::operation::Operation;

/// The row of an opcode in the table of instructions.
///
/// `cycles` are those of an instruction that crosses no page and takes no branch. `crossing` is
/// true if indexing that crosses a page costs one more.
#[derive(Clone, Copy, Debug, PartialEq, Eq)]
pub struct Row {
    pub operation: Operation,
    pub mode: Mode,
    pub cycles: u8,
    pub crossing: bool,
}
