//! The program's version, in each text that has it.
ghost use Rattle.std.specs.Prelude.{◌≡◌};
ghost use Rattle.command_line.specs.Program.{program_name};

/// What `-V` prints after the program's name.
pub(crate) const VERSION: &str = "2.0.0";

/// What `--version` prints after the program's name.
pub(crate) const VERSIONS: &str = "2.0.0
movies: versions 1, 2 and 3
machine: revision 1 of its rules";

/// What a report says of the program.
const PROGRAM: &str = "vcs_check 2.0.0, revision 1 of the machine's rules";

/// The program with its version, as a report names it. The text has no quotation mark, backslash or
/// control character.
pub fn program_name() -> &'static str
    ensures { result.now ≡ program_name }
{
    PROGRAM
}
