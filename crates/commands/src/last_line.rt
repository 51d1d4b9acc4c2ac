//! The last line of what a command writes.
ghost use Rattle.std.specs.Prelude.{◌≡◌, Err, IfErr, IfOk, OnOk, string_bytes};
ghost use Rattle.std.specs.Io.KnownBytes.{Appends, Keeps};
ghost use Rattle.picture_file.specs.Prefixes.{AppendsPrefix};
ghost use Rattle.commands.specs.Frames.{fault_line};
ghost use Rattle.commands.specs.Lines.{line_bytes};
ghost use Rattle.commands.specs.RunErrors.{IsOfWriting};

use crate::line::Line;
use crate::run_error::RunError;
use movie_report::FaultMembers;
use picture_file::write_bytes;
use replay_plan::Notation;
use std::alloc::{AllocError, Global};
use std::io::Write;
use vcs_machine::FaultKind;

/// Writes a text with its end.
fn write_whole<L: Write>(text: &str, lines: &mut L) -> Result<(), RunError>
    ensures ok { OnOk result (Appends (L.contents lines.old) (L.contents lines.new) text.now) }
    ensures only { IfErr result IsOfWriting }
    ensures memory { result ≡ Err RunError.NoMemory → Keeps (L.contents lines.old) (L.contents lines.new) }
    ensures fault { result ≡ Err RunError.WriteFault → AppendsPrefix (L.contents lines.old) (L.contents lines.new) text.now }
{
    match write_bytes(text.as_bytes(), lines) {
        Ok(()) => Ok(()),
        Err(_) => Err(RunError::WriteFault),
    }
}

/// Writes a line as the last one.
pub(crate) fn write_last<L: Write>(alloc: Global, line: Line, lines: &mut L) -> Result<(), RunError>
    ensures ok { OnOk result (Appends (L.contents lines.old) (L.contents lines.new) (line_bytes line)) }
    ensures only { IfErr result IsOfWriting }
    ensures memory { result ≡ Err RunError.NoMemory → Keeps (L.contents lines.old) (L.contents lines.new) }
    ensures fault { result ≡ Err RunError.WriteFault → AppendsPrefix (L.contents lines.old) (L.contents lines.new) (line_bytes line) }
{
    let Ok(text) = line.text(alloc) else {
        return Err(RunError::NoMemory);
    };
    write_whole(&text, lines)
}

/// The last line or object of frames of which this one faults, with its end.
fn fault_line(
    alloc: Global,
    notation: Notation,
    frame: u32,
    kind: FaultKind,
) -> Result<String, AllocError>
    ensures { IfOk result (λ text. string_bytes text ≡ fault_line notation frame kind) }
{
    match notation {
        Notation::Lines => Line::Fault { frame, kind }.text(alloc),
        Notation::Json => format!(in alloc; "{{\"frame\":{frame}{}}}\n", FaultMembers(kind)),
    }
}

/// Writes it.
pub(crate) fn write_fault<L: Write>(
    alloc: Global,
    notation: Notation,
    frame: u32,
    kind: FaultKind,
    lines: &mut L,
) -> Result<(), RunError>
    ensures ok { OnOk result (Appends (L.contents lines.old) (L.contents lines.new) (fault_line notation frame kind)) }
    ensures only { IfErr result IsOfWriting }
    ensures memory { result ≡ Err RunError.NoMemory → Keeps (L.contents lines.old) (L.contents lines.new) }
    ensures fault { result ≡ Err RunError.WriteFault → AppendsPrefix (L.contents lines.old) (L.contents lines.new) (fault_line notation frame kind) }
{
    let Ok(text) = fault_line(alloc, notation, frame, kind) else {
        return Err(RunError::NoMemory);
    };
    write_whole(&text, lines)
}
