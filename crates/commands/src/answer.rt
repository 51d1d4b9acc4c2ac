//! What a command answers.
ghost use Rattle.std.specs.Prelude.{◌≡◌, IfOk, OnOk, OnErr};
ghost use Rattle.std.specs.Io.KnownBytes.{Appends};
ghost use Rattle.picture_file.specs.Prefixes.{AppendsPrefix};
ghost use Rattle.commands.specs.Streams.{WritesPart};

use crate::conclusion::Conclusion;
use crate::line::Line;
use crate::remark::Remark;
use crate::status::Status;
use crate::verdict_text::verdict_text;
use movie_file::{Movie, write_movie};
use picture_file::{WriteFault, write_bytes, write_pictures};
use replay_plan::Notation;
use replay_segments::Verdict;
use std::alloc::{AllocError, Global};
use std::io::Write;
use std::marker::Model;
use vcs_machine::Pictures;

/// What a command writes to a file: bytes, or none, or pictures.
#[derive(Drop)]
enum Contents {
    Bytes(Vec<u8>),
    Pictures(Pictures),
}

/// A status, a text with its end, what a file gets, and what is to be said of an input.
#[derive(Drop)]
pub(crate) struct Answer {
    status: Status,
    text: String,
    file: Contents,
    remark: Option<Remark>,
}

impl Model for Answer {
    ghost use Rattle.std.specs.Prelude.{string_bytes};
    ghost use Rattle.commands.specs.Answers.{AnswerData};
    ghost use Rattle.commands.specs.Private.Contents.{contents_bytes};

    ghost Value = { AnswerData };

    ghost view = { λ a. record { status = a.status; text = string_bytes a.text; file = contents_bytes a.file; remark = a.remark } };
}

impl Contents {
    ghost use Rattle.commands.specs.Private.Contents.{contents_bytes};

    fn write<P: Write>(&self, file: &mut P) -> Result<(), WriteFault>
        ensures ok { OnOk result (Appends (P.contents file.old) (P.contents file.new) (contents_bytes self.now)) }
        ensures fault { OnErr result (AppendsPrefix (P.contents file.old) (P.contents file.new) (contents_bytes self.now)) }
    {
        match self {
            Contents::Bytes(bytes) => write_bytes(bytes, file),
            Contents::Pictures(pictures) => write_pictures(pictures, file),
        }
    }
}

impl Answer {
    ghost use Rattle.std.specs.Prelude.{string_bytes};
    ghost use Rattle.movie_file.specs.Spelling.{spelling};
    ghost use Rattle.commands.specs.Answers.{conclusion_of, line_answer, text_answer};
    ghost use Rattle.commands.specs.Verify.{verdict_answer};

    /// A text alone.
    pub(crate) fn of_text(alloc: Global, status: Status, text: String) -> Answer
        ensures { result ≡ text_answer status (string_bytes text) }
    {
        Answer {
            status,
            text,
            file: Contents::Bytes(Vec::new(alloc)),
            remark: None,
        }
    }

    /// The same answer, with what is to be said of an input.
    pub(crate) fn with_remark(self, remark: Option<Remark>) -> Answer
        ensures { result ≡ record self { remark = remark } }
    {
        Answer { remark, ..self }
    }

    /// How a command ended with it.
    fn conclusion(self) -> Conclusion
        ensures { result ≡ conclusion_of self }
    {
        Conclusion {
            status: self.status,
            remark: self.remark,
        }
    }

    /// A line alone, with its end.
    pub(crate) fn of_line(alloc: Global, line: Line) -> Result<Answer, AllocError>
        ensures { IfOk result (λ answer. answer ≡ line_answer line) }
    {
        let text = line.text(alloc)?;
        Ok(Answer::of_text(alloc, line.status(), text))
    }

    /// Bytes for a file, with this line.
    pub(crate) fn of_bytes(alloc: Global, bytes: Vec<u8>, line: Line) -> Result<Answer, AllocError>
        ensures { IfOk result (λ answer. answer ≡ record (line_answer line) { file = bytes.items }) }
    {
        Ok(Answer {
            file: Contents::Bytes(bytes),
            ..Answer::of_line(alloc, line)?
        })
    }

    /// A movie, with this line.
    pub(crate) fn of_movie(alloc: Global, movie: &Movie, line: Line) -> Result<Answer, AllocError>
        ensures { IfOk result (λ answer. answer ≡ record (line_answer line) { file = spelling movie.now }) }
    {
        let mut bytes = Vec::new(alloc);
        if write_movie(movie, &mut bytes).is_err() {
            return Err(AllocError);
        }
        Answer::of_bytes(alloc, bytes, line)
    }

    /// What is written of a movie with this verdict, and the pictures if it is genuine.
    pub(crate) fn of_verdict(
        alloc: Global,
        notation: Notation,
        movie: &Movie,
        verdict: Verdict,
    ) -> Result<Answer, AllocError>
        ensures { IfOk result (λ answer. answer ≡ verdict_answer notation movie.now verdict) }
    {
        let status = Line::of_verdict(movie, &verdict).status();
        let text = verdict_text(alloc, notation, movie, &verdict)?;
        match verdict {
            Verdict::Genuine { pictures } => Ok(Answer {
                status,
                text,
                file: Contents::Pictures(pictures),
                remark: None,
            }),
            _ => Ok(Answer::of_text(alloc, status, text)),
        }
    }

    /// Writes the text of an answer whose file gets nothing.
    pub(crate) fn write_text<W: Write>(self, text: &mut W) -> Result<Conclusion, WriteFault>
        ensures ok { IfOk result (λ end. (end ≡ conclusion_of self) × Appends (W.contents text.old) (W.contents text.new) self.text) }
        ensures fault { OnErr result (AppendsPrefix (W.contents text.old) (W.contents text.new) self.text) }
    {
        write_bytes(self.text.as_bytes(), text)?;
        Ok(self.conclusion())
    }

    /// Writes the text, then the file.
    pub(crate) fn write_text_first<W: Write, P: Write>(
        self,
        text: &mut W,
        file: &mut P,
    ) -> Result<Conclusion, WriteFault>
        ensures ok { IfOk result (λ end. (end ≡ conclusion_of self) × Appends (W.contents text.old) (W.contents text.new) self.text
            × Appends (P.contents file.old) (P.contents file.new) self.file) }
        ensures fault { OnErr result (WritesPart (W.contents text.old) (W.contents text.new) self.text
            (P.contents file.old) (P.contents file.new) self.file) }
    {
        write_bytes(self.text.as_bytes(), text)?;
        self.file.write(file)?;
        Ok(self.conclusion())
    }

    /// Writes the file, then the text.
    pub(crate) fn write_file_first<P: Write, W: Write>(
        self,
        file: &mut P,
        text: &mut W,
    ) -> Result<Conclusion, WriteFault>
        ensures ok { IfOk result (λ end. (end ≡ conclusion_of self) × Appends (P.contents file.old) (P.contents file.new) self.file
            × Appends (W.contents text.old) (W.contents text.new) self.text) }
        ensures fault { OnErr result (WritesPart (P.contents file.old) (P.contents file.new) self.file
            (W.contents text.old) (W.contents text.new) self.text) }
    {
        self.file.write(file)?;
        write_bytes(self.text.as_bytes(), text)?;
        Ok(self.conclusion())
    }
}
