//! Facts as they are written.
use replay_plan::Notation;
use std::fmt;

/// A fact that is a number: the notation, the name of its member, what stands before the number in
/// its line, the number, and what stands after it there.
#[derive(Clone, Copy)]
pub(crate) struct NumberFact(
    pub Notation,
    pub &'static str,
    pub &'static str,
    pub u32,
    pub &'static str,
);

impl fmt::Display for NumberFact {
    ghost use Rattle.std.specs.Prelude.{Some};
    ghost use Rattle.movie_report.specs.Notations.{number_fact};

    ghost output = { λ f. Some (number_fact f.0 f.1.now f.2.now f.3 f.4.now) };

    fn fmt<W: fmt::Write>(&self, f: &mut fmt::Formatter<W>) -> fmt::Result {
        let NumberFact(notation, name, before, number, after) = *self;
        match notation {
            Notation::Lines => write!(f, "{before}{number}{after}\n"),
            Notation::Json => write!(f, ",\"{name}\":{number}"),
        }
    }
}

/// A fact that is a word: the notation, the name of its member, what stands before the word in its
/// line, and the word, which has no quotation mark, backslash or control character.
#[derive(Clone, Copy)]
pub(crate) struct WordFact<'a>(
    pub Notation,
    pub &'static str,
    pub &'static str,
    pub &'a str,
);

impl fmt::Display for WordFact<'_> {
    ghost use Rattle.std.specs.Prelude.{Some};
    ghost use Rattle.movie_report.specs.Notations.{word_fact};

    ghost output = { λ f. Some (word_fact f.0 f.1.now f.2.now f.3.now) };

    fn fmt<W: fmt::Write>(&self, f: &mut fmt::Formatter<W>) -> fmt::Result {
        let WordFact(notation, name, before, word) = *self;
        match notation {
            Notation::Lines => write!(f, "{before}{word}\n"),
            Notation::Json => write!(f, ",\"{name}\":\"{word}\""),
        }
    }
}

/// A fact that is an answer: the notation, the name of its member, what stands before the answer in
/// its line, and the answer. Nothing is written where there is none.
#[derive(Clone, Copy)]
pub(crate) struct AnswerFact(
    pub Notation,
    pub &'static str,
    pub &'static str,
    pub Option<bool>,
);

impl fmt::Display for AnswerFact {
    ghost use Rattle.std.specs.Prelude.{Some};
    ghost use Rattle.movie_report.specs.Notations.{answer_fact};

    ghost output = { λ f. Some (answer_fact f.0 f.1.now f.2.now f.3) };

    fn fmt<W: fmt::Write>(&self, f: &mut fmt::Formatter<W>) -> fmt::Result {
        let AnswerFact(notation, name, before, answer) = *self;
        match (notation, answer) {
            (_, None) => Ok(()),
            (Notation::Lines, Some(true)) => write!(f, "{before}yes\n"),
            (Notation::Lines, Some(false)) => write!(f, "{before}no\n"),
            (Notation::Json, Some(true)) => write!(f, ",\"{name}\":true"),
            (Notation::Json, Some(false)) => write!(f, ",\"{name}\":false"),
        }
    }
}
