//! What is advised about words that are no command.
ghost use Rattle.std.specs.Prelude.{◌≡◌, ◌↔◌, IfOk, IfSome, IsSome, None, Some, codes, slice_get};
ghost use Rattle.vcs_check.specs.Lines.{ExplainsHelp, texts_of, without_explain};

use crate::reasons::{has_explain, write_reason};
use clap::error::ErrorKind;
use command_line::{CommandLine, LineFault, is_command, parse_line};
use refused::Refused;
use std::alloc::{AllocError, Global};
use std::fmt;
use std::io::Eprint;
use std::rt::Files;

/// What stands between paragraphs.
const BLANK: &str = "\n\n";

/// How advice begins.
const TIP: &str = "  tip: ";

/// How the advice begins to let a word follow `--`.
const DASHES: &str = "  tip: to pass ";

/// An option that is none, and like none.
const UNLIKE: &str = "--0";

/// Why words are no command.
#[derive(Drop)]
struct Mistake {
    kind: ErrorKind,
    text: String,
}

/// The paragraphs of what is said of words that are no command.
#[derive(Drop)]
struct Said<'a> {
    reason: &'a str,
    advice: Option<&'a str>,
    /// The usage, and what stands below it.
    usage: &'a str,
}

impl Said<'_> {
    /// The paragraphs of a text, if it has more than one.
    fn of(text: &str) -> Option<Said<'_>> {
        let (reason, rest) = text.split_once(BLANK)?;
        if !rest.starts_with(TIP) {
            return Some(Said {
                reason,
                advice: None,
                usage: rest,
            });
        }
        let (advice, usage) = rest.split_once(BLANK)?;
        Some(Said {
            reason,
            advice: Some(advice),
            usage,
        })
    }
}

/// How to write what was meant.
#[derive(Drop)]
enum Advice<'a> {
    /// An option has the name of this command.
    Command { name: &'a str },
    /// A command has the name of the option `version`.
    Version,
    /// The command has this name in small letters.
    SmallLetters { name: String },
    /// The words make a command with `verify` as the first.
    Verify,
    /// A file is one too many for a command that judges a movie.
    Judge,
}

impl fmt::Display for Advice<'_> {
    fn fmt<W: fmt::Write>(&self, f: &mut fmt::Formatter<W>) -> fmt::Result {
        match self {
            Advice::Command { name } => write!(f, "a command exists: '{name}'"),
            Advice::Version => f.write_str("an option exists: '--version'"),
            Advice::SmallLetters { name } => { write!(f, "a similar subcommand exists: '{name}'") }
            Advice::Verify => f.write_str("to judge a movie, put 'verify' first"),
            Advice::Judge => {
                f.write_str("'vcs_judge DIR --out VERDICTS' judges each movie of a folder")
            }
        }
    }
}

/// Whether words are a command.
fn are_command(alloc: Global, words: &[&str]) -> Result<bool, AllocError> {
    match parse_line(alloc, words) {
        Err(Refused::NoMemory) => Err(AllocError),
        answer => Ok(answer.is_ok()),
    }
}

/// Why words are no command, if they are none and ask for nothing.
fn mistake_in(alloc: Global, words: &[&str]) -> Result<Option<Mistake>, AllocError> {
    match parse_line(alloc, words) {
        Err(Refused::NoMemory) => Err(AllocError),
        Err(Refused::Of(LineFault::Usage { kind, text })) => Ok(Some(Mistake { kind, text })),
        _ => Ok(None),
    }
}

/// The place of the word that is no argument or no command: the first with which words are a mistake of
/// this kind. Other kinds blame no word.
fn place_of(alloc: Global, words: &[String], kind: ErrorKind) -> Result<Option<usize>, AllocError> {
    if !matches!(
        kind,
        ErrorKind::UnknownArgument | ErrorKind::InvalidSubcommand
    ) {
        return Ok(None);
    }
    for place in 0..words.len() {
        match parse_line(alloc, &words[..place + 1]) {
            Err(Refused::NoMemory) => return Err(AllocError),
            Err(Refused::Of(LineFault::Usage { kind: told, .. })) if told == kind => {
                return Ok(Some(place));
            }
            _ => {}
        }
    }
    Ok(None)
}

/// Whether words are a command if `--` stands before the one at this place.
fn are_command_with_dashes(
    alloc: Global,
    words: &[String],
    place: usize,
) -> Result<bool, AllocError> {
    let mut advised = Vec::with_capacity(alloc, words.len())?;
    for (number, word) in words.iter().enumerate() {
        if number == place {
            advised.push("--")?;
        }
        advised.push(word.as_str())?;
    }
    are_command(alloc, &advised)
}

/// Whether an option that is none is a whole word: it isn't one letter of more, and no value follows it.
fn is_whole(option: &str) -> bool {
    match option.strip_prefix("--") {
        Some(name) => !name.contains('='),
        None => option.chars().count() == 2,
    }
}

/// Whether words are a command if `--` stands before the one at this place, which is no argument.
fn are_command_by_dashes(
    alloc: Global,
    words: &[String],
    place: usize,
) -> Result<bool, AllocError> {
    match words.get(place) {
        Some(word) if is_whole(word) => are_command_with_dashes(alloc, words, place),
        _ => Ok(false),
    }
}

/// Whether the first word names a command, or asks for help.
fn name_a_command(words: &[String]) -> bool {
    match words {
        [_, first, ..] => first.as_str() == "help" || is_command(first),
        _ => false,
    }
}

/// Whether each file of a command line has a name.
fn has_names(line: &CommandLine) -> bool {
    match line.output.as_deref() {
        Some("") => false,
        _ => !line.input.is_empty(),
    }
}

/// Whether words are a command with `verify` as the first, and each of its files has a name.
fn are_command_after_verify(alloc: Global, words: &[String]) -> Result<bool, AllocError> {
    let [program, others @ ..] = words else {
        return Ok(false);
    };
    let mut advised = Vec::with_capacity(alloc, words.len() + 1)?;
    advised.push(program.as_str())?;
    advised.push("verify")?;
    for word in others {
        advised.push(word.as_str())?;
    }
    match parse_line(alloc, &advised) {
        Ok(line) => Ok(has_names(&line)),
        Err(Refused::NoMemory) => Err(AllocError),
        Err(_) => Ok(false),
    }
}

/// Whether words name a command that judges a movie.
fn judge_a_movie(words: &[String]) -> bool {
    match words {
        [_, command, ..] => matches!(command.as_str(), "verify" | "report"),
        _ => false,
    }
}

/// The advice on a word that is no argument: an option may have the name of a command.
fn advice_on_argument(words: &[String], place: usize, is_advised: bool) -> Option<Advice<'_>> {
    let word = words.get(place)?.as_str();
    match word.strip_prefix("--") {
        Some(name) if place == 1 && is_command(name) => Some(Advice::Command { name }),
        _ if !is_advised && judge_a_movie(words) && !word.starts_with('-') => Some(Advice::Judge),
        _ => None,
    }
}

/// The advice on a word that is no command: an option has its name, or a command has it in small letters.
fn advice_on_command(
    alloc: Global,
    words: &[String],
    place: usize,
    is_advised: bool,
) -> Result<Option<Advice<'static>>, AllocError> {
    let Some(word) = words.get(place) else {
        return Ok(None);
    };
    if word.as_str() == "version" {
        return Ok(Some(Advice::Version));
    }
    let name = word.to_ascii_lowercase(alloc)?;
    if !is_advised && (name.as_str() == "help" || is_command(&name)) {
        return Ok(Some(Advice::SmallLetters { name }));
    }
    Ok(None)
}

/// The advice on a mistake that `clap` doesn't give, or gives worse, as far as it is known.
fn advice_on(
    alloc: Global,
    words: &[String],
    kind: ErrorKind,
    place: usize,
    is_advised: bool,
) -> Result<Option<Advice<'_>>, AllocError> {
    let advice = if kind == ErrorKind::UnknownArgument {
        advice_on_argument(words, place, is_advised)
    } else {
        advice_on_command(alloc, words, place, is_advised)?
    };
    if advice.is_some() || is_advised || name_a_command(words) {
        return Ok(advice);
    }
    if are_command_after_verify(alloc, words)? {
        return Ok(Some(Advice::Verify));
    }
    Ok(None)
}

/// What is said with this advice and no other.
fn with_advice(
    alloc: Global,
    program: &str,
    said: &Said<'_>,
    advice: &Advice<'_>,
) -> Result<String, AllocError> {
    let Said { reason, usage, .. } = said;
    if let Advice::Command { .. } = advice {
        // The usage there may be that of an option that is like it.
        if let Some(unlike) = mistake_in(alloc, &[program, UNLIKE])? {
            if let Some(Said { usage, .. }) = Said::of(&unlike.text) {
                return format!(in alloc; "{reason}{BLANK}{TIP}{advice}{BLANK}{usage}");
            }
        }
    }
    format!(in alloc; "{reason}{BLANK}{TIP}{advice}{BLANK}{usage}")
}

/// The words after `help`, if that is the first.
fn asked_of_help(words: &[String]) -> Option<&[String]>
    ensures { IsSome result ↔ slice_get (texts_of words.now) 1 ≡ Some (codes "help") }
{
    match words {
        [_, first, others @ ..] if first.as_str() == "help" => Some(others),
        _ => None,
    }
}

/// The words without `--explain`.
fn without_explain(alloc: Global, words: &[String]) -> Result<Vec<String>, AllocError>
    ensures { IfOk result (λ others. texts_of others.items ≡ without_explain (texts_of words.now)) }
{
    let mut others = Vec::with_capacity(alloc, words.len())?;
    for word in words {
        if word.as_str() != "--explain" {
            others.push(String::from_str(alloc, word)?)?;
        }
    }
    Ok(others)
}

/// The words without `--explain`, if it stands after `help`: `clap` takes each word there for a command.
pub(crate) fn help_without_explain(
    alloc: Global,
    words: &[String],
) -> Result<Option<Vec<String>>, AllocError>
    ensures some { IfOk result (λ asked. IfSome asked (λ others. ExplainsHelp words.now × (texts_of others.items ≡ without_explain (texts_of words.now)))) }
    ensures none { IfOk result (λ asked. asked ≡ None → ExplainsHelp words.now → ⊥) }
{
    if asked_of_help(words).is_none() || !has_explain(words) {
        return Ok(None);
    }
    Ok(Some(without_explain(alloc, words)?))
}

/// The mistake in words that ask for help on something that is no command: it is that of the words without
/// `help`, of which more is said.
fn without_help(alloc: Global, words: &[String], mistake: Mistake) -> Result<Mistake, AllocError> {
    let (Some(others), [program, ..]) = (asked_of_help(words), words) else {
        return Ok(mistake);
    };
    if mistake.kind != ErrorKind::InvalidSubcommand {
        return Ok(mistake);
    }
    let mut asked = Vec::with_capacity(alloc, words.len())?;
    asked.push(program.as_str())?;
    for word in others {
        asked.push(word.as_str())?;
    }
    match mistake_in(alloc, &asked)? {
        Some(other) if other.kind == ErrorKind::InvalidSubcommand => Ok(other),
        _ => Ok(mistake),
    }
}

/// What is said of words that are no command, with no advice that leads to none or to another command
/// than was meant, as far as that is known.
fn with_good_advice(
    alloc: Global,
    words: &[String],
    mistake: Mistake,
) -> Result<String, AllocError> {
    let Mistake { kind, text } = without_help(alloc, words, mistake)?;
    let (Some(place), Some(said), [program, ..]) = (
        place_of(alloc, words, kind)?,
        Said::of(&text),
        words,
    ) else {
        return Ok(text);
    };
    let is_advised = said.advice.is_some();
    if let Some(advice) = advice_on(alloc, words, kind, place, is_advised)? {
        return with_advice(alloc, program, &said, &advice);
    }
    if !said.advice.unwrap_or("").starts_with(DASHES)
        || are_command_by_dashes(alloc, words, place)?
    {
        return Ok(text);
    }
    let Said { reason, usage, .. } = said;
    format!(in alloc; "{reason}{BLANK}{usage}")
}

/// What is said of words that are no command: what is said of them without `--explain`, if they are none
/// then either, since most advice depends on the first of them.
pub(crate) fn advised(
    alloc: Global,
    words: &[String],
    kind: ErrorKind,
    text: String,
) -> Result<String, AllocError> {
    let others = without_explain(alloc, words)?;
    match parse_line(alloc, &others) {
        Err(Refused::NoMemory) => Err(AllocError),
        Err(Refused::Of(LineFault::Usage { kind, text })) => {
            with_good_advice(alloc, &others, Mistake { kind, text })
        }
        _ => with_good_advice(alloc, words, Mistake { kind, text }),
    }
}

/// Whether a word is a number that is negative.
fn is_negative(word: &str) -> bool {
    matches!(word.as_bytes(), [b'-', b'0'..=b'9', ..])
}

/// What to write in place of words that are no command, if that is known and no advice is it.
fn remark_on(alloc: Global, words: &[String]) -> Result<Option<&'static str>, AllocError> {
    let kind = match parse_line(alloc, words) {
        Err(Refused::NoMemory) => return Err(AllocError),
        Err(Refused::Of(LineFault::Usage { kind, .. })) => kind,
        _ => return Ok(None),
    };
    let Some(place) = place_of(alloc, words, kind)? else {
        return Ok(None);
    };
    let Some(word) = words.get(place) else {
        return Ok(None);
    };
    if word.starts_with("-o") {
        return Ok(Some("-o: --out names what is written, and --pictures of verify"));
    }
    if kind == ErrorKind::UnknownArgument
        && is_negative(word)
        && !are_command_by_dashes(alloc, words, place)?
    {
        return Ok(Some("a number after an option is never negative"));
    }
    Ok(None)
}

/// Says what to write in place of words that are no command, if that is known.
pub(crate) fn tell_remark<R: Files + AllocGlobal + Eprint>(rt: &R, words: &[String]) {
    if let Ok(Some(remark)) = remark_on(rt.alloc(), words) {
        write_reason(rt, remark);
    }
}
