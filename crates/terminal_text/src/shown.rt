//! Texts from outside, as a terminal or a log may be given them.
ghost use Rattle.std.specs.Prelude.{◌≡◌};
ghost use Rattle.std.specs.Fmt.{WritesOnOk};
ghost use Rattle.std.specs.List.{list_all};
ghost use Rattle.std.specs.Str.{chars};
ghost use Rattle.terminal_text.specs.Names.{is_ignorable, is_line_end, is_plain, shown_character};

use std::fmt;

/// Whether Unicode lets a character go unseen, as marks of the direction and spaces without a width.
fn is_ignorable(c: char) -> bool
    ensures { result ≡ is_ignorable c }
{
    matches!(
        c,
        '\u{ad}'
            | '\u{34f}'
            | '\u{61c}'
            | '\u{115f}'..='\u{1160}'
            | '\u{17b4}'..='\u{17b5}'
            | '\u{180b}'..='\u{180f}'
            | '\u{200b}'..='\u{200f}'
            | '\u{202a}'..='\u{202e}'
            | '\u{2060}'..='\u{206f}'
            | '\u{3164}'
            | '\u{fe00}'..='\u{fe0f}'
            | '\u{feff}'
            | '\u{ffa0}'
            | '\u{fff0}'..='\u{fff8}'
            | '\u{1bca0}'..='\u{1bca3}'
            | '\u{1d173}'..='\u{1d17a}'
            | '\u{e0000}'..='\u{e0fff}'
    )
}

/// Whether a character ends a line or a paragraph, and is no control character.
fn is_line_end(c: char) -> bool
    ensures { result ≡ is_line_end c }
{
    c == '\u{2028}' || c == '\u{2029}'
}

/// A text on one line: control characters, and others that aren't seen or end a line, are shown as
/// `\n` or `\u{1b}`, so that none reaches a terminal or a log.
#[derive(Clone, Copy)]
pub struct Shown<'a> {
    text: &'a str,
}

impl<'a> Shown<'a> {
    /// A name or a word from outside.
    pub fn name(text: &'a str) -> Shown<'a>
        ensures { result.text.now ≡ text.now }
    {
        Shown { text }
    }

    /// Whether a character is shown as it is.
    pub fn is_plain(c: char) -> bool
        ensures { result ≡ is_plain c }
    {
        !c.is_control() && !is_ignorable(c) && !is_line_end(c)
    }

    /// Whether the text is shown as it is.
    pub fn is_all_plain(&self) -> bool
        ensures { result ≡ list_all is_plain (chars self.now.text.now) }
    {
        self.text.chars().all(|c| Shown::is_plain(c))
    }
}

/// Writes a character as it is, or escaped.
fn write_shown<W: fmt::Write>(f: &mut fmt::Formatter<W>, c: char) -> fmt::Result
    ensures { WritesOnOk W.write_str_gives f.old result (shown_character c) f.new }
{
    if Shown::is_plain(c) {
        return f.write_char(c);
    }
    for character in c.escape_default() {
        f.write_char(character)?;
    }
    Ok(())
}

impl fmt::Display for Shown<'_> {
    ghost use Rattle.std.specs.Prelude.{Some};
    ghost use Rattle.terminal_text.specs.Names.{shown_text};

    ghost output = { λ shown. Some (shown_text shown.text.now) };

    fn fmt<W: fmt::Write>(&self, f: &mut fmt::Formatter<W>) -> fmt::Result {
        for c in self.text.chars() {
            write_shown(f, c)?;
        }
        Ok(())
    }
}
