//! The lines of a text and the words of a line.
ghost use Rattle.std.specs.Prelude.{◌≡◌, ◌<◌, ◌==◌, [], ◌∷◌, length, drop, position};
ghost use Rattle.std.specs.Prelude.{IfSome, MatchOption};
ghost use Rattle.std.specs.Option.{option_map_or};
ghost use Rattle.input_text.specs.Words.{lines_of, without_comment, is_blank, words_in};

/// The place of the first byte of a value.
fn index_of(value: u8, bytes: &[u8]) -> Option<usize>
    ensures { result ≡ position (λ byte. byte == value) bytes.now }
{
    bytes.iter().position(|byte| *byte == value)
}

/// Whether a byte stands between words.
fn is_blank(byte: u8) -> bool
    ensures { result ≡ is_blank byte }
{
    matches!(byte, b' ' | b'\t' | b'\r')
}

/// The place of the first blank.
fn index_of_blank(bytes: &[u8]) -> Option<usize>
    ensures { result ≡ position is_blank bytes.now }
{
    bytes.iter().position(|byte| is_blank(*byte))
}

/// The first line, without its line feed, and what follows that, or `None` after the last line.
#[tactic(auto, using(crate::proofs::LineLemmas::cut_parts))]
pub(crate) fn first_line(text: &[u8]) -> (&[u8], Option<&[u8]>)
    ensures lines { lines_of text.now
        ≡ result.0.now ∷ option_map_or (λ after. lines_of after.now) result.1 [] }
    ensures shorter { IfSome result.1 (λ after. length after.now < length text.now) }
{
    let (line, rest) = text.split_at(index_of(b'\n', text).unwrap_or(text.len()));
    match rest {
        [] => (line, None),
        [_, after @ ..] => (line, Some(after)),
    }
}

/// A line without its comment.
pub(crate) fn without_comment(line: &[u8]) -> &[u8]
    ensures { result.now ≡ without_comment line.now }
{
    match index_of(b'#', line) {
        Some(end) => &line[..end],
        None => line,
    }
}

/// All bytes but the first, if there is one.
pub(crate) fn without_first(bytes: &[u8]) -> &[u8]
    ensures { result.now ≡ drop 1 bytes.now }
{
    match bytes {
        [] => bytes,
        [_, others @ ..] => others,
    }
}

/// The first word, and what follows the blank after it, or `None` if there is no word.
#[tactic(auto, using(crate::proofs::LineLemmas::words_at))]
pub(crate) fn first_word(bytes: &[u8]) -> Option<(&[u8], &[u8])>
    ensures words { MatchOption result (words_in bytes.now ≡ [])
        (λ p. words_in bytes.now ≡ p.0.now ∷ words_in p.1.now) }
    ensures shorter { IfSome result (λ p. length p.1.now < length bytes.now) }
{
    let mut rest = bytes;
    while !rest.is_empty() {
        let (word, left) = rest.split_at(index_of_blank(rest).unwrap_or(rest.len()));
        let after = without_first(left);
        if !word.is_empty() {
            return Some((word, after));
        }
        rest = after;
    }
    None
}
