//! The lines of a script, and what counts of each.

ghost use Rattle.std.specs.Prelude.{◌≡◌, ◌==◌, ◌∷◌, ◌<◌, length, position};
ghost use Rattle.std.specs.Str.Lines.{lines, strip_carriage_return};
ghost use Rattle.sql_lexer.specs.Lexes.{is_blank};
ghost use Rattle.script.specs.Text.{trim_front, trim_back, drop_semicolon, text_of, is_skipped};
ghost use Rattle.script.specs.Text.{is_phase, is_session, ends_word, session_name};

/// The first line without its end, and what follows that.
pub fn split_line(bytes: &[u8]) -> (&[u8], &[u8])
    requires { 0 < length bytes.now }
    ensures first { lines bytes.now ≡ result.0.now ∷ lines result.1.now }
    ensures shorter { length result.1.now < length bytes.now }
{
    match line_end(bytes) {
        Some(end) => (without_return(&bytes[..end]), &bytes[end + 1..]),
        None => bytes.split_at(bytes.len()),
    }
}

fn line_end(bytes: &[u8]) -> Option<usize>
    ensures { result ≡ position (λ b. b == 10) bytes.now }
{
    bytes.iter().position(|b| *b == b'\n')
}

fn without_return(line: &[u8]) -> &[u8]
    ensures { result.now ≡ strip_carriage_return line.now }
{
    match line {
        [text @ .., b'\r'] => text,
        _ => line,
    }
}

fn is_blank(byte: u8) -> bool
    ensures { result ≡ is_blank byte }
{
    byte == b' ' || byte == b'\t'
}

fn trim_front(bytes: &[u8]) -> &[u8]
    ensures { result.now ≡ trim_front bytes.now }
{
    for (start, byte) in bytes.iter().enumerate() {
        if !is_blank(*byte) {
            return &bytes[start..];
        }
    }
    &bytes[bytes.len()..]
}

fn trim_back(bytes: &[u8]) -> &[u8]
    ensures { result.now ≡ trim_back bytes.now }
{
    let mut end = bytes.len();
    while end > 0 && is_blank(bytes[end - 1]) {
        end -= 1;
    }
    &bytes[..end]
}

fn drop_semicolon(bytes: &[u8]) -> &[u8]
    ensures { result.now ≡ drop_semicolon bytes.now }
{
    match bytes {
        [front @ .., b';'] => front,
        _ => bytes,
    }
}

/// What counts of a line.
pub fn text_of(line: &[u8]) -> &[u8]
    ensures { result.now ≡ text_of line.now }
{
    trim_back(drop_semicolon(trim_back(trim_front(line))))
}

/// Whether the text is empty or a comment.
pub fn is_skipped(text: &[u8]) -> bool
    ensures { result ≡ is_skipped text.now }
{
    text.is_empty() || text.starts_with(b"#") || text.starts_with(b"--")
}

/// Whether the text is the word PHASE.
pub fn is_phase(text: &[u8]) -> bool
    ensures { result ≡ is_phase text.now }
{
    text.eq_ignore_ascii_case(b"PHASE")
}

/// Whether the text is the word SESSION, and then its end, a blank or a tab.
pub fn is_session(text: &[u8]) -> bool
    ensures { result ≡ is_session text.now }
{
    let (word, rest) = text.split_at(text.len().min(7));
    word.eq_ignore_ascii_case(b"SESSION") && ends_word(rest)
}

fn ends_word(rest: &[u8]) -> bool
    ensures { result ≡ ends_word rest.now }
{
    match rest {
        [] => true,
        [byte, ..] => is_blank(*byte),
    }
}

/// What follows the word SESSION, without blanks and tabs.
pub fn session_name(text: &[u8]) -> &[u8]
    ensures { result.now ≡ session_name text.now }
{
    let (_, rest) = text.split_at(text.len().min(7));
    trim_front(rest)
}
