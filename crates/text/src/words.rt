// The words of a line, split by spaces and tabs.
ghost use Rattle.std.specs.Prelude.{◌≡◌};
ghost use Rattle.text.specs.Words.{blank, unspaced, past, word as word_at, no_more as said_all};
ghost use Rattle.text.specs.Words.{number as number_named, line_without_return};

// The line without a carriage return at its end.
pub(crate) fn without_return(line: &[u8]) -> &[u8]
    ensures { result.now ≡ line_without_return line.now }
{
    line.strip_suffix(b"\r").unwrap_or(line)
}

// A space or a tab.
fn is_blank(byte: u8) -> bool
    ensures { result ≡ blank byte }
{
    byte == b' ' || byte == b'\t'
}

// The text without the blanks that it begins with.
fn skip_blanks(text: &[u8]) -> &[u8]
    ensures { result.now ≡ unspaced text.now }
{
    let start = text
        .iter()
        .position(|byte| !is_blank(*byte))
        .unwrap_or(text.len());
    &text[start..]
}

// The first word of a text, no bytes where there is none, and what comes after it.
pub(crate) fn split_word(text: &[u8]) -> (&[u8], &[u8])
    ensures word { result.0.now ≡ word_at 0 text.now }
    ensures rest { result.1.now ≡ past blank (unspaced text.now) }
{
    let text = skip_blanks(text);
    let end = text
        .iter()
        .position(|byte| is_blank(*byte))
        .unwrap_or(text.len());
    text.split_at(end)
}

// Nothing more is said here: there is no word, or one that begins a comment.
pub(crate) fn no_more(word: &[u8]) -> bool
    ensures { result ≡ said_all word.now }
{
    matches!(word, [] | [b'#', ..])
}

// The load that a word of decimal digits names.
pub(crate) fn number(word: &[u8]) -> Option<u16>
    ensures { result ≡ number_named word.now }
{
    if word.is_empty() {
        return None;
    }
    let mut n: u16 = 0;
    for byte in word {
        if !byte.is_ascii_digit() {
            return None;
        }
        n = u16::try_from(u32::from(n) * 10 + u32::from(*byte - b'0')).ok()?;
    }
    Some(n)
}
