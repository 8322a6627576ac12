// A line as it is shown to a person: bytes that do not print are escaped.
ghost use Rattle.std.specs.Prelude.{◌≡◌, Some};
ghost use Rattle.std.specs.Fmt.{WritesOnOk};
ghost use Rattle.text.specs.Shown.{shown_byte, shown, quoted};

use std::fmt;

// A longer line is shown by its first bytes.
const LONGEST_SHOWN: usize = 60;

fn write_byte<W: fmt::Write>(byte: u8, f: &mut fmt::Formatter<W>) -> fmt::Result
    ensures { WritesOnOk W.write_str_gives f.old result (shown_byte byte) f.new }
{
    let mut rest = byte.escape_ascii();
    'escape: while let Some(escaped) = rest.next() {
        f.write_char(char::from(escaped))?;
    }
    Ok(())
}

fn write_bytes<W: fmt::Write>(bytes: &[u8], f: &mut fmt::Formatter<W>) -> fmt::Result
    ensures { WritesOnOk W.write_str_gives f.old result (shown bytes.now) f.new }
{
    let mut rest = bytes;
    'bytes: while let [byte, after @ ..] = rest {
        write_byte(*byte, f)?;
        rest = after;
    }
    Ok(())
}

// Bytes without quotes.
#[derive(Clone, Copy)]
struct Shown<'a>(&'a [u8]);

impl fmt::Display for Shown<'_> {
    ghost output = { λ s. Some (shown s.0.now) };

    fn fmt<W: fmt::Write>(&self, f: &mut fmt::Formatter<W>) -> fmt::Result {
        write_bytes(self.0, f)
    }
}

// A line in quotes.
#[derive(Clone, Copy)]
pub(crate) struct Quoted<'a>(pub(crate) &'a [u8]);

impl fmt::Display for Quoted<'_> {
    ghost output = { λ q. Some (quoted q.0.now) };

    fn fmt<W: fmt::Write>(&self, f: &mut fmt::Formatter<W>) -> fmt::Result {
        let line = self.0;
        if line.len() > LONGEST_SHOWN {
            write!(f, "\"{}\"..", Shown(&line[..LONGEST_SHOWN]))
        } else {
            write!(f, "\"{}\"", Shown(line))
        }
    }
}
