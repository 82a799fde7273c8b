// The line reader: thin functions over a text and a place in it, above the readers of lines and numbers.
ghost use Rattle.std.specs.Prelude.{◌≡◌};
ghost use Rattle.lines.specs.Texts.{line_at};
ghost use Rattle.lines.specs.Reader.{reader_at, number_at, number_read};

use crate::Line;
use crate::numbers::{number_from, past};
use crate::texts::line_from;

// The line reader keeps the text and its place in it.
#[derive(Clone, Copy)]
pub struct LineReader<'a> {
    pub text: &'a [u8],
    pub at: usize,
}

// A number that was read and the position after it, or that there is none; and the reader moved past it.
#[derive(Clone, Copy)]
pub struct NumberRead<'a> {
    pub number: Option<(u32, usize)>,
    pub reader: LineReader<'a>,
}

// A reader at the start of a text.
pub fn reader<'a>(text: &'a [u8]) -> LineReader<'a>
    ensures { result ≡ reader_at text.entry 0 }
{
    LineReader { text, at: 0 }
}

// What is left of a reader's text from a place on: the reader moved there.
pub fn rest<'a>(reader: LineReader<'a>, at: usize) -> LineReader<'a>
    ensures { result ≡ reader_at reader.entry.text at }
{
    LineReader {
        text: reader.text,
        at,
    }
}

// The number at a reader's place, and the reader moved past it; where there is none the reader stays.
pub fn next_number<'a>(reader: LineReader<'a>) -> NumberRead<'a>
    ensures { result ≡ number_read reader.entry }
{
    let number = number_from(reader.text, reader.at);
    let at = past(number, reader.at);
    NumberRead {
        number,
        reader: rest(reader, at),
    }
}

// The line at a reader's place: where it starts and ends, and where the next one starts.
pub fn next_line<'a>(reader: LineReader<'a>) -> Option<Line>
    ensures { result ≡ line_at reader.entry.text.now reader.entry.at }
{
    line_from(reader.text, reader.at)
}

// The line that starts at a position of a text.
pub fn line_at(text: &[u8], at: usize) -> Option<Line>
    ensures { result ≡ line_at text.now at }
{
    next_line(rest(reader(text), at))
}

// The number that starts at a position of a text, and the position after it.
pub fn number_at(text: &[u8], at: usize) -> Option<(u32, usize)>
    ensures { result ≡ number_at text.now at }
{
    next_number(rest(reader(text), at)).number
}
