// The numbers of a text by their places.
ghost use Rattle.std.specs.Prelude.{◌≡◌};
ghost use Rattle.lines.specs.Reader.{number_at, past};

use digits::read_number;

// The number that starts at a position, and the position after it.
pub fn number_from(text: &[u8], at: usize) -> Option<(u32, usize)>
    ensures { result ≡ number_at text.now at }
{
    read_number(text, at, text.len())
}

// The position after a number that was looked for at a position; that position itself where there is none.
pub fn past(number: Option<(u32, usize)>, at: usize) -> usize
    ensures { result ≡ past number at }
{
    number.map_or(at, |(_, next)| next)
}
