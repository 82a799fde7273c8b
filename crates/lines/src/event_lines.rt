// The event that a line says: kind and exactly that kind's fields, one space between.
ghost use Rattle.std.specs.Prelude.{◌≡◌};
ghost use Rattle.lines.specs.EventLines.{field_count, field_at, fields_from, event_line};

use crate::LONGEST_LINE;
use crate::readers::number_at;
use rulebook::{Event, RESTART};

// How many fields each kind has, by its number; there is no kind 0.
const FIELDS: [usize; 18] = [0, 4, 2, 2, 2, 3, 2, 1, 1, 3, 2, 3, 2, 2, 4, 4, 1, 1];

// How many fields an event of a kind has; 0 where there is no such kind.
#[tactic(auto, using(crate::proofs::Fields::count_none))]
pub fn fields_of(kind: u32) -> usize
    ensures { result ≡ field_count kind }
{
    if RESTART < kind {
        return 0;
    }
    FIELDS[kind as usize]
}

// The number after a space at a position of a line, or 0 and no step where no field is wanted; and the position after it.
#[tactic(auto, unfolding(crate::specs::EventLines::field_at))]
fn field(line: &[u8], at: usize, wanted: bool) -> Option<(u32, usize)>
    ensures { result ≡ field_at line.now at wanted }
{
    if !wanted {
        return Some((0, at));
    }
    if *line.get(at)? != b' ' {
        return None;
    }
    number_at(line, at + 1)
}

// The event of a kind that has count fields, which start at a position of a line.
#[tactic(auto, unfolding(crate::specs::EventLines::fields_from))]
fn fields_from(line: &[u8], kind: u32, count: usize, at: usize) -> Option<Event>
    ensures { result ≡ fields_from line.now kind count at }
{
    let (a, at) = field(line, at, 0 < count)?;
    let (b, at) = field(line, at, 1 < count)?;
    let (c, at) = field(line, at, 2 < count)?;
    let (d, at) = field(line, at, 3 < count)?;
    if at != line.len() {
        return None;
    }
    Some(Event { kind, a, b, c, d })
}

// The event that a line says; the line is given without its end.
#[tactic(auto, unfolding(crate::specs::EventLines::event_line))]
pub fn event_line(line: &[u8]) -> Option<Event>
    ensures { result ≡ event_line line.now }
{
    if LONGEST_LINE < line.len() {
        return None;
    }
    let (kind, at) = number_at(line, 0)?;
    let count = fields_of(kind);
    if count == 0 {
        return None;
    }
    fields_from(line, kind, count, at)
}
