// Lines as they are printed: numbers with one space between, and LF. Out and a position in it stay two parameters: promises speak of the whole
// bytes and of positions in them.
ghost use Rattle.std.specs.Prelude.{◌≡◌, ◌∷◌, ◌+◌, ◌≤◌, length, IfSome};
ghost use Rattle.digits.specs.Bytes.{space};
ghost use Rattle.digits.specs.Printing.{decimal, wrote_at, written_at};
ghost use Rattle.lines.specs.Printed.{ended, line, event_text, reply, answer_text, event_room, answer_room};
ghost use Rattle.lines.specs.Pens.{fits, Wrote};

use crate::event_lines::fields_of;
use crate::{ANSWER_ROOM, EVENT_ROOM};
use digits::print_number;
use rulebook::Event;
use words::{Answer, OUTPUT, Serial, code, value};

// Lent bytes, and the position where the next part of a line goes. Each method writes there and moves past what it wrote.
#[derive(Drop)]
struct Pen<'a> {
    out: &'a mut [u8],
    at: usize,
}

impl Pen<'_> {
    // Writes n.
    #[tactic(auto, using(crate::proofs::Puts::with_room))]
    fn number(&mut self, n: u64)
        requires { fits self.old (decimal n) }
        ensures { Wrote self.old (decimal n) self.new }
    {
        // proved never to fail: the room is there
        self.at = print_number(self.out, self.at, n).unwrap();
    }

    // Writes a space and n.
    fn field(&mut self, n: Serial)
        requires { fits self.old (space ∷ decimal n) }
        ensures { Wrote self.old (space ∷ decimal n) self.new }
    {
        self.out[self.at] = b' ';
        self.at += 1;
        self.number(u64::from(n));
    }

    // Writes the numbers of row, a space before each, and LF.
    #[tactic(auto, using(crate::proofs::Puts::left_all))]
    fn fields(&mut self, row: &[Serial])
        requires { fits self.old (ended row.now) }
        ensures { Wrote self.old (ended row.now) self.new }
    {
        for number in row {
            self.field(*number);
        }
        self.out[self.at] = b'\n';
        self.at += 1;
    }

    // Writes an answer line: its number, the answer's code and value, and the numbers of row.
    fn answer(&mut self, number: u64, code: u32, value: Serial, row: &[Serial])
        requires { fits self.old (line number (code ∷ value ∷ row.now)) }
        ensures { Wrote self.old (line number (code ∷ value ∷ row.now)) self.new }
    {
        self.number(number);
        self.field(code);
        self.field(value);
        self.fields(row);
    }

    // Writes an event line: the kind and exactly its fields.
    #[tactic(auto, using(crate::proofs::Fields::count_most))]
    fn event(&mut self, event: Event)
        requires { fits self.old (event_text event) }
        ensures { Wrote self.old (event_text event) self.new }
    {
        let fields = [event.a, event.b, event.c, event.d];
        let count = fields_of(event.kind);
        self.number(u64::from(event.kind));
        self.fields(&fields[..count]);
    }
}

// An answer line at a position of out: the line's number, the answer's code and value, and the numbers of row, at most twelve. It asks
// for room for any answer line; else out stays as it is.
#[tactic(auto, using(digits::proofs::Laws::no_room, crate::proofs::Long::written_ways))]
pub fn write_answer(
    out: &mut [u8],
    at: usize,
    number: u64,
    answer: Answer,
    row: &[Serial],
) -> Option<usize>
    ensures value { result ≡ wrote_at answer_room (length out.old) at (answer_text number (reply answer row.now)) }
    ensures out_after { out.new ≡ written_at answer_room out.old at (answer_text number (reply answer row.now)) }
    ensures ends_by { IfSome result (λ next. next ≤ at + answer_room) }
{
    if out.len().checked_sub(at)? < ANSWER_ROOM {
        return None;
    }
    let shown = &row[..OUTPUT.min(row.len())];
    let mut pen = Pen { out, at };
    pen.answer(number, code(answer), value(answer), shown);
    Some(pen.at)
}

// An event line at a position of out: the kind and exactly its fields. It asks for room for any event line; else out stays
// as it is.
#[tactic(auto, using(digits::proofs::Laws::no_room, crate::proofs::Long::written_ways))]
pub fn write_event(out: &mut [u8], at: usize, event: Event) -> Option<usize>
    ensures value { result ≡ wrote_at event_room (length out.old) at (event_text event) }
    ensures out_after { out.new ≡ written_at event_room out.old at (event_text event) }
{
    if out.len().checked_sub(at)? < EVENT_ROOM {
        return None;
    }
    let mut pen = Pen { out, at };
    pen.event(event);
    Some(pen.at)
}
