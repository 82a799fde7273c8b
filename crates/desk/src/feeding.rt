// Answering: a line is read, its event steps, the answer is printed; and so on through the whole lines of a text.
ghost use Rattle.std.specs.Prelude.{◌≡◌, ◌+◌, ◌*◌, ◌≤◌, cond, eqb, length};
ghost use Rattle.std.proofs.lemmas.List.Edits.{sets};
ghost use Rattle.words.specs.Answers.{value_of};
ghost use Rattle.rulebook.specs.Events.{COMMIT};
ghost use Rattle.lines.specs.Printed.{answer_room, answer_text};
ghost use Rattle.desk.specs.Desk.{desk_of, SameDesk, heard};
ghost use Rattle.desk.specs.Calls.{greatest_line, judged, answered, put, whole_line, given, called};

use crate::{Fed, GREATEST_LINE, OpenDesk};
use lines::{ANSWER_ROOM, Line, event_line, line_at, write_answer};
use rulebook::COMMIT;
use words::{Answer, Refusal, value};

// What a line came to: the answer, and how many numbers of the output it shows.
#[derive(Clone, Copy)]
struct Judged {
    answer: Answer,
    shown: usize,
}

// How many numbers of the output an answer shows: after a COMMIT three for each draw.
fn shown(kind: u32, answer: Answer) -> usize
    ensures { result ≡ cond (eqb kind COMMIT) (3 * value_of answer) 0 }
{
    if kind == COMMIT {
        return 3 * (value(answer) as usize);
    }
    0
}

// The event that a line says steps; a line that says none is a BAD EVENT.
#[tactic(auto, using(crate::proofs::Ways::judged_bad))]
fn judge(desk: &mut OpenDesk<'_>, line: &[u8]) -> Judged
    ensures same { SameDesk desk.old desk.new }
    ensures number { desk.new.number ≡ desk.old.number }
    ensures leaves { judged result (desk_of desk.new) ≡ heard (desk_of desk.old).plant (desk_of desk.old).out line.now }
{
    let Some(event) = event_line(line) else {
        return Judged {
            answer: Err(Refusal::BadEvent),
            shown: 0,
        };
    };
    let answer = machine::step(&mut desk.jobs, &mut desk.columns, desk.row, event);
    Judged {
        answer,
        shown: shown(event.kind, answer),
    }
}

// Writes the answer of the desk's line at a position of out that has room for any; the position after it.
#[tactic(auto, using(crate::proofs::Ways::say_ways))]
fn say(desk: &OpenDesk<'_>, said: Judged, out: &mut [u8], at: usize) -> usize
    requires { at + answer_room ≤ length out.old }
    ensures position { result ≡ at + length (answer_text desk.now.number (judged said (desk_of desk.now)).reply) }
    ensures out_after { out.new ≡ sets out.old at (answer_text desk.now.number (judged said (desk_of desk.now)).reply) }
    ensures at_bound { result ≤ at + answer_room }
{
    // no more of the output is shown than there is of it
    let shown = &desk.row[..said.shown.min(desk.row.len())];
    // proved never to fail: the room is there
    write_answer(out, at, desk.number, said.answer, shown).unwrap()
}

// The answer to a line at a position of out that has room for any; the position after it. The next line has the next number.
fn answer(desk: &mut OpenDesk<'_>, line: &[u8], out: &mut [u8], at: usize) -> usize
    requires room { at + answer_room ≤ length out.old }
    requires numbered { desk.old.number ≤ greatest_line }
    ensures same { SameDesk desk.old desk.new }
    ensures leaves { answered result (desk_of desk.new) out.new ≡ put (desk_of desk.old) line.now out.old at }
    ensures at_bound { result ≤ at + answer_room }
{
    let said = judge(desk, line);
    let next = say(desk, said, out, at);
    desk.number += 1;
    next
}

// The line that starts at a position of a text, where it has its LF, there is room for an answer of any length, and the line number isn't
// past the greatest.
#[tactic(auto, unfolding(crate::specs::Calls::whole_line))]
fn whole_line(text: &[u8], at: usize, room: usize, number: u64) -> Option<Line>
    ensures { result ≡ whole_line text.now at room number }
{
    if room < ANSWER_ROOM {
        return None;
    }
    if GREATEST_LINE < number {
        return None;
    }
    let line = line_at(text, at)?;
    if line.next <= line.end {
        return None;
    }
    Some(line)
}

// Answers the whole lines at the front of a text, the first of which has the desk's number, into out from its start on, as long as out
// has room for an answer of any length.
#[tactic(auto, using(crate::proofs::Walks::found_ways))]
pub fn feed(desk: &mut OpenDesk<'_>, text: &[u8], out: &mut [u8]) -> Fed
    ensures same { SameDesk desk.old desk.new }
    ensures leaves { given result (desk_of desk.new) out.new ≡ called (desk_of desk.old) text.now out.old }
    ensures used_in_bounds { (result.used ≤ length text.now) × (result.written ≤ length out.old) }
{
    let mut start = 0;
    let mut at = 0;
    // goes on while a line is found: positions, not an index counted by hand
    while let Some(line) = whole_line(text, start, out.len() - at, desk.number) {
        at = answer(desk, &text[line.start..line.end], out, at);
        start = line.next;
    }
    Fed {
        used: start,
        written: at,
    }
}
