// The events of a list step one after another in lent tables, and the accepted ones are counted.
ghost use Rattle.std.specs.Prelude.{◌≡◌, ◌<◌, ◌≤◌};
ghost use Rattle.words.specs.Tests.{one_if};
ghost use Rattle.copies.specs.Columns.{lent};
ghost use Rattle.rulebook.specs.Tables.{plant};
ghost use Rattle.gauge.specs.Accepted.{event_at, event_count, is_accepted, accepted_from};

use copies::Lent;
use events::step_unchecked;
use jobs::Job;
use rulebook::Event;
use words::{Answer, JOBS, Serial, code};

// How many numbers make an event: its kind and its four fields.
const EVENT_SIZE: usize = 5;

// Event i of a list that has it.
fn event_at(numbers: &[u32], i: usize) -> Event
    requires { i < event_count numbers.now }
    ensures { result ≡ event_at numbers.now i }
{
    let at = EVENT_SIZE * i;
    Event {
        kind: numbers[at],
        a: numbers[at + 1],
        b: numbers[at + 2],
        c: numbers[at + 3],
        d: numbers[at + 4],
    }
}

// What an answer adds to the count.
fn counts_for(answer: Answer) -> usize
    ensures { (result ≡ one_if (is_accepted answer)) × (result ≤ 1) }
{
    // by the paper's number, as `is_accepted` tests it: tried with `is_ok`, and the proof didn't close
    if code(answer) == 0 { 1 } else { 0 }
}

// How many of the events are accepted, from the lent tables on.
pub fn count_accepted(
    numbers: &[u32],
    jobs: &mut [Job; JOBS],
    columns: &mut Lent<'_>,
    out: &mut [Serial],
) -> usize
    ensures { result ≡ accepted_from numbers.now (event_count numbers.now) 0 (plant (lent columns.old) jobs.old) out.old }
{
    let mut count = 0;
    // by its number, as `accepted_from` counts the events
    for i in 0..numbers.len() / EVENT_SIZE {
        let event = event_at(numbers, i);
        count += counts_for(step_unchecked(jobs, columns, out, event));
    }
    count
}
