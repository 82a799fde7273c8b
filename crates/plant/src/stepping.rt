// The step over lent tables.
ghost use Rattle.std.specs.Prelude.{◌≡◌};
ghost use Rattle.copies.specs.Columns.{lent, SameColumns};
ghost use Rattle.rulebook.specs.Tables.{plant};
ghost use Rattle.rulebook.specs.Steps.{step_of};
ghost use Rattle.plant.specs.Calls.{left};

use crate::slots::{put_back, taken_out};
use copies::Lent;
use jobs::Job;
use rulebook::Event;
use words::{Answer, JOBS, Refusal, Serial};

// THE STEP: an event, the tables, the output. SHORT, NOT WHOLE, and then the listed order.
pub fn step(jobs: &mut [Job], columns: &mut Lent<'_>, out: &mut [Serial], event: Event) -> Answer
    ensures same { SameColumns columns.old columns.new }
    ensures leaves { left result (plant (lent columns.new) jobs.new) out.new ≡ step_of (plant (lent columns.old) jobs.old) out.old event }
{
    if jobs.len() < JOBS {
        return Err(Refusal::Short);
    }
    let mut all = taken_out(jobs);
    let answer = machine::step(&mut all, columns, out, event);
    put_back(jobs, all);
    answer
}
