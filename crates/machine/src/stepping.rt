// The step: an event, the tables, the output.
ghost use Rattle.std.specs.Prelude.{◌≡◌};
ghost use Rattle.copies.specs.Columns.{lent, SameColumns};
ghost use Rattle.jobs.specs.Calls.{stepped};
ghost use Rattle.rulebook.specs.Tables.{plant};
ghost use Rattle.rulebook.specs.Steps.{step_of};
ghost use Rattle.events.specs.Calls.{left};

use crate::whole::check;
use copies::Lent;
use events::step_unchecked;
use jobs::Job;
use rulebook::Event;
use words::{Answer, JOBS, OUTPUT, Refusal, Serial};

// THE STEP: an event, the tables, the output. SHORT, NOT WHOLE, and then the listed order.
pub fn step(
    jobs: &mut [Job; JOBS],
    columns: &mut Lent<'_>,
    out: &mut [Serial],
    event: Event,
) -> Answer
    ensures same { SameColumns columns.old columns.new }
    ensures leaves { left (stepped result jobs.new) (lent columns.new) out.new
        ≡ step_of (plant (lent columns.old) jobs.old) out.old event }
{
    if out.len() < OUTPUT {
        return Err(Refusal::Short);
    }
    check(jobs, &columns.seen())?;
    step_unchecked(jobs, columns, out, event)
}
