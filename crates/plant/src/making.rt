// An empty plant in lent tables.
ghost use Rattle.std.specs.Prelude.{◌≡◌};
ghost use Rattle.copies.specs.Columns.{lent, SameColumns};
ghost use Rattle.rulebook.specs.Tables.{plant};
ghost use Rattle.rulebook.specs.Around.{empty_of};
ghost use Rattle.plant.specs.Calls.{made};

use crate::slots::close_slots;
use copies::Lent;
use jobs::Job;
use words::{Answer, JOBS, Refusal};

// Makes an empty plant in the lent tables: no series, no jobs, all stations up. Refuses only with SHORT; extra entries stay.
pub fn empty(jobs: &mut [Job], columns: &mut Lent<'_>) -> Answer
    ensures same { SameColumns columns.old columns.new }
    ensures leaves { made result (plant (lent columns.new) jobs.new) ≡ empty_of (plant (lent columns.old) jobs.old) }
{
    if jobs.len() < JOBS {
        return Err(Refusal::Short);
    }
    if machine::clear(columns) {
        close_slots(jobs);
        return Ok(0);
    }
    Err(Refusal::Short)
}
