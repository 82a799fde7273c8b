// An empty plant in lent tables.
ghost use Rattle.std.specs.Prelude.{◌≡◌, ◌≤◌, length};
ghost use Rattle.copies.specs.Columns.{lent, SameColumns};
ghost use Rattle.jobs.specs.Calls.{stepped};
ghost use Rattle.rulebook.specs.Tables.{plant};
ghost use Rattle.rulebook.specs.Around.{empty_of};
ghost use Rattle.machine.specs.Calls.{made, cleared, clear_of, filled};

use copies::Lent;
use jobs::Job;
use words::{Answer, JOBS, PLACES, RECEIVED, Refusal, SERIES, STATIONS};

// Writes a number at the first so many entries of a column.
fn fill(column: &mut [u32], size: usize, number: u32)
    requires { size ≤ length column.old }
    ensures { column.new ≡ filled size number column.old }
{
    column[..size].fill(number);
}

// Makes the columns those of an empty plant: no series, all stations up. Where one is short none is touched, and the answer is no; extra
// entries stay.
pub fn clear(columns: &mut Lent<'_>) -> bool
    ensures same { SameColumns columns.old columns.new }
    ensures leaves { cleared result (lent columns.new) ≡ clear_of (lent columns.old) }
{
    if (columns.firsts.len() < SERIES)
        | (columns.lasts.len() < SERIES)
        | (columns.kinds.len() < PLACES)
        | (columns.values.len() < PLACES)
        | (columns.sent.len() < PLACES)
        | (columns.relto.len() < PLACES)
        | (columns.relkind.len() < PLACES)
        | (columns.relvalue.len() < PLACES)
        | (columns.received.len() < RECEIVED)
        | (columns.up.len() < STATIONS)
    {
        return false;
    }
    fill(columns.firsts, SERIES, 0);
    fill(columns.lasts, SERIES, 0);
    fill(columns.kinds, PLACES, 0);
    fill(columns.values, PLACES, 0);
    fill(columns.sent, PLACES, 0);
    fill(columns.relto, PLACES, 0);
    fill(columns.relkind, PLACES, 0);
    fill(columns.relvalue, PLACES, 0);
    fill(columns.received, RECEIVED, 0);
    fill(columns.up, STATIONS, 1);
    true
}

// Makes an empty plant in the lent tables and sixteen slots: no series, no jobs, all stations up. Refuses only with SHORT; extra entries
// stay.
pub fn empty(jobs: &mut [Job; JOBS], columns: &mut Lent<'_>) -> Answer
    ensures same { SameColumns columns.old columns.new }
    ensures leaves { made (stepped result jobs.new) (lent columns.new) ≡ empty_of (plant (lent columns.old) jobs.old) }
{
    if !clear(columns) {
        return Err(Refusal::Short);
    }
    // by `close`, which promises zeros: tried with `Job::default()`, and the proof didn't close
    *jobs = [jobs[0].close(); JOBS];
    Ok(0)
}
