// The check of all lent tables, which comes before everything else: the lower layer's walk and then, where it finds nothing, the jobs'.
ghost use Rattle.std.specs.Prelude.{◌≡◌};
ghost use Rattle.copies.specs.Columns.{seen};
ghost use Rattle.rulebook.specs.Tables.{plant};
ghost use Rattle.rulebook.specs.Whole.{check};

use copies::{Seen, first_broken};
use jobs::{Job, first_broken_job};
use words::{Flaw, JOBS};

// What the check finds wrong in the lent tables: one is short, or the rule broken first.
pub fn check(jobs: &[Job; JOBS], columns: &Seen<'_>) -> Result<(), Flaw>
    ensures { result ≡ check (plant (seen columns.now) jobs.now) }
{
    first_broken(columns)?;
    first_broken_job(jobs, columns)
}
