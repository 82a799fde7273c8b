// Who holds a series, over lent tables.
ghost use Rattle.std.specs.Prelude.{◌≡◌};
ghost use Rattle.copies.specs.Columns.{seen};
ghost use Rattle.rulebook.specs.Tables.{plant};
ghost use Rattle.rulebook.specs.Around.{holders_of};

use crate::slots::taken_out;
use copies::Seen;
use jobs::Job;
use rulebook::Holders;
use words::{JOBS, Refusal};

// The holders of a series: the station set, its count and its lowest station. Refusals 1, 2, 3 and 5.
pub fn holders(jobs: &[Job], columns: &Seen<'_>, series: u32) -> Holders
    ensures { result ≡ holders_of (plant (seen columns.now) jobs.now) series }
{
    if jobs.len() < JOBS {
        return machine::no_holders(Err(Refusal::Short));
    }
    machine::holders(&taken_out(jobs), columns, series)
}
