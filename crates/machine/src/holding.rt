// Who holds a series, as a station set with its count and its lowest station. Refusals 1, 2, 3 and 5.
ghost use Rattle.std.specs.Prelude.{◌≡◌, ◌≤◌, length};
ghost use Rattle.words.specs.Numbers.{series_count, place_count};
ghost use Rattle.copies.specs.Columns.{seen};
ghost use Rattle.copies.specs.Tables.{series_at};
ghost use Rattle.rulebook.specs.Tables.{plant};
ghost use Rattle.rulebook.specs.Around.{no_holders, holders_there, holders_of};
ghost use Rattle.machine.specs.Holding.{by_set};

use crate::whole::check;
use copies::{Seen, is_open};
use jobs::Job;
use rulebook::Holders;
use words::{Answer, JOBS, Refusal, SERIES};

// A refusal, with all three 0.
pub fn no_holders(answer: Answer) -> Holders
    ensures { result ≡ no_holders answer }
{
    Holders {
        answer,
        set: 0,
        count: 0,
        lowest: 0,
    }
}

// The set's ones are the count, its trailing zeros the lowest holder: 8 where the byte is empty.
fn counted(set: u8) -> Holders
    ensures { result ≡ by_set set }
{
    Holders {
        answer: Ok(0),
        set,
        count: u8::count_ones(set),
        lowest: u8::trailing_zeros(set),
    }
}

// The holders where the tables are whole: refusals 3 and 5 are left.
fn holders_in(columns: &Seen<'_>, series: u32) -> Holders
    requires { (series_count ≤ length columns.now.firsts.now) × (place_count ≤ length columns.now.kinds.now) }
    ensures { result ≡ holders_there (series_at (seen columns.now) series) series }
{
    if SERIES <= series as usize {
        return no_holders(Err(Refusal::BadEvent));
    }
    if !is_open(columns, series) {
        return no_holders(Err(Refusal::None));
    }
    counted(copies::holders(columns, series))
}

// The holders of a series, in tables of any size. The check comes first: refusals 1 and 2.
pub fn holders(jobs: &[Job; JOBS], columns: &Seen<'_>, series: u32) -> Holders
    ensures { result ≡ holders_of (plant (seen columns.now) jobs.now) series }
{
    match check(jobs, columns) {
        Ok(()) => holders_in(columns, series),
        Err(flaw) => no_holders(Err(Refusal::from(flaw))),
    }
}
