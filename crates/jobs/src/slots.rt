// The sixteen slots: whether a copy is free, and what a crash closes.
ghost use Rattle.std.specs.Prelude.{◌≡◌, List, ℕ};
ghost use Rattle.copies.specs.Tables.{tables};
ghost use Rattle.jobs.specs.Slots.{free, closed_at, count_at};
ghost use Rattle.jobs.specs.Calls.{stepped, outcome, crash};

use crate::Job;
use words::{Answer, JOBS};

// Whether no job locks the copy of a series at a station.
#[tactic(auto, using(crate::proofs::Turns::turns), unfolding(crate::specs::Slots::free, words::specs::Tests::non))]
pub fn is_free(jobs: &[Job; JOBS], series: u32, station: u32) -> bool
    ensures { result ≡ free jobs.now series station }
{
    let mut all = true;
    // a loop to the end, as in the walk
    for job in jobs {
        all = all & !job.locks_copy(series, station);
    }
    all
}

// The jobs of a station are closed; how many they were.
#[tactic(auto, using(crate::proofs::Closing::closing), unfolding(crate::specs::Slots::closed_at, crate::specs::Slots::count_at, words::specs::Tests::one_if))]
pub fn close_station(jobs: &mut [Job; JOBS], station: u32) -> u32
    ensures closed { jobs.new ≡ closed_at station jobs.old }
    ensures count { result ≡ count_at station jobs.old }
{
    let mut count = 0;
    for job in jobs {
        if job.is_at(station) {
            *job = job.close();
            count += 1;
        }
    }
    count
}

// 16 CRASH: the station is down, its jobs are closed; the value is how many.
#[tactic(auto, using(copies::proofs::Guards::chain), unfolding(crate::specs::Calls::crash, copies::specs::Calls::crash, words::specs::Tests::refuse_if, words::specs::Tests::non))]
pub fn crash(jobs: &mut [Job; JOBS], up: &mut [u32], station: u32) -> Answer
    ensures { (fs ls ks vs ns rt rk rv gs out : List ℕ) → outcome (stepped result jobs.new) (tables fs ls ks vs ns rt rk rv gs up.new) out
        ≡ crash (tables fs ls ks vs ns rt rk rv gs up.old) jobs.old out station }
{
    copies::crash(up, station)?;
    Ok(close_station(jobs, station))
}
