// The walk over the sixteen slots that finds the first broken rule of the jobs: W1, W4 or W5.
// Only the walk itself is left early: a test that runs its loop to the end is faster.
// Private contracts repeat that the tables aren't short and the numbers in range: a struct that carries these facts would be made anew at each
// call, which is no plainer.
#![tactic(auto, using(crate::proofs::Ways::walking), unfolding(crate::specs::Whole::W1_lock, crate::specs::Whole::W1_job, crate::specs::Whole::W4_exclusive, crate::specs::Whole::W4_share, crate::specs::Whole::W4_differs, crate::specs::Whole::W4_lock, crate::specs::Whole::W4_locks, crate::specs::Whole::meets, crate::specs::Whole::W4_alone, crate::specs::Whole::W4_job, crate::specs::Whole::W5_lock, crate::specs::Whole::W5_job, crate::specs::FirstBroken::broken_job, crate::specs::FirstBroken::first_broken_job, crate::specs::FirstBroken::short_for_jobs, crate::specs::FirstBroken::check_jobs, copies::specs::FirstBroken::found_by, copies::specs::Calls::bad_copy, copies::specs::Calls::beyond, words::specs::Tests::non))]

ghost use Rattle.std.specs.Prelude.{◌≡◌, List, cond, ℕ, false, ◌<◌, eqb};
ghost use Rattle.words.specs.Numbers.{station_count, series_count, job_count, lock_count};
ghost use Rattle.words.specs.Tests.{non, ◌and◌, all_below};
ghost use Rattle.copies.specs.Columns.{seen};
ghost use Rattle.copies.specs.Tables.{series_at};
ghost use Rattle.jobs.specs.Job.{lock_at, is_used};
ghost use Rattle.jobs.specs.Slots.{job_at};
ghost use Rattle.jobs.specs.Whole.{W1_lock, W1_job, W4_exclusive, W4_share, W4_differs, W4_lock, W4_locks, meets, W4_alone, W4_job, W5_lock, W5_job};
ghost use Rattle.jobs.specs.FirstBroken.{broken_job, first_broken_job, short_for_jobs, check_jobs};

use crate::{Job, Lock};
use copies::{Seen, beyond, is_open, is_up, kind};
use words::{EXCLUSIVE, Flaw, GREATEST_SERIAL, JOBS, LOCKS, PLACES, Rule, SERIES, SHARE, STATIONS};

// W1 of a lock place.
fn lock_in_range(lock: Lock) -> bool
    ensures { result ≡ W1_lock lock }
{
    ((lock.series as usize) < SERIES) & (lock.mode <= EXCLUSIVE) & (lock.drawn <= GREATEST_SERIAL)
}

// W1 of a job slot.
fn in_range(job: Job) -> bool
    ensures { result ≡ W1_job job }
{
    let mut all = true;
    for lock in job.locks {
        all = all & lock_in_range(lock);
    }
    (job.mark <= 1) & ((job.station as usize) < STATIONS) & all
}

// W4: whether no earlier lock of the job is on the series of place i.
pub fn differs(job: Job, i: usize) -> bool
    requires { i < lock_count }
    ensures { result ≡ W4_differs job i }
{
    let series = job.locks[i].series;
    let mut all = true;
    for lock in &job.locks[..i] {
        all = all & !lock.is_on(series);
    }
    all
}

// W4 of an exclusive lock at a station, by itself.
fn exclusive_fine(lock: Lock, columns: &Seen<'_>, station: u32) -> bool
    requires { (short_for_jobs (seen columns.now) ≡ false) × (station < station_count) × (lock.series < series_count) }
    ensures { result ≡ W4_exclusive lock (series_at (seen columns.now) lock.series) station }
{
    (kind(columns, lock.series, station) == EXCLUSIVE)
        & !beyond(columns, lock.series, station, lock.drawn)
}

// W4 of a share lock at a station, by itself.
fn share_fine(lock: Lock, columns: &Seen<'_>, station: u32) -> bool
    requires { (short_for_jobs (seen columns.now) ≡ false) × (station < station_count) × (lock.series < series_count) }
    ensures { result ≡ W4_share lock (series_at (seen columns.now) lock.series) station }
{
    (kind(columns, lock.series, station) == SHARE) & (lock.drawn == 0)
}

// W4 of lock place i by itself.
fn lock_fine(job: Job, columns: &Seen<'_>, i: usize) -> bool
    requires { (short_for_jobs (seen columns.now) ≡ false) × (job.station < station_count) × ((lock_at job i).series < series_count) × (i < lock_count) }
    ensures { result ≡ W4_lock (seen columns.now) job i }
{
    let lock = job.locks[i];
    if !lock.is_used() {
        return true;
    }
    let fine = is_open(columns, lock.series) & differs(job, i);
    match lock.mode {
        EXCLUSIVE => fine & exclusive_fine(lock, columns, job.station),
        SHARE => fine & share_fine(lock, columns, job.station),
        _ => fine,
    }
}

// W4 of the four lock places.
fn locks_fine(job: Job, columns: &Seen<'_>) -> bool
    requires { (short_for_jobs (seen columns.now) ≡ false) × (job.station < station_count) × ((i : ℕ) → i < lock_count → (lock_at job i).series < series_count) }
    ensures { result ≡ W4_locks (seen columns.now) job }
{
    let mut all = true;
    // by its number, since a place is compared with those before it
    for i in 0..LOCKS {
        all = all & lock_fine(job, columns, i);
    }
    all
}

// W4: whether another job locks a copy that the job locks exclusively.
fn meets(job: Job, other: Job) -> bool
    ensures { result ≡ meets job other }
{
    if !other.is_at(job.station) {
        return false;
    }
    let mut some = false;
    for lock in job.locks {
        some = some | ((lock.mode == EXCLUSIVE) & other.locks_series(lock.series));
    }
    some
}

// W4: whether no other job locks what job j locks exclusively.
fn alone(jobs: &[Job; JOBS], j: usize) -> bool
    requires { j < job_count }
    ensures { result ≡ W4_alone jobs.now j }
{
    let job = jobs[j];
    let mut all = true;
    for (k, other) in jobs.iter().enumerate() {
        all = all & ((k == j) | !meets(job, *other));
    }
    all
}

// W5 of a lock place, by whether all before it are used.
fn place_fine(lock: Lock, before: bool) -> bool
    ensures { result ≡ cond (eqb lock.mode 0) (eqb lock.series 0 and eqb lock.drawn 0) before }
{
    if lock.is_used() {
        before
    } else {
        (lock.series == 0) & (lock.drawn == 0)
    }
}

// W5 of the four lock places.
fn places_fine(job: Job) -> bool
    ensures { result ≡ all_below lock_count (λ i. W5_lock job i) }
{
    let mut before = true;
    let mut all = true;
    for lock in job.locks {
        all = all & place_fine(lock, before);
        before = before & lock.is_used();
    }
    all
}

// Whether no lock place is used.
fn has_no_lock(job: Job) -> bool
    ensures { result ≡ all_below lock_count (λ i. non (is_used job i)) }
{
    let mut all = true;
    for lock in job.locks {
        all = all & !lock.is_used();
    }
    all
}

// W5 of a job slot.
fn unused_fine(job: Job) -> bool
    ensures { result ≡ W5_job job }
{
    let places = places_fine(job);
    if job.mark == 0 {
        return places & ((job.station == 0) & has_no_lock(job));
    }
    places
}

// W4 of a job whose numbers are in range; `apart` says that no other job locks what it locks exclusively.
fn open_fine(job: Job, columns: &Seen<'_>, apart: bool) -> bool
    requires { (short_for_jobs (seen columns.now) ≡ false) × (job.station < station_count) × ((i : ℕ) → i < lock_count → (lock_at job i).series < series_count) }
    ensures { (bs : List Job) (j : ℕ) → job ≡ job_at bs j → apart ≡ W4_alone bs j → result ≡ W4_job (seen columns.now) bs j }
{
    if !job.is_open() {
        return true;
    }
    is_up(columns, job.station) & locks_fine(job, columns) & apart
}

// The first rule that a job breaks; `apart` says that no other job locks what it locks exclusively.
fn job_rule(job: Job, columns: &Seen<'_>, apart: bool) -> Option<Rule>
    requires { short_for_jobs (seen columns.now) ≡ false }
    ensures { (bs : List Job) (j : ℕ) → job ≡ job_at bs j → apart ≡ W4_alone bs j → result ≡ broken_job (seen columns.now) bs j }
{
    if !in_range(job) {
        return Some(Rule::W1);
    }
    if !open_fine(job, columns, apart) {
        return Some(Rule::W4);
    }
    if !unused_fine(job) {
        return Some(Rule::W5);
    }
    None
}

// The first rule that the slots break.
#[tactic(auto, using(crate::proofs::Ways::walking), unfolding(crate::specs::FirstBroken::first_broken_job, crate::specs::FirstBroken::broken_job, crate::specs::Whole::W4_job))]
fn broken_rule(jobs: &[Job; JOBS], columns: &Seen<'_>) -> Option<Rule>
    requires { short_for_jobs (seen columns.now) ≡ false }
    ensures { result ≡ first_broken_job (seen columns.now) jobs.now }
{
    for (j, job) in jobs.iter().enumerate() {
        // Most slots are unused, which a look at the slot alone tells.
        let unused = !job.is_open() & in_range(*job) & unused_fine(*job);
        if unused {
            continue;
        }
        if let Some(rule) = job_rule(*job, columns, alone(jobs, j)) {
            return Some(rule);
        }
    }
    None
}

// What the walk finds wrong in the slots and in tables of any size.
pub fn first_broken_job(jobs: &[Job; JOBS], columns: &Seen<'_>) -> Result<(), Flaw>
    ensures { result ≡ check_jobs (seen columns.now) jobs.now }
{
    let short = (columns.firsts.len() < SERIES)
        | (columns.lasts.len() < SERIES)
        | (columns.kinds.len() < PLACES)
        | (columns.values.len() < PLACES)
        | (columns.up.len() < STATIONS);
    if short {
        return Err(Flaw::Short);
    }
    if let Some(rule) = broken_rule(jobs, columns) {
        return Err(Flaw::Broken(rule));
    }
    Ok(())
}
