// BEGIN, LOCKX, LOCKS and ABORT: a job opens, locks, and closes with its copies unchanged.
#![tactic(auto, using(crate::proofs::OneSlot::turns), unfolding(crate::specs::Calls::begin, crate::specs::Calls::lock_in, crate::specs::Calls::lockx, crate::specs::Calls::locks, crate::specs::Calls::abort, words::specs::Tests::refuse_if, words::specs::Tests::non))]

ghost use Rattle.std.specs.Prelude.{◌≡◌, List, leb};
ghost use Rattle.words.specs.declared.Refusal.TheVariants.{Short, BadEvent};
ghost use Rattle.words.specs.Numbers.{series_count, job_count, place_count};
ghost use Rattle.words.specs.Tests.{◌or◌};
ghost use Rattle.copies.specs.Columns.{seen};
ghost use Rattle.copies.specs.Calls.{lacks};
ghost use Rattle.jobs.specs.declared.Job.{Job};
ghost use Rattle.jobs.specs.Slots.{job_at};
ghost use Rattle.jobs.specs.Calls.{turn, turned, refuse, begin, lock_in, lockx, locks, abort};

use crate::Job;
use copies::{Seen, is_open, is_up, kind};
use words::{Answer, EXCLUSIVE, JOBS, PLACES, Refusal, SERIES, SHARE, STATIONS};

// 2 BEGIN: the job opens with no lock.
pub fn begin(job: &mut Job, columns: &Seen<'_>, slot: u32, station: u32) -> Answer
    ensures { (bs : List Job) → job.old ≡ job_at bs slot → turned bs slot (turn result job.new) ≡ begin (seen columns.now) bs slot station }
{
    if columns.up.len() < STATIONS {
        return Err(Refusal::Short);
    }
    if (JOBS <= slot as usize) | (STATIONS <= station as usize) {
        return Err(Refusal::BadEvent);
    }
    if job.is_open() {
        return Err(Refusal::Taken);
    }
    if !is_up(columns, station) {
        return Err(Refusal::Down);
    }
    *job = Job::begun(station);
    Ok(0)
}

// LOCKX and LOCKS: a lock of the mode, on a free copy of that kind.
fn lock(job: &mut Job, columns: &Seen<'_>, free: bool, slot: u32, series: u32, mode: u32) -> Answer
    ensures { (bs : List Job) → job.old ≡ job_at bs slot → turned bs slot (turn result job.new) ≡
        refuse bs Short (lacks series_count columns.now.firsts.now or lacks place_count columns.now.kinds.now)
        (refuse bs BadEvent (leb job_count slot or leb series_count series)
        (lock_in (seen columns.now) bs free slot series mode)) }
{
    if (columns.firsts.len() < SERIES) | (columns.kinds.len() < PLACES) {
        return Err(Refusal::Short);
    }
    if (JOBS <= slot as usize) | (SERIES <= series as usize) {
        return Err(Refusal::BadEvent);
    }
    if !is_open(columns, series) | !job.is_open() {
        return Err(Refusal::None);
    }
    if job.locks_series(series) {
        return Err(Refusal::Held);
    }
    if job.is_full() {
        return Err(Refusal::Full);
    }
    if kind(columns, series, job.station) != mode {
        return Err(Refusal::Copy);
    }
    if !free {
        return Err(Refusal::Locked);
    }
    *job = job.add_lock(series, mode);
    Ok(0)
}

// 3 LOCKX: needs a free exclusive copy; whether it is free, the caller has asked of the sixteen slots (`is_free`).
pub fn lock_exclusive(
    job: &mut Job,
    columns: &Seen<'_>,
    free: bool,
    slot: u32,
    series: u32,
) -> Answer
    ensures { (bs : List Job) → job.old ≡ job_at bs slot → turned bs slot (turn result job.new) ≡ lockx (seen columns.now) bs free slot series }
{
    lock(job, columns, free, slot, series, EXCLUSIVE)
}

// 4 LOCKS: needs a share copy, which other jobs may lock too.
pub fn lock_share(job: &mut Job, columns: &Seen<'_>, slot: u32, series: u32) -> Answer
    ensures { (bs : List Job) → job.old ≡ job_at bs slot → turned bs slot (turn result job.new) ≡ locks (seen columns.now) bs slot series }
{
    lock(job, columns, true, slot, series, SHARE)
}

// 8 ABORT: the job closes.
pub fn abort(job: &mut Job, slot: u32) -> Answer
    ensures { (bs : List Job) → job.old ≡ job_at bs slot → turned bs slot (turn result job.new) ≡ abort bs slot }
{
    if JOBS <= slot as usize {
        return Err(Refusal::BadEvent);
    }
    if !job.is_open() {
        return Err(Refusal::None);
    }
    *job = job.close();
    Ok(0)
}
