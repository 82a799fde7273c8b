// DRAW and READ: what a job does with the series that it locks. No serial leaves the machine here.
#![tactic(auto, using(crate::proofs::OneSlot::turns, crate::proofs::Places::places), unfolding(crate::specs::Calls::draw, crate::specs::Calls::draw_in, crate::specs::Calls::read, crate::specs::Calls::read_in, words::specs::Tests::refuse_if, words::specs::Tests::non))]

ghost use Rattle.std.specs.Prelude.{◌≡◌, List};
ghost use Rattle.copies.specs.Columns.{seen};
ghost use Rattle.jobs.specs.declared.Job.{Job};
ghost use Rattle.jobs.specs.Slots.{job_at};
ghost use Rattle.jobs.specs.Calls.{turn, turned, draw, read};

use crate::Job;
use copies::{Seen, beyond, is_open, value};
use words::{Answer, EXCLUSIVE, GREATEST_SERIAL, JOBS, PLACES, Refusal, SERIES, Serial};

// 5 DRAW: notes the count.
pub fn draw(job: &mut Job, columns: &Seen<'_>, slot: u32, series: u32, count: Serial) -> Answer
    ensures { (bs : List Job) → job.old ≡ job_at bs slot → turned bs slot (turn result job.new) ≡ draw (seen columns.now) bs slot series count }
{
    if (columns.firsts.len() < SERIES)
        | (columns.lasts.len() < SERIES)
        | (columns.values.len() < PLACES)
    {
        return Err(Refusal::Short);
    }
    if (JOBS <= slot as usize)
        | (SERIES <= series as usize)
        | (count == 0)
        | (GREATEST_SERIAL < count)
    {
        return Err(Refusal::BadEvent);
    }
    if !is_open(columns, series) | !job.is_open() {
        return Err(Refusal::None);
    }
    let lock = job.lock_on(series);
    if !job.locks_series(series) | (lock.mode != EXCLUSIVE) {
        return Err(Refusal::NoLock);
    }
    if lock.drawn != 0 {
        return Err(Refusal::Drawn);
    }
    if beyond(columns, series, job.station, count) {
        return Err(Refusal::Range);
    }
    *job = job.note_draw(series, count);
    Ok(0)
}

// 6 READ: the value of the station's copy and the job's own drawn count.
pub fn read(job: Job, columns: &Seen<'_>, slot: u32, series: u32) -> Answer
    ensures { (bs : List Job) → job ≡ job_at bs slot → result ≡ read (seen columns.now) bs slot series }
{
    if (columns.firsts.len() < SERIES) | (columns.values.len() < PLACES) {
        return Err(Refusal::Short);
    }
    if (JOBS <= slot as usize) | (SERIES <= series as usize) {
        return Err(Refusal::BadEvent);
    }
    if !is_open(columns, series) | !job.is_open() {
        return Err(Refusal::None);
    }
    if !job.locks_series(series) {
        return Err(Refusal::NoLock);
    }
    let lock = job.lock_on(series);
    let next = value(columns, series, job.station);
    if GREATEST_SERIAL as u64 + 1 < next as u64 + lock.drawn as u64 {
        return Err(Refusal::NotWhole);
    }
    Ok(next + lock.drawn)
}
