// The slot that an event names, and whether the copy that it is about is free.
ghost use Rattle.std.specs.Prelude.{◌≡◌, ◌<◌};
ghost use Rattle.words.specs.Numbers.{job_count};
ghost use Rattle.events.specs.Unchecked.{slot_of, asks_free, free_for};

use jobs::{Job, is_free};
use rulebook::{DEMOTE, DROP, Event, LOCKX, PROMOTE, SEND};
use words::JOBS;

// Whether events of a kind ask that a copy is free.
pub fn asks_free(kind: u32) -> bool
    ensures { result ≡ asks_free kind }
{
    (kind == LOCKX) | (kind == SEND) | (kind == DEMOTE) | (kind == DROP) | (kind == PROMOTE)
}

// Whether the copy that an event is about is free, as far as its kind asks: of LOCKX the one at the job's station.
pub fn free_for(jobs: &[Job; JOBS], job: Job, event: Event) -> bool
    ensures { result ≡ free_for jobs.now job event }
{
    if !asks_free(event.kind) {
        return true;
    }
    if event.kind == LOCKX {
        return is_free(jobs, event.b, job.station);
    }
    is_free(jobs, event.a, event.b)
}

// The slot that an event may name: its first field, where there is such a slot, else slot 0, which then stays.
pub fn slot_of(event: Event) -> usize
    ensures { (result ≡ slot_of event) × (result < job_count) }
{
    let a = event.a as usize;
    if a < JOBS {
        return a;
    }
    0
}
