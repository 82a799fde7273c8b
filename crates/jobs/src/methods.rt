// The job record by value. Its methods read it, or add a lock, note a draw, close it, and hand the record back.
#![tactic(auto, using(copies::proofs::Guards::chain, crate::proofs::Places::places), unfolding(words::specs::Tests::non, crate::specs::Job::begun, crate::specs::Job::with_lock, crate::specs::Job::with_draw))]

ghost use Rattle.std.specs.Prelude.{◌≡◌, eqb};
ghost use Rattle.words.specs.Tests.{non, ◌and◌};
ghost use Rattle.jobs.specs.Job.{no_lock, no_job, job_open, job_there, locks_series, place_found, lock_place, lock_on, is_full, new_place, begun, with_lock, with_draw};
ghost use Rattle.jobs.specs.Slots.{locks_copy};

use crate::{Job, Lock};
use words::Serial;

impl Lock {
    // An unused lock place.
    pub fn unused() -> Lock
        ensures { result ≡ no_lock }
    {
        Lock::default()
    }

    // Whether the place is used.
    pub fn is_used(self) -> bool
        ensures { result ≡ non (eqb self.mode 0) }
    {
        self.mode != 0
    }

    // Whether the place locks a series.
    pub fn is_on(self, series: u32) -> bool
        ensures { result ≡ (non (eqb self.mode 0) and eqb self.series series) }
    {
        self.is_used() & (self.series == series)
    }
}

impl Job {
    // BEGIN: a job opens at a station, with no lock.
    pub fn begun(station: u32) -> Job
        ensures { result ≡ begun station }
    {
        Job {
            mark: 1,
            station,
            ..Job::default()
        }
    }

    // The job closes: its slot is zeros.
    pub fn close(self) -> Job
        ensures { result ≡ no_job }
    {
        Job::default()
    }

    // Whether the job is open.
    pub fn is_open(self) -> bool
        ensures { result ≡ job_open self }
    {
        self.mark == 1
    }

    // Whether the job is open, at a station.
    pub fn is_at(self, station: u32) -> bool
        ensures { result ≡ job_there self station }
    {
        self.is_open() & (self.station == station)
    }

    // The place that locks a series.
    pub fn lock_place(self, series: u32) -> Option<usize>
        ensures { result ≡ place_found (lock_place self series) }
    {
        self.locks.iter().position(|lock| lock.is_on(series))
    }

    // The first unused place.
    pub fn new_place(self) -> Option<usize>
        ensures { result ≡ place_found (new_place self) }
    {
        self.locks.iter().position(|lock| !lock.is_used())
    }

    // Whether the job locks a series.
    pub fn locks_series(self, series: u32) -> bool
        ensures { result ≡ locks_series self series }
    {
        self.lock_place(series).is_some()
    }

    // Whether the job locks the copy of a series at a station.
    pub fn locks_copy(self, series: u32, station: u32) -> bool
        ensures { result ≡ locks_copy self series station }
    {
        self.is_at(station) && self.locks_series(series)
    }

    // Whether the job has four locks.
    pub fn is_full(self) -> bool
        ensures { result ≡ is_full self }
    {
        self.new_place().is_none()
    }

    // The lock on a series, or an unused one.
    pub fn lock_on(self, series: u32) -> Lock
        ensures { result ≡ lock_on self series }
    {
        match self.lock_place(series) {
            Some(at) => self.locks[at],
            None => Lock::unused(),
        }
    }

    // LOCKX, LOCKS: a lock in the first unused place; a full job stays.
    pub fn add_lock(mut self, series: u32, mode: u32) -> Job
        ensures { result ≡ with_lock self series mode }
    {
        if let Some(at) = self.new_place() {
            self.locks[at] = Lock {
                series,
                mode,
                drawn: 0,
            };
        }
        self
    }

    // DRAW: the lock on the series notes the count; a job without one stays.
    pub fn note_draw(mut self, series: u32, count: Serial) -> Job
        ensures { result ≡ with_draw self series count }
    {
        if let Some(at) = self.lock_place(series) {
            self.locks[at].drawn = count;
        }
        self
    }
}
