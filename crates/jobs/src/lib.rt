// Job records and locks, above the copies. What they mean stands in specs/.
#![tactic(auto)]

use words::{LOCKS, Serial};

mod committing;
mod drawing;
mod locking;
mod methods;
mod slots;
mod walk;

pub use committing::commit;
pub use drawing::{draw, read};
pub use locking::{abort, begin, lock_exclusive, lock_share};
pub use slots::{close_station, crash, is_free};
pub use walk::first_broken_job;

// A lock of a job: an unused place has mode 0. Laid out as in C, in numbers, since other programs lend tables of jobs.
#[repr(C)]
#[derive(Clone, Copy, Default)]
pub struct Lock {
    pub series: u32,
    pub mode: u32,
    pub drawn: Serial,
}

// A job slot: the mark is 1 where the job is open, and an unused slot is all zero.
#[repr(C)]
#[derive(Clone, Copy, Default)]
pub struct Job {
    pub mark: u32,
    pub station: u32,
    pub locks: [Lock; LOCKS],
}
