// The table of job slots, lent as a slice: thin functions take one slot out, call its methods and put it back. 01 asks for this form, so the
// loops name the slots by number.
ghost use Rattle.std.specs.Prelude.{◌≡◌, ◌++◌, ◌<◌, ◌≤◌, length, set, take, drop, replicate};
ghost use Rattle.std.proofs.lemmas.List.Edits.{sets};
ghost use Rattle.words.specs.Numbers.{job_count};
ghost use Rattle.jobs.specs.Job.{no_job};
ghost use Rattle.jobs.specs.Slots.{job_at};

use jobs::Job;
use words::JOBS;

// Sixteen slots by value, all unused.
fn unused() -> [Job; JOBS]
    ensures { result ≡ replicate job_count no_job }
{
    [Job::default(); JOBS]
}

// One slot is taken out.
fn slot(jobs: &[Job], at: usize) -> Job
    requires { at < length jobs.now }
    ensures { result ≡ job_at jobs.now at }
{
    jobs[at]
}

// One slot is put back.
fn put(jobs: &mut [Job], at: usize, job: Job)
    requires { at < length jobs.old }
    ensures { jobs.new ≡ set jobs.old at job }
{
    jobs[at] = job;
}

// One slot is taken out, its job closes, and it is put back.
fn close_slot(jobs: &mut [Job], at: usize)
    requires { at < length jobs.old }
    ensures { jobs.new ≡ set jobs.old at no_job }
{
    let job = slot(jobs, at);
    put(jobs, at, job.close());
}

// The sixteen slots are taken out.
pub fn taken_out(jobs: &[Job]) -> [Job; JOBS]
    requires { job_count ≤ length jobs.now }
    ensures { result ≡ take job_count jobs.now }
{
    let mut all = unused();
    for i in 0..JOBS {
        all[i] = slot(jobs, i);
    }
    all
}

// The sixteen slots are put back; extra slots stay.
pub fn put_back(jobs: &mut [Job], all: [Job; JOBS])
    requires { job_count ≤ length jobs.old }
    ensures { jobs.new ≡ all ++ drop job_count jobs.old }
{
    for i in 0..JOBS {
        put(jobs, i, all[i]);
    }
}

// The jobs in the sixteen slots close; extra slots stay.
pub fn close_slots(jobs: &mut [Job])
    requires { job_count ≤ length jobs.old }
    ensures { jobs.new ≡ sets jobs.old 0 (replicate job_count no_job) }
{
    for i in 0..JOBS {
        close_slot(jobs, i);
    }
}
