// COMMIT: every count that the job has drawn is added to its copy's value, and the serials leave the machine.
#![tactic(auto, using(crate::proofs::Stored::outcomes), unfolding(crate::specs::Calls::commit, crate::specs::Calls::commit_in, words::specs::Tests::refuse_if, words::specs::Tests::non))]

ghost use Rattle.std.specs.Prelude.{◌≡◌, List, ℕ, ◌+◌, ◌<◌, ◌≤◌, length};
ghost use Rattle.words.specs.Numbers.{lock_count, out_count};
ghost use Rattle.copies.specs.Tables.{tables};
ghost use Rattle.jobs.specs.Draws.{draw_fits, fits};
ghost use Rattle.jobs.specs.Store.{store, store_one, store_first};
ghost use Rattle.jobs.specs.declared.Job.{Job};
ghost use Rattle.jobs.specs.Slots.{job_at};
ghost use Rattle.jobs.specs.Calls.{turn, turned, outcome, commit};

use crate::walk::differs;
use crate::{Job, Lock};
use copies::{Seen, beyond, raise, value};
use words::{Answer, GREATEST_SERIAL, JOBS, LOCKS, OUTPUT, PLACES, Refusal, SERIES, Serial};

// The two columns that COMMIT uses, to be read.
fn to_read<'a>(lasts: &'a [Serial], values: &'a [Serial]) -> Seen<'a>
    ensures { (result.lasts.now ≡ lasts.now) × (result.values.now ≡ values.now) }
{
    Seen {
        firsts: &[],
        lasts,
        kinds: &[],
        values,
        sent: &[],
        relto: &[],
        relkind: &[],
        relvalue: &[],
        received: &[],
        up: &[],
    }
}

// Whether what place i has drawn can be added to its copy's value: always so in whole tables.
#[tactic(auto, using(copies::proofs::Guards::chain), unfolding(crate::specs::Draws::draw_fits, words::specs::Tests::non))]
fn draw_fits(job: Job, columns: &Seen<'_>, i: usize) -> bool
    requires { i < lock_count }
    ensures { result ≡ draw_fits columns.now.lasts.now columns.now.values.now job i }
{
    let lock = job.locks[i];
    if lock.drawn == 0 {
        return true;
    }
    if beyond(columns, lock.series, job.station, lock.drawn) {
        return false;
    }
    let next = value(columns, lock.series, job.station);
    let within = next as u64 + lock.drawn as u64 <= GREATEST_SERIAL as u64 + 1;
    within & lock.is_used() & differs(job, i)
}

// Whether all that the job has drawn can be added: place by place by its number, since each is compared with those before it.
#[tactic(auto, using(words::proofs::Laws::all_none, words::proofs::Laws::all_next, words::proofs::Laws::all_end), unfolding(crate::specs::Draws::fits))]
fn fits(job: Job, columns: &Seen<'_>) -> bool
    ensures { result ≡ fits columns.now.lasts.now columns.now.values.now job }
{
    let mut all = true;
    // a loop to the end, as in the walk
    for i in 0..LOCKS {
        all = all & draw_fits(job, columns, i);
    }
    all
}

// Stores what a lock has drawn: three numbers into the output, behind those of so many draws, and the sum into the copy. 1 if there was a draw, else 0.
#[tactic(auto, using(crate::proofs::Stored::one_none, crate::proofs::Stored::one_stored))]
fn store_one(
    lasts: &[Serial],
    values: &mut [Serial],
    out: &mut [Serial],
    station: u32,
    lock: Lock,
    count: usize,
) -> usize
    requires { (out_count ≤ length out.old) × (count < lock_count) }
    ensures most { result ≤ 1 }
    ensures leaves { (fs ks ns rt rk rv gs us : List ℕ) → store (count + result) (tables fs lasts.now ks values.new ns rt rk rv gs us) out.new
        ≡ store_one station lock (store count (tables fs lasts.now ks values.old ns rt rk rv gs us) out.old) }
{
    let drawn = lock.drawn;
    if drawn == 0 {
        return 0;
    }
    let first = value(&to_read(lasts, values), lock.series, station);
    out[3 * count] = lock.series;
    out[3 * count + 1] = first;
    out[3 * count + 2] = drawn;
    // Never refused: `fits` has tested that the count can be added.
    let _ = raise(lasts, values, lock.series, station, drawn);
    1
}

// Stores all that the job has drawn, in order of locking; how many draws there were.
#[tactic(auto, using(crate::proofs::Stored::store_none, crate::proofs::Stored::store_next))]
fn store_all(job: Job, lasts: &[Serial], values: &mut [Serial], out: &mut [Serial]) -> usize
    requires { out_count ≤ length out.old }
    ensures places { length job.locks ≡ lock_count }
    ensures most { result ≤ lock_count }
    ensures leaves { (fs ks ns rt rk rv gs us : List ℕ) → store result (tables fs lasts.now ks values.new ns rt rk rv gs us) out.new
        ≡ store_first job lock_count (store 0 (tables fs lasts.now ks values.old ns rt rk rv gs us) out.old) }
{
    let mut count = 0;
    for lock in &job.locks {
        count += store_one(lasts, values, out, job.station, *lock, count);
    }
    count
}

// 7 COMMIT: each drawn count is added to the copy's value and shown in the output, and the job closes; the value is the number of draws.
pub fn commit(
    job: &mut Job,
    lasts: &[Serial],
    values: &mut [Serial],
    out: &mut [Serial],
    slot: u32,
) -> Answer
    ensures { (fs ks ns rt rk rv gs us : List ℕ) (bs : List Job) → job.old ≡ job_at bs slot → outcome (turned bs slot (turn result job.new)) (tables fs lasts.now ks values.new ns rt rk rv gs us) out.new
        ≡ commit (tables fs lasts.now ks values.old ns rt rk rv gs us) bs out.old slot }
{
    if (lasts.len() < SERIES) | (values.len() < PLACES) | (out.len() < OUTPUT) {
        return Err(Refusal::Short);
    }
    if JOBS <= slot as usize {
        return Err(Refusal::BadEvent);
    }
    if !job.is_open() {
        return Err(Refusal::None);
    }
    if !fits(*job, &to_read(lasts, values)) {
        return Err(Refusal::NotWhole);
    }
    let count = store_all(*job, lasts, values, out);
    *job = job.close();
    Ok(count as Serial)
}
