// An event by its kind: the call of the layer that it belongs to, and the step without the whole check.
ghost use Rattle.std.specs.Prelude.{◌≡◌, true, List, ℕ, eqb};
ghost use Rattle.copies.specs.Columns.{lent, SameColumns};
ghost use Rattle.copies.specs.Calls.{outcome};
ghost use Rattle.jobs.specs.declared.Job.{Job};
ghost use Rattle.jobs.specs.Slots.{job_at};
ghost use Rattle.jobs.specs.Calls as upper;
ghost use Rattle.rulebook.specs.Events.{CRASH};
ghost use Rattle.rulebook.specs.Tables.{plant};
ghost use Rattle.events.specs.Calls.{left};
ghost use Rattle.events.specs.Unchecked.{copy_event, job_turn, slot_of, unchecked_turn, unchecked_step};

use crate::fields::{is_bad, takes_job};
use crate::naming::{free_for, slot_of};
use copies::Lent;
use jobs::Job;
use rulebook::{
    ABORT, ACK, BEGIN, COMMIT, CRASH, DEMOTE, DRAW, DROP, Event, GRANT, LOCKS, LOCKX, OPEN,
    PROMOTE, READ, RESTART, SEND, SHARE,
};
use words::{Answer, JOBS, Refusal, Serial};

// An event that no job takes part in; `free` says that no job locks the copy. Each call takes columns and fields of its own, so a table of closures would be
// no plainer than this switch, nor would one of the jobs' calls.
fn copy_event(columns: &mut Lent<'_>, free: bool, event: Event) -> Answer
    ensures same { SameColumns columns.old columns.new }
    ensures leaves { outcome result (lent columns.new) ≡ copy_event (lent columns.old) free event }
{
    let Event { kind, a, b, c, d } = event;
    // each column by itself, to be lent on as the call uses it
    let firsts = &mut *columns.firsts;
    let lasts = &mut *columns.lasts;
    let kinds = &mut *columns.kinds;
    let values = &mut *columns.values;
    let sent = &mut *columns.sent;
    let relto = &mut *columns.relto;
    let relkind = &mut *columns.relkind;
    let relvalue = &mut *columns.relvalue;
    let received = &mut *columns.received;
    let up = &mut *columns.up;
    match kind {
        OPEN => copies::open_series(firsts, lasts, kinds, values, up, a, b, c, d),
        SEND => copies::send(
            firsts, kinds, values, sent, relto, relkind, relvalue, up, free, a, b, c,
        ),
        DEMOTE => copies::demote(firsts, kinds, up, free, a, b),
        SHARE => copies::share(
            firsts, kinds, values, sent, relto, relkind, relvalue, up, a, b, c,
        ),
        DROP => copies::drop(firsts, kinds, up, free, a, b),
        PROMOTE => copies::promote(
            firsts, kinds, sent, relto, relkind, received, up, free, a, b,
        ),
        GRANT => copies::grant(
            firsts, kinds, values, sent, relto, relkind, relvalue, received, up, a, b, c, d,
        ),
        ACK => copies::ack(
            firsts, sent, relto, relkind, relvalue, received, up, a, b, c, d,
        ),
        RESTART => copies::restart(kinds, up, a),
        _ => Err(Refusal::BadEvent),
    }
}

// An event that a job takes part in, but CRASH: what becomes of the job in its slot. `free` says, where LOCKX asks, that no job locks the copy.
fn job_event(
    job: &mut Job,
    free: bool,
    columns: &mut Lent<'_>,
    out: &mut [Serial],
    event: Event,
) -> Answer
    ensures same { SameColumns columns.old columns.new }
    ensures leaves { (bs : List Job) → job.old ≡ job_at bs event.a → upper.outcome (upper.turned bs event.a (upper.turn result job.new)) (lent columns.new) out.new
        ≡ job_turn (lent columns.old) bs free out.old event }
{
    let Event { kind, a, b, c, .. } = event;
    match kind {
        BEGIN => jobs::begin(job, &columns.seen(), a, b),
        LOCKX => jobs::lock_exclusive(job, &columns.seen(), free, a, b),
        LOCKS => jobs::lock_share(job, &columns.seen(), a, b),
        DRAW => jobs::draw(job, &columns.seen(), a, b, c),
        READ => jobs::read(*job, &columns.seen(), a, b),
        COMMIT => {
            // read only: as `&*`, or in the call, the borrow checker has no rule for it beside the other column
            let lasts = &mut *columns.lasts;
            jobs::commit(job, lasts, columns.values, out, a)
        }
        ABORT => jobs::abort(job, a),
        _ => Err(Refusal::BadEvent),
    }
}

// The step without the check on the one slot that an event may name (`slot_of`), of any kind but CRASH, which closes many jobs and gets BAD EVENT
// here. `free` says, where the kind asks, that no job locks the copy (`free_for`).
pub fn turn_unchecked(
    job: &mut Job,
    free: bool,
    columns: &mut Lent<'_>,
    out: &mut [Serial],
    event: Event,
) -> Answer
    ensures same { SameColumns columns.old columns.new }
    ensures leaves { (bs : List Job) → job.old ≡ job_at bs (slot_of event) → left (upper.turned bs (slot_of event) (upper.turn result job.new)) (lent columns.new) out.new
        ≡ unchecked_turn (plant (lent columns.old) bs) free out.old event }
{
    if is_bad(event) {
        return Err(Refusal::BadEvent);
    }
    if takes_job(event.kind) & ((event.a as usize) < JOBS) {
        return job_event(job, free, columns, out, event);
    }
    copy_event(columns, free, event)
}

// CRASH without the check.
fn crash_event(jobs: &mut [Job; JOBS], columns: &mut Lent<'_>, event: Event) -> Answer
    ensures same { SameColumns columns.old columns.new }
    ensures leaves { (out : List ℕ) → eqb event.kind CRASH ≡ true → left (upper.stepped result jobs.new) (lent columns.new) out
        ≡ unchecked_step (plant (lent columns.old) jobs.old) out event }
{
    if !is_bad(event) {
        return jobs::crash(jobs, columns.up, event.a);
    }
    Err(Refusal::BadEvent)
}

// The step without the check: in whole tables it is the step, and in others it still answers, as the calls of the layers do. The slot that the event
// may name is taken out, takes its turn, and is put back.
pub fn step_unchecked(
    jobs: &mut [Job; JOBS],
    columns: &mut Lent<'_>,
    out: &mut [Serial],
    event: Event,
) -> Answer
    ensures same { SameColumns columns.old columns.new }
    ensures leaves { left (upper.stepped result jobs.new) (lent columns.new) out.new
        ≡ unchecked_step (plant (lent columns.old) jobs.old) out.old event }
{
    if event.kind == CRASH {
        return crash_event(jobs, columns, event);
    }
    let at = slot_of(event);
    let mut job = jobs[at];
    let free = free_for(jobs, job, event);
    let answer = turn_unchecked(&mut job, free, columns, out, event);
    jobs[at] = job;
    answer
}
