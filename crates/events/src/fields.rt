// Refusal 3, BAD EVENT, which needs no table: unknown kind; series, station or job too large; OPEN bounds broken; DRAW count or message
// number out of range; from = to; unused field not 0.
ghost use Rattle.std.specs.Prelude.{◌≡◌, ◌||◌, leb, ltb, eqb};
ghost use Rattle.words.specs.Numbers.{station_count, series_count, job_count, greatest_serial, greatest_sent};
ghost use Rattle.rulebook.specs.Tables.{Plant};
ghost use Rattle.rulebook.specs.Refusals.{BAD_EVENT};
ghost use Rattle.events.specs.Unchecked.{takes_job};

use rulebook::{
    ABORT, ACK, BEGIN, COMMIT, CRASH, DEMOTE, DRAW, DROP, Event, GRANT, LOCKS, LOCKX, OPEN,
    PROMOTE, READ, RESTART, SEND, SHARE,
};
use words::{GREATEST_SENT, GREATEST_SERIAL, JOBS, SERIES, STATIONS, Serial};

// No series has this number.
fn no_series(series: Serial) -> bool
    ensures { result ≡ leb series_count series }
{
    SERIES <= series as usize
}

// No station has this number.
fn no_station(station: Serial) -> bool
    ensures { result ≡ leb station_count station }
{
    STATIONS <= station as usize
}

// No job has this number.
fn no_job(job: Serial) -> bool
    ensures { result ≡ leb job_count job }
{
    JOBS <= job as usize
}

// No DRAW has this count.
fn no_count(count: Serial) -> bool
    ensures { result ≡ (eqb count 0 || ltb greatest_serial count) }
{
    (count == 0) | (GREATEST_SERIAL < count)
}

// No transfer has this number.
fn no_number(number: Serial) -> bool
    ensures { result ≡ (eqb number 0 || ltb greatest_sent number) }
{
    (number == 0) | (GREATEST_SENT < number)
}

// Whether an event is bad: the kind says which fields it has, and zeros stand in the rest.
#[tactic(auto, using(crate::proofs::BadEvents::bad_kinds))]
pub fn is_bad(event: Event) -> bool
    ensures { (p : Plant) → result ≡ BAD_EVENT p event }
{
    let Event { kind, a, b, c, d } = event;
    // 01 asks for this form: the kind as a local number, decided over seventeen cases with ranges for the rest
    match kind {
        OPEN => no_series(a) | (b == 0) | (c < b) | (GREATEST_SERIAL < c) | no_station(d),
        BEGIN => no_job(a) | no_station(b) | (c != 0) | (d != 0),
        LOCKX => no_job(a) | no_series(b) | (c != 0) | (d != 0),
        LOCKS => no_job(a) | no_series(b) | (c != 0) | (d != 0),
        DRAW => no_job(a) | no_series(b) | no_count(c) | (d != 0),
        READ => no_job(a) | no_series(b) | (c != 0) | (d != 0),
        COMMIT => no_job(a) | (b != 0) | (c != 0) | (d != 0),
        ABORT => no_job(a) | (b != 0) | (c != 0) | (d != 0),
        SEND => no_series(a) | no_station(b) | no_station(c) | (b == c) | (d != 0),
        DEMOTE => no_series(a) | no_station(b) | (c != 0) | (d != 0),
        SHARE => no_series(a) | no_station(b) | no_station(c) | (b == c) | (d != 0),
        DROP => no_series(a) | no_station(b) | (c != 0) | (d != 0),
        PROMOTE => no_series(a) | no_station(b) | (c != 0) | (d != 0),
        GRANT => no_series(a) | no_station(b) | no_station(c) | (b == c) | no_number(d),
        ACK => no_series(a) | no_station(b) | no_station(c) | (b == c) | no_number(d),
        CRASH => no_station(a) | (b != 0) | (c != 0) | (d != 0),
        RESTART => no_station(a) | (b != 0) | (c != 0) | (d != 0),
        0 | 18..=4294967295 => true,
    }
}

// Whether a job takes part in events of a kind.
pub fn takes_job(kind: u32) -> bool
    ensures { result ≡ takes_job kind }
{
    (BEGIN <= kind) & (kind <= ABORT) | (kind == CRASH)
}
