// The call from outside: an empty plant, and the list of events.
ghost use Rattle.std.specs.Prelude.{◌≡◌};
ghost use Rattle.gauge.specs.Accepted.{accepted_of};

use crate::counting::count_accepted;
use copies::Lent;
use jobs::Job;
use words::{JOBS, OUTPUT, PLACES, RECEIVED, SERIES, STATIONS, Serial};

// How many of the events in a list are accepted, stepped one after another from an empty plant without the whole check. The list has five
// numbers an event; numbers at the end that don't make a whole event are left out.
#[unsafe(no_mangle)]
pub extern "C" fn gauge_accepted(numbers: &[u32]) -> usize
    ensures { result ≡ accepted_of numbers.now }
{
    // by `close`, which promises zeros: tried with `Job::default()`, and the proof didn't close
    let mut jobs = [Job::begun(0).close(); JOBS];
    let mut firsts: [Serial; SERIES] = [0; SERIES];
    let mut lasts: [Serial; SERIES] = [0; SERIES];
    let mut kinds: [u32; PLACES] = [0; PLACES];
    let mut values: [Serial; PLACES] = [0; PLACES];
    let mut sent: [u32; PLACES] = [0; PLACES];
    let mut relto: [u32; PLACES] = [0; PLACES];
    let mut relkind: [u32; PLACES] = [0; PLACES];
    let mut relvalue: [Serial; PLACES] = [0; PLACES];
    let mut received: [u32; RECEIVED] = [0; RECEIVED];
    let mut up: [u32; STATIONS] = [1; STATIONS];
    let mut out: [Serial; OUTPUT] = [0; OUTPUT];
    let mut columns = Lent {
        firsts: &mut firsts,
        lasts: &mut lasts,
        kinds: &mut kinds,
        values: &mut values,
        sent: &mut sent,
        relto: &mut relto,
        relkind: &mut relkind,
        relvalue: &mut relvalue,
        received: &mut received,
        up: &mut up,
    };
    count_accepted(numbers, &mut jobs, &mut columns, &mut out)
}
