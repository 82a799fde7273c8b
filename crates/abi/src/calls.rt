// The exported calls: each hands all that it was lent to the public call of `plant`, and says the answer as numbers. C lends each column by itself.
ghost use Rattle.std.specs.Prelude.{◌≡◌};
ghost use Rattle.copies.specs.Tables.{tables};
ghost use Rattle.rulebook.specs.Tables.{plant};
ghost use Rattle.rulebook.specs.Steps.{step_of};
ghost use Rattle.rulebook.specs.Around.{empty_of, holders_of};
ghost use Rattle.abi.specs.Calls.{left, left_of, made, made_of, holders_said_of};

use crate::{HoldersSaid, Said};
use copies::{Lent, Seen};
use jobs::Job;
use rulebook::Event;
use words::Serial;

// An empty plant is made in the lent tables.
#[unsafe(no_mangle)]
pub extern "C" fn druvisha_empty(
    jobs: &mut [Job],
    firsts: &mut [Serial],
    lasts: &mut [Serial],
    kinds: &mut [u32],
    values: &mut [Serial],
    sent: &mut [u32],
    relto: &mut [u32],
    relkind: &mut [u32],
    relvalue: &mut [Serial],
    received: &mut [u32],
    up: &mut [u32],
) -> Said
    ensures { made result (plant (tables firsts.new lasts.new kinds.new values.new sent.new relto.new relkind.new relvalue.new received.new up.new) jobs.new)
        ≡ made_of (empty_of (plant (tables firsts.old lasts.old kinds.old values.old sent.old relto.old relkind.old relvalue.old received.old up.old) jobs.old)) }
{
    let mut columns = Lent {
        firsts,
        lasts,
        kinds,
        values,
        sent,
        relto,
        relkind,
        relvalue,
        received,
        up,
    };
    Said::from(plant::empty(jobs, &mut columns))
}

// The step: an event, the tables, the output.
#[unsafe(no_mangle)]
pub extern "C" fn druvisha_step(
    jobs: &mut [Job],
    firsts: &mut [Serial],
    lasts: &mut [Serial],
    kinds: &mut [u32],
    values: &mut [Serial],
    sent: &mut [u32],
    relto: &mut [u32],
    relkind: &mut [u32],
    relvalue: &mut [Serial],
    received: &mut [u32],
    up: &mut [u32],
    out: &mut [Serial],
    event: Event,
) -> Said
    ensures { left result (plant (tables firsts.new lasts.new kinds.new values.new sent.new relto.new relkind.new relvalue.new received.new up.new) jobs.new) out.new
        ≡ left_of (step_of (plant (tables firsts.old lasts.old kinds.old values.old sent.old relto.old relkind.old relvalue.old received.old up.old) jobs.old) out.old event) }
{
    let mut columns = Lent {
        firsts,
        lasts,
        kinds,
        values,
        sent,
        relto,
        relkind,
        relvalue,
        received,
        up,
    };
    Said::from(plant::step(jobs, &mut columns, out, event))
}

// The holders of a series.
#[unsafe(no_mangle)]
pub extern "C" fn druvisha_holders(
    jobs: &[Job],
    firsts: &[Serial],
    lasts: &[Serial],
    kinds: &[u32],
    values: &[Serial],
    sent: &[u32],
    relto: &[u32],
    relkind: &[u32],
    relvalue: &[Serial],
    received: &[u32],
    up: &[u32],
    series: u32,
) -> HoldersSaid
    ensures { result ≡ holders_said_of (holders_of (plant (tables firsts.now lasts.now kinds.now values.now sent.now relto.now relkind.now relvalue.now received.now up.now) jobs.now) series) }
{
    let columns = Seen {
        firsts,
        lasts,
        kinds,
        values,
        sent,
        relto,
        relkind,
        relvalue,
        received,
        up,
    };
    HoldersSaid::from(plant::holders(jobs, &columns, series))
}
