// Reading: a copy's kind and value, whether a series is open and a station up, what is left of a series, and who holds it.
// Where there is no such copy, series or station, or the column is short, a number reads as 0 and a set as empty.
#![tactic(auto, using(crate::proofs::Reading::ways), unfolding(words::specs::Tests::non, words::specs::Tests::one_if, crate::specs::Calls::bad_copy, crate::specs::Calls::beyond, crate::specs::Calls::holders))]

ghost use Rattle.std.specs.Prelude.{◌≡◌, ◌*◌, ◌<◌, ◌≤◌, eqb, ltb, leb, length, get_or};
ghost use Rattle.words.specs.Numbers.{station_count, series_count, place_count, received_count};
ghost use Rattle.words.specs.Tests.{non, ◌and◌, one_if};
ghost use Rattle.copies.specs.Columns.{seen};
ghost use Rattle.copies.specs.Tables.{place, received_place, series_at};
ghost use Rattle.copies.specs.Steps.{holder_set};
ghost use Rattle.copies.specs.Calls.{read, bad_copy, beyond, holders};

use crate::Seen;
use crate::checks::{bad_copy, place};
use crate::series::is_beyond;
use words::{PLACES, SERIES, STATIONS, Serial, VOID};

// What a column keeps of a station's copy.
fn entry(column: &[u32], series: u32, station: u32) -> u32
    ensures { result ≡ read place_count column.now (bad_copy series station) (place series station) }
{
    if column.len() < PLACES {
        return 0;
    }
    if bad_copy(series, station) {
        return 0;
    }
    column[place(series, station)]
}

// The kind of a station's copy.
pub fn kind(columns: &Seen<'_>, series: u32, station: u32) -> u32
    ensures { result ≡ read place_count columns.now.kinds.now (bad_copy series station) (place series station) }
{
    entry(columns.kinds, series, station)
}

// The value of a station's copy.
pub fn value(columns: &Seen<'_>, series: u32, station: u32) -> Serial
    ensures { result ≡ read place_count columns.now.values.now (bad_copy series station) (place series station) }
{
    entry(columns.values, series, station)
}

// Whether a series is open.
pub fn is_open(columns: &Seen<'_>, series: u32) -> bool
    ensures { result ≡ non (eqb (read series_count columns.now.firsts.now (leb series_count series) series) 0) }
{
    if columns.firsts.len() < SERIES {
        return false;
    }
    if SERIES <= series as usize {
        return false;
    }
    columns.firsts[series as usize] != 0
}

// Whether a station is up.
pub fn is_up(columns: &Seen<'_>, station: u32) -> bool
    ensures { result ≡ eqb (read station_count columns.now.up.now (leb station_count station) station) 1 }
{
    if columns.up.len() < STATIONS {
        return false;
    }
    if STATIONS <= station as usize {
        return false;
    }
    columns.up[station as usize] == 1
}

// Whether a count goes beyond what is left of a series at a station (refusal 14).
pub fn beyond(columns: &Seen<'_>, series: u32, station: u32, count: Serial) -> bool
    ensures { result ≡ beyond columns.now.lasts.now columns.now.values.now series station count }
{
    if columns.lasts.len() < SERIES {
        return true;
    }
    if columns.values.len() < PLACES {
        return true;
    }
    if bad_copy(series, station) {
        return true;
    }
    is_beyond(
        columns.lasts[series as usize],
        columns.values[place(series, station)],
        count,
    )
}

// The number for a copy that is held, 0 for a void one.
pub fn if_held(kind: u32, number: u32) -> u32
    ensures { (result ≡ one_if (non (eqb kind 0)) * number) × (result ≤ number) }
{
    if kind == VOID { 0 } else { number }
}

// Whether a transfer of station n is undelivered, by its Release's kind and receiver and by the sent count.
pub fn is_undelivered(
    received: &[u32],
    series: usize,
    n: usize,
    kind: u32,
    to: u32,
    sent: u32,
) -> bool
    requires { (received_count ≤ length received.now) × (series < series_count) × (n < station_count) }
    ensures { result ≡ non (eqb kind 0) and (ltb to station_count and ltb (get_or received.now (received_place series to n) 0) sent) }
{
    let receiver = to as usize;
    if kind == 0 {
        return false;
    }
    if STATIONS <= receiver {
        return false;
    }
    received[(series * STATIONS + receiver) * STATIONS + n] < sent
}

// The set, of a series that there is.
#[tactic(auto, using(crate::proofs::Reading::sum_part, crate::proofs::Reading::bit_more, crate::proofs::Reading::bit_small))]
fn holders_in(columns: &Seen<'_>, series: u32) -> u8
    requires { (place_count ≤ length columns.now.kinds.now) × (series < series_count) }
    ensures { result ≡ holder_set (series_at (seen columns.now) series) }
{
    let mut set: u32 = 0;
    let mut bit: u32 = 1;
    let row = series as usize * STATIONS;
    for kind in &columns.kinds[row..row + STATIONS] {
        set += if_held(*kind, bit);
        bit *= 2;
    }
    set as u8
}

// The stations that hold a series, bit i for station i.
pub fn holders(columns: &Seen<'_>, series: u32) -> u8
    ensures { result ≡ holders columns.now.kinds.now series }
{
    if columns.kinds.len() < PLACES {
        return 0;
    }
    if SERIES <= series as usize {
        return 0;
    }
    holders_in(columns, series)
}
