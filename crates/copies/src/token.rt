// DEMOTE, DROP and PROMOTE: a station changes the kind of its own copy.
#![tactic(auto, using(crate::proofs::Guards::chain), unfolding(crate::specs::Calls::demote, crate::specs::Calls::demote_in, crate::specs::Calls::short_holder, crate::specs::Calls::bad_copy, crate::specs::Steps::demoted, words::specs::Tests::refuse_if, words::specs::Tests::non, crate::specs::Calls::drop, crate::specs::Calls::drop_in, crate::specs::Steps::dropped, crate::specs::Calls::promote, crate::specs::Calls::promote_in, crate::specs::Calls::short_promoter, crate::specs::Steps::promoted))]

ghost use Rattle.std.specs.Prelude.{◌≡◌, List, [], ℕ, ◌<◌, ◌≤◌, length};
ghost use Rattle.words.specs.Numbers.{station_count, series_count, place_count, received_count};
ghost use Rattle.copies.specs.Tables.{tables, series_in};
ghost use Rattle.copies.specs.Steps.{other_share, under_way};
ghost use Rattle.copies.specs.Calls.{outcome, bad_copy, short_holder, short_promoter, demote, drop, promote};

use crate::checks::{bad_copy, copy_of_kind};
use crate::read::is_undelivered;
use words::{Answer, EXCLUSIVE, PLACES, RECEIVED, Refusal, SERIES, SHARE, STATIONS, Serial, VOID};

// Whether a column of DEMOTE or DROP is short.
#[tactic(auto, using(words::proofs::Laws::flag_or), unfolding(crate::specs::Calls::short_holder))]
fn short_holder(firsts: &[Serial], kinds: &[u32], up: &[u32]) -> bool
    ensures { result ≡ short_holder (tables firsts.now [] kinds.now [] [] [] [] [] [] up.now) }
{
    (firsts.len() < SERIES) | (kinds.len() < PLACES) | (up.len() < STATIONS)
}

// 10 DEMOTE: a free exclusive copy becomes share.
pub fn demote(
    firsts: &[Serial],
    kinds: &mut [u32],
    up: &[u32],
    free: bool,
    series: u32,
    station: u32,
) -> Answer
    ensures { (ls vs ns rt rk rv gs : List ℕ) → outcome result (tables firsts.now ls kinds.new vs ns rt rk rv gs up.now)
        ≡ demote (tables firsts.now ls kinds.old vs ns rt rk rv gs up.now) free series station }
{
    if short_holder(firsts, kinds, up) {
        return Err(Refusal::Short);
    }
    if bad_copy(series, station) {
        return Err(Refusal::BadEvent);
    }
    let at = copy_of_kind(firsts, kinds, up, free, series, station, EXCLUSIVE)?;
    kinds[at] = SHARE;
    Ok(0)
}

// Whether another station holds a share copy.
// A `for`: under `any` the closure needs a `requires` for its index, and is no plainer.
#[tactic(auto, using(crate::proofs::Reading::some_part))]
fn other_share(kinds: &[u32], series: u32, station: u32) -> bool
    requires kind { place_count ≤ length kinds.now }
    requires there { series < series_count }
    ensures { result ≡ other_share (series_in [] [] kinds.now [] [] [] [] [] [] series) station }
{
    let row = series as usize * STATIONS;
    let mut some = false;
    for (n, kind) in kinds[row..row + STATIONS].iter().enumerate() {
        some = some | ((n != station as usize) & (*kind == SHARE));
    }
    some
}

// 12 DROP: a free share copy, not the only one, becomes void.
pub fn drop(
    firsts: &[Serial],
    kinds: &mut [u32],
    up: &[u32],
    free: bool,
    series: u32,
    station: u32,
) -> Answer
    ensures { (ls vs ns rt rk rv gs : List ℕ) → outcome result (tables firsts.now ls kinds.new vs ns rt rk rv gs up.now)
        ≡ drop (tables firsts.now ls kinds.old vs ns rt rk rv gs up.now) free series station }
{
    if short_holder(firsts, kinds, up) {
        return Err(Refusal::Short);
    }
    if bad_copy(series, station) {
        return Err(Refusal::BadEvent);
    }
    let at = copy_of_kind(firsts, kinds, up, free, series, station, SHARE)?;
    if !other_share(kinds, series, station) {
        return Err(Refusal::Others);
    }
    kinds[at] = VOID;
    Ok(0)
}

// Whether a transfer of the series is undelivered.
#[tactic(auto, using(words::proofs::Laws::some_none, words::proofs::Laws::some_next, words::proofs::Laws::some_end))]
fn under_way(sent: &[u32], relto: &[u32], relkind: &[u32], received: &[u32], series: u32) -> bool
    requires sent { place_count ≤ length sent.now }
    requires to { place_count ≤ length relto.now }
    requires kind { place_count ≤ length relkind.now }
    requires received { received_count ≤ length received.now }
    requires there { series < series_count }
    ensures { result ≡ under_way (series_in [] [] [] [] sent.now relto.now relkind.now [] received.now series) }
{
    let mut some = false;
    // by its number, for three columns
    for n in 0..STATIONS {
        let at = series as usize * STATIONS + n;
        some = some
            | is_undelivered(
                received,
                series as usize,
                n,
                relkind[at],
                relto[at],
                sent[at],
            );
    }
    some
}

// Whether a column of PROMOTE is short.
#[tactic(auto, using(words::proofs::Laws::flag_or), unfolding(crate::specs::Calls::short_promoter))]
fn short_promoter(
    firsts: &[Serial],
    kinds: &[u32],
    sent: &[u32],
    relto: &[u32],
    relkind: &[u32],
    received: &[u32],
    up: &[u32],
) -> bool
    ensures { result ≡ short_promoter (tables firsts.now [] kinds.now [] sent.now relto.now relkind.now [] received.now up.now) }
{
    (firsts.len() < SERIES)
        | (kinds.len() < PLACES)
        | (sent.len() < PLACES)
        | (relto.len() < PLACES)
        | (relkind.len() < PLACES)
        | (received.len() < RECEIVED)
        | (up.len() < STATIONS)
}

// 13 PROMOTE: a free share copy, the only share of the series, becomes exclusive.
pub fn promote(
    firsts: &[Serial],
    kinds: &mut [u32],
    sent: &[u32],
    relto: &[u32],
    relkind: &[u32],
    received: &[u32],
    up: &[u32],
    free: bool,
    series: u32,
    station: u32,
) -> Answer
    ensures { (ls vs rv : List ℕ) → outcome result (tables firsts.now ls kinds.new vs sent.now relto.now relkind.now rv received.now up.now)
        ≡ promote (tables firsts.now ls kinds.old vs sent.now relto.now relkind.now rv received.now up.now) free series station }
{
    if short_promoter(firsts, kinds, sent, relto, relkind, received, up) {
        return Err(Refusal::Short);
    }
    if bad_copy(series, station) {
        return Err(Refusal::BadEvent);
    }
    let at = copy_of_kind(firsts, kinds, up, free, series, station, SHARE)?;
    if other_share(kinds, series, station) | under_way(sent, relto, relkind, received, series) {
        return Err(Refusal::Others);
    }
    kinds[at] = EXCLUSIVE;
    Ok(0)
}
