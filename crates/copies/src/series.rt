// OPEN, and what COMMIT adds to a copy's value.
ghost use Rattle.std.specs.Prelude.{◌≡◌, List, [], ℕ, ◌-◌, ◌+◌, ltb};
ghost use Rattle.copies.specs.Tables.{tables};
ghost use Rattle.copies.specs.Calls.{outcome, short_opener, open_series, raise};

use crate::checks::{bad_copy, bad_opening, place};
use words::{Answer, EXCLUSIVE, GREATEST_SERIAL, PLACES, Refusal, SERIES, STATIONS, Serial, VOID};

// Whether a column of OPEN is short.
#[tactic(auto, using(words::proofs::Laws::flag_or), unfolding(crate::specs::Calls::short_opener))]
fn short_opener(
    firsts: &[Serial],
    lasts: &[Serial],
    kinds: &[u32],
    values: &[Serial],
    up: &[u32],
) -> bool
    ensures { result ≡ short_opener (tables firsts.now lasts.now kinds.now values.now [] [] [] [] [] up.now) }
{
    (firsts.len() < SERIES)
        | (lasts.len() < SERIES)
        | (kinds.len() < PLACES)
        | (values.len() < PLACES)
        | (up.len() < STATIONS)
}

// 1 OPEN: exclusive at the station, void elsewhere, all values the first number.
#[tactic(auto, using(crate::proofs::Guards::chain), unfolding(crate::specs::Calls::open_series, crate::specs::Calls::open_in, crate::specs::Calls::short_opener, crate::specs::Calls::bad_opening, crate::specs::Calls::bad_copy, crate::specs::Steps::opened, words::specs::Tests::refuse_if, words::specs::Tests::non))]
pub fn open_series(
    firsts: &mut [Serial],
    lasts: &mut [Serial],
    kinds: &mut [u32],
    values: &mut [Serial],
    up: &[u32],
    series: u32,
    first: Serial,
    last: Serial,
    station: u32,
) -> Answer
    ensures { (ns rt rk rv gs : List ℕ) → outcome result (tables firsts.new lasts.new kinds.new values.new ns rt rk rv gs up.now)
        ≡ open_series (tables firsts.old lasts.old kinds.old values.old ns rt rk rv gs up.now) series first last station }
{
    if short_opener(firsts, lasts, kinds, values, up) {
        return Err(Refusal::Short);
    }
    if bad_opening(series, first, last, station) {
        return Err(Refusal::BadEvent);
    }
    if firsts[series as usize] != 0 {
        return Err(Refusal::Taken);
    }
    if up[station as usize] != 1 {
        return Err(Refusal::Down);
    }
    firsts[series as usize] = first;
    lasts[series as usize] = last;
    let row = series as usize * STATIONS;
    kinds[row..row + STATIONS].fill(VOID);
    kinds[row + station as usize] = EXCLUSIVE;
    values[row..row + STATIONS].fill(first);
    Ok(0)
}

// Whether a count is above last + 1 - value, which is 0 where the value is above last + 1.
pub fn is_beyond(last: Serial, value: Serial, count: Serial) -> bool
    ensures { result ≡ ltb (last + 1 - value) count }
{
    let end = last as u64 + 1;
    if end < value as u64 {
        return 0 < count;
    }
    end - (value as u64) < count as u64
}

// COMMIT's share: a drawn count is added to the copy's value, unless the sum would pass last + 1 or the greatest last number + 1.
#[tactic(auto, using(crate::proofs::Guards::chain), unfolding(crate::specs::Calls::raise, crate::specs::Calls::raise_in, crate::specs::Calls::bad_copy, crate::specs::Steps::raised, words::specs::Tests::refuse_if))]
pub fn raise(
    lasts: &[Serial],
    values: &mut [Serial],
    series: u32,
    station: u32,
    count: Serial,
) -> Answer
    ensures { (fs ks ns rt rk rv gs us : List ℕ) → outcome result (tables fs lasts.now ks values.new ns rt rk rv gs us)
        ≡ raise (tables fs lasts.now ks values.old ns rt rk rv gs us) series station count }
{
    if (lasts.len() < SERIES) | (values.len() < PLACES) {
        return Err(Refusal::Short);
    }
    if bad_copy(series, station) {
        return Err(Refusal::BadEvent);
    }
    let at = place(series, station);
    let value = values[at];
    if is_beyond(lasts[series as usize], value, count) {
        return Err(Refusal::Range);
    }
    if GREATEST_SERIAL as u64 + 1 < value as u64 + count as u64 {
        return Err(Refusal::Range);
    }
    values[at] = value + count;
    Ok(0)
}
