// CRASH and RESTART: a station's mark.
#![tactic(auto, using(crate::proofs::Guards::chain), unfolding(crate::specs::Steps::marked, crate::specs::Calls::crash, crate::specs::Calls::restart, crate::specs::Calls::restart_in, words::specs::Tests::refuse_if, words::specs::Tests::non))]

ghost use Rattle.std.specs.Prelude.{◌≡◌, List, [], ℕ, ◌<◌, ◌≤◌, length};
ghost use Rattle.words.specs.Numbers.{station_count, place_count};
ghost use Rattle.copies.specs.Tables.{tables};
ghost use Rattle.copies.specs.Steps.{held_count};
ghost use Rattle.copies.specs.Calls.{outcome, crash, restart};

use crate::read::if_held;
use words::{Answer, PLACES, Refusal, SERIES, STATIONS};

// 16 CRASH, the station's mark alone: closing its jobs is the upper layer's part.
pub fn crash(up: &mut [u32], station: u32) -> Answer
    ensures { (fs ls ks vs ns rt rk rv gs : List ℕ) → outcome result (tables fs ls ks vs ns rt rk rv gs up.new)
        ≡ crash (tables fs ls ks vs ns rt rk rv gs up.old) station }
{
    if up.len() < STATIONS {
        return Err(Refusal::Short);
    }
    if STATIONS <= station as usize {
        return Err(Refusal::BadEvent);
    }
    if up[station as usize] != 1 {
        return Err(Refusal::Down);
    }
    up[station as usize] = 0;
    Ok(0)
}

// How many copies of the station are not void.
#[tactic(auto, using(crate::proofs::Reading::sum_none, crate::proofs::Reading::sum_more), unfolding(words::specs::Tests::one_if))]
fn held_count(kinds: &[u32], station: u32) -> u32
    requires { (place_count ≤ length kinds.now) × (station < station_count) }
    ensures { result ≡ held_count (tables [] [] kinds.now [] [] [] [] [] [] []) station }
{
    let mut count = 0;
    // by its number: the copies of one station stand eight apart
    for s in 0..SERIES {
        count += if_held(kinds[s * STATIONS + station as usize], 1);
    }
    count
}

// 17 RESTART: the station is up; the value is the number of its copies that are not void.
pub fn restart(kinds: &[u32], up: &mut [u32], station: u32) -> Answer
    ensures { (fs ls vs ns rt rk rv gs : List ℕ) → outcome result (tables fs ls kinds.now vs ns rt rk rv gs up.new)
        ≡ restart (tables fs ls kinds.now vs ns rt rk rv gs up.old) station }
{
    if (kinds.len() < PLACES) | (up.len() < STATIONS) {
        return Err(Refusal::Short);
    }
    if STATIONS <= station as usize {
        return Err(Refusal::BadEvent);
    }
    if up[station as usize] == 1 {
        return Err(Refusal::Up);
    }
    up[station as usize] = 1;
    Ok(held_count(kinds, station))
}
