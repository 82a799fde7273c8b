// SEND, SHARE, GRANT and ACK: a token goes from station to station by a Release, a message and an acknowledgment.
#![tactic(auto, using(crate::proofs::Guards::chain), unfolding(crate::specs::Steps::released, crate::specs::Steps::is_spent, words::specs::Tests::refuse_if, words::specs::Tests::non, crate::specs::Calls::send, crate::specs::Calls::send_in, crate::specs::Calls::short_sender, crate::specs::Calls::bad_transfer, crate::specs::Steps::sent_off, crate::specs::Calls::send_share, crate::specs::Calls::share_in, crate::specs::Steps::shared, crate::specs::Calls::grant, crate::specs::Calls::grant_in, crate::specs::Calls::short_receiver, crate::specs::Calls::bad_message, crate::specs::Steps::no_grant, crate::specs::Steps::is_repeat, crate::specs::Steps::arrived, crate::specs::Calls::ack, crate::specs::Calls::ack_in, crate::specs::Calls::short_source, crate::specs::Steps::no_ack, crate::specs::Steps::matches, crate::specs::Steps::deleted))]

ghost use Rattle.std.specs.Prelude.{◌≡◌, List, [], ℕ, ◌+◌, ◌<◌, ◌≤◌, length};
ghost use Rattle.words.specs.declared.Refusal.TheVariants.{Wait, Spent};
ghost use Rattle.words.specs.Numbers.{station_count, series_count, place_count};
ghost use Rattle.copies.specs.Tables.{tables, series_in, series_at, sent_count, stands};
ghost use Rattle.copies.specs.Steps.{is_spent, matches, released};
ghost use Rattle.copies.specs.Calls.{outcome, refuse, done, bad_transfer, bad_message, short_sender, short_receiver, short_source, send, send_share, grant, ack};

use crate::checks::{bad_message, bad_transfer, copy_of_kind, open_and_up, place};
use words::{
    Answer, EXCLUSIVE, GREATEST_SENT, PLACES, RECEIVED, Refusal, SERIES, SHARE, STATIONS, Serial,
    VOID,
};

// Whether a column of SEND or SHARE is short.
#[tactic(auto, using(words::proofs::Laws::flag_or), unfolding(crate::specs::Calls::short_sender))]
fn short_sender(
    firsts: &[Serial],
    kinds: &[u32],
    values: &[Serial],
    sent: &[u32],
    relto: &[u32],
    relkind: &[u32],
    relvalue: &[Serial],
    up: &[u32],
) -> bool
    ensures { result ≡ short_sender (tables firsts.now [] kinds.now values.now sent.now relto.now relkind.now relvalue.now [] up.now) }
{
    (firsts.len() < SERIES)
        | (kinds.len() < PLACES)
        | (values.len() < PLACES)
        | (sent.len() < PLACES)
        | (relto.len() < PLACES)
        | (relkind.len() < PLACES)
        | (relvalue.len() < PLACES)
        | (up.len() < STATIONS)
}

// The next transfer of a copy: its sent count is raised, and a Release of the kind takes its value.
fn release(
    values: &[Serial],
    sent: &mut [u32],
    relto: &mut [u32],
    relkind: &mut [u32],
    relvalue: &mut [Serial],
    series: u32,
    from: u32,
    to: u32,
    kind: u32,
) -> Answer
    requires values { place_count ≤ length values.now }
    requires sent { place_count ≤ length sent.old }
    requires to { place_count ≤ length relto.old }
    requires kind { place_count ≤ length relkind.old }
    requires value { place_count ≤ length relvalue.old }
    requires there { (series < series_count) × (from < station_count) }
    ensures { (fs ls ks gs us : List ℕ) →
        let before = tables fs ls ks values.now sent.old relto.old relkind.old relvalue.old gs us in
        outcome result (tables fs ls ks values.now sent.new relto.new relkind.new relvalue.new gs us) ≡
        refuse before Wait (stands (series_at before series) from)
        (refuse before Spent (is_spent (series_at before series) from)
        (done (sent_count (series_at before series) from + 1)
        (released before series from to kind))) }
{
    let at = place(series, from);
    if relkind[at] != 0 {
        return Err(Refusal::Wait);
    }
    let number = sent[at];
    if GREATEST_SENT <= number {
        return Err(Refusal::Spent);
    }
    sent[at] = number + 1;
    relto[at] = to;
    relkind[at] = kind;
    relvalue[at] = values[at];
    Ok(number + 1)
}

// 9 SEND: a free exclusive copy becomes void, and a Release of kind 2 takes its value.
pub fn send(
    firsts: &[Serial],
    kinds: &mut [u32],
    values: &[Serial],
    sent: &mut [u32],
    relto: &mut [u32],
    relkind: &mut [u32],
    relvalue: &mut [Serial],
    up: &[u32],
    free: bool,
    series: u32,
    from: u32,
    to: u32,
) -> Answer
    ensures { (ls gs : List ℕ) → outcome result (tables firsts.now ls kinds.new values.now sent.new relto.new relkind.new relvalue.new gs up.now)
        ≡ send (tables firsts.now ls kinds.old values.now sent.old relto.old relkind.old relvalue.old gs up.now) free series from to }
{
    if short_sender(firsts, kinds, values, sent, relto, relkind, relvalue, up) {
        return Err(Refusal::Short);
    }
    if bad_transfer(series, from, to) {
        return Err(Refusal::BadEvent);
    }
    let at = copy_of_kind(firsts, kinds, up, free, series, from, EXCLUSIVE)?;
    let number = release(
        values, sent, relto, relkind, relvalue, series, from, to, EXCLUSIVE,
    )?;
    kinds[at] = VOID;
    Ok(number)
}

// 11 SHARE: from keeps its share copy, and a Release of kind 1 takes its value.
pub fn share(
    firsts: &[Serial],
    kinds: &[u32],
    values: &[Serial],
    sent: &mut [u32],
    relto: &mut [u32],
    relkind: &mut [u32],
    relvalue: &mut [Serial],
    up: &[u32],
    series: u32,
    from: u32,
    to: u32,
) -> Answer
    ensures { (ls gs : List ℕ) → outcome result (tables firsts.now ls kinds.now values.now sent.new relto.new relkind.new relvalue.new gs up.now)
        ≡ send_share (tables firsts.now ls kinds.now values.now sent.old relto.old relkind.old relvalue.old gs up.now) series from to }
{
    if short_sender(firsts, kinds, values, sent, relto, relkind, relvalue, up) {
        return Err(Refusal::Short);
    }
    if bad_transfer(series, from, to) {
        return Err(Refusal::BadEvent);
    }
    copy_of_kind(firsts, kinds, up, true, series, from, SHARE)?;
    release(
        values, sent, relto, relkind, relvalue, series, from, to, SHARE,
    )
}

// Whether a column of GRANT is short.
#[tactic(auto, using(words::proofs::Laws::flag_or), unfolding(crate::specs::Calls::short_receiver))]
fn short_receiver(
    firsts: &[Serial],
    kinds: &[u32],
    values: &[Serial],
    sent: &[u32],
    relto: &[u32],
    relkind: &[u32],
    relvalue: &[Serial],
    received: &[u32],
    up: &[u32],
) -> bool
    ensures { result ≡ short_receiver (tables firsts.now [] kinds.now values.now sent.now relto.now relkind.now relvalue.now received.now up.now) }
{
    (firsts.len() < SERIES)
        | (kinds.len() < PLACES)
        | (values.len() < PLACES)
        | (sent.len() < PLACES)
        | (relto.len() < PLACES)
        | (relkind.len() < PLACES)
        | (relvalue.len() < PLACES)
        | (received.len() < RECEIVED)
        | (up.len() < STATIONS)
}

// Whether the number is that of the standing Release of `from`, addressed to `to`.
#[tactic(auto, using(words::proofs::Laws::flags), unfolding(crate::specs::Steps::matches))]
fn matches(
    sent: &[u32],
    relto: &[u32],
    relkind: &[u32],
    series: u32,
    from: u32,
    to: u32,
    number: u32,
) -> bool
    requires sent { place_count ≤ length sent.now }
    requires to { place_count ≤ length relto.now }
    requires kind { place_count ≤ length relkind.now }
    requires there { (series < series_count) × (from < station_count) }
    ensures { result ≡ matches (series_in [] [] [] [] sent.now relto.now relkind.now [] [] series) from to number }
{
    let at = place(series, from);
    (relkind[at] != 0) & (relto[at] == to) & (sent[at] == number)
}

// 14 GRANT: the transfer arrives, once; a repeat is known by its number alone.
pub fn grant(
    firsts: &[Serial],
    kinds: &mut [u32],
    values: &mut [Serial],
    sent: &[u32],
    relto: &[u32],
    relkind: &[u32],
    relvalue: &[Serial],
    received: &mut [u32],
    up: &[u32],
    series: u32,
    from: u32,
    to: u32,
    number: u32,
) -> Answer
    ensures { (ls : List ℕ) → outcome result (tables firsts.now ls kinds.new values.new sent.now relto.now relkind.now relvalue.now received.new up.now)
        ≡ grant (tables firsts.now ls kinds.old values.old sent.now relto.now relkind.now relvalue.now received.old up.now) series from to number }
{
    if short_receiver(
        firsts, kinds, values, sent, relto, relkind, relvalue, received, up,
    ) {
        return Err(Refusal::Short);
    }
    if bad_message(series, from, to, number) {
        return Err(Refusal::BadEvent);
    }
    open_and_up(firsts, up, series, to)?;
    let source = place(series, from);
    let at = place(series, to);
    if number <= received[at * STATIONS + from as usize] {
        return Ok(0);
    }
    if !matches(sent, relto, relkind, series, from, to, number) {
        return Err(Refusal::NoMessage);
    }
    kinds[at] = relkind[source];
    values[at] = relvalue[source];
    received[at * STATIONS + from as usize] = number;
    Ok(1)
}

// Whether a column of ACK is short.
#[tactic(auto, using(words::proofs::Laws::flag_or), unfolding(crate::specs::Calls::short_source))]
fn short_source(
    firsts: &[Serial],
    sent: &[u32],
    relto: &[u32],
    relkind: &[u32],
    relvalue: &[Serial],
    received: &[u32],
    up: &[u32],
) -> bool
    ensures { result ≡ short_source (tables firsts.now [] [] [] sent.now relto.now relkind.now relvalue.now received.now up.now) }
{
    (firsts.len() < SERIES)
        | (sent.len() < PLACES)
        | (relto.len() < PLACES)
        | (relkind.len() < PLACES)
        | (relvalue.len() < PLACES)
        | (received.len() < RECEIVED)
        | (up.len() < STATIONS)
}

// 15 ACK: of a delivered transfer its standing Release is deleted; anything late is ignored (X7).
pub fn ack(
    firsts: &[Serial],
    sent: &[u32],
    relto: &mut [u32],
    relkind: &mut [u32],
    relvalue: &mut [Serial],
    received: &[u32],
    up: &[u32],
    series: u32,
    from: u32,
    to: u32,
    number: u32,
) -> Answer
    ensures { (ls ks vs : List ℕ) → outcome result (tables firsts.now ls ks vs sent.now relto.new relkind.new relvalue.new received.now up.now)
        ≡ ack (tables firsts.now ls ks vs sent.now relto.old relkind.old relvalue.old received.now up.now) series from to number }
{
    if short_source(firsts, sent, relto, relkind, relvalue, received, up) {
        return Err(Refusal::Short);
    }
    if bad_message(series, from, to, number) {
        return Err(Refusal::BadEvent);
    }
    open_and_up(firsts, up, series, from)?;
    let at = place(series, from);
    if sent[at] < number {
        return Err(Refusal::NoMessage);
    }
    if !matches(sent, relto, relkind, series, from, to, number) {
        return Ok(0);
    }
    let receiver = place(series, to);
    if received[receiver * STATIONS + from as usize] < number {
        return Err(Refusal::NoMessage);
    }
    relto[at] = 0;
    relkind[at] = 0;
    relvalue[at] = 0;
    Ok(1)
}
