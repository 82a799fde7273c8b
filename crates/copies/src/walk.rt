// The walk over series and stations that finds the first broken rule of the layer's tables: W1, W2, W3 or W5.
// Only the walk itself is left early, by its label: a test that runs its loop to the end is faster.
ghost use Rattle.std.specs.Prelude.{◌≡◌, ◌+◌, ◌*◌, ◌<◌, ◌≤◌, length, get_or, eqb};
ghost use Rattle.words.specs.Numbers.{station_count, series_count, received_count};
ghost use Rattle.words.specs.Tests.{◌⇒◌, all_below, broken, ◌or_else◌};
ghost use Rattle.copies.specs.Columns.{seen};
ghost use Rattle.copies.specs.Tables.{series_at, kept_at, received_place, short_copies};
ghost use Rattle.copies.specs.Whole.{in_bounds, W1_bounds, W1_release, W1_marks, W3_at_most, W3_station, W5_release, W5_closed};
ghost use Rattle.copies.specs.FirstBroken.{broken_kept, check_copies};
ghost use Rattle.copies.specs.Tally.{Long, broken_in, counted, transfer_kind, tally, tally_fine};

use crate::read::is_undelivered;
use crate::{Kept, Seen};
use words::{
    EXCLUSIVE, Flaw, GREATEST_SENT, GREATEST_SERIAL, PLACES, RECEIVED, Rule, SERIES, SHARE,
    STATIONS, Serial, VOID,
};

// Whether each entry of a part of a column is 0.
#[tactic(auto, using(words::proofs::Laws::all_loop))]
fn zeros(part: &[u32]) -> bool
    ensures { result ≡ all_below (length part.now) (λ i. eqb (get_or part.now i 0) 0) }
{
    let mut all = true;
    for entry in part {
        all = all & (*entry == 0);
    }
    all
}

// W1 of the stations' marks.
#[tactic(auto, using(words::proofs::Laws::all_loop), unfolding(crate::specs::Whole::W1_marks))]
fn marks_fine(up: &[u32]) -> bool
    requires { station_count ≤ length up.now }
    ensures { result ≡ W1_marks up.now }
{
    let mut all = true;
    for mark in &up[..STATIONS] {
        all = all & (*mark <= 1);
    }
    all
}

// Whether a value is from first to last + 1.
#[tactic(auto, using(words::proofs::Laws::flags), unfolding(crate::specs::Whole::in_bounds))]
fn in_bounds(first: Serial, last: Serial, value: Serial) -> bool
    ensures { result ≡ in_bounds first last value }
{
    (first <= value) & (value as u64 <= last as u64 + 1)
}

// W1 of the bounds of an open series.
#[tactic(auto, using(words::proofs::Laws::flags), unfolding(crate::specs::Whole::W1_bounds))]
fn bounds_fine(first: Serial, last: Serial) -> bool
    ensures { result ≡ W1_bounds first last }
{
    (first <= last) & (last <= GREATEST_SERIAL)
}

// W1 and W5 of station n's Release: first where it doesn't stand, as most don't.
#[tactic(auto, using(crate::proofs::Stations::release_ways))]
fn release_rule(first: Serial, last: Serial, n: usize, kept: Kept) -> Option<Rule>
    ensures { result ≡ broken Rule.W1 (W1_release first last n kept) or_else broken Rule.W5 (W5_release kept) }
{
    let to = kept.relto as usize;
    if kept.relkind == 0 {
        let zero = (kept.relto == 0) & (kept.relvalue == 0);
        if zero {
            None
        } else if to < STATIONS {
            Some(Rule::W5)
        } else {
            Some(Rule::W1)
        }
    } else {
        let fine = (kept.relkind <= EXCLUSIVE)
            & (to < STATIONS)
            & ((to != n) & (1 <= kept.sent) & in_bounds(first, last, kept.relvalue));
        if fine { None } else { Some(Rule::W1) }
    }
}

// W1 and W5 of what station n keeps of an open series.
#[tactic(auto, using(crate::proofs::Stations::kept_ways))]
fn kept_rule(first: Serial, last: Serial, n: usize, kept: Kept) -> Option<Rule>
    ensures { result ≡ broken_kept first last n kept }
{
    let fine = (kept.kind <= EXCLUSIVE)
        & in_bounds(first, last, kept.value)
        & (kept.sent <= GREATEST_SENT);
    if fine {
        release_rule(first, last, n, kept)
    } else {
        Some(Rule::W1)
    }
}

// W3: whether what station n has received is at most what each station has sent.
#[tactic(auto, using(words::proofs::Laws::all_loop), unfolding(crate::specs::Whole::W3_at_most))]
fn at_most(columns: &Seen<'_>, s: usize, n: usize) -> bool
    requires { Long (seen columns.now) × (s < series_count) × (n < station_count) }
    ensures { result ≡ W3_at_most (series_at (seen columns.now) s) n }
{
    let mut all = true;
    // by its number, for two columns: both parts would have to be cut first, which is no plainer
    for m in 0..STATIONS {
        let got = columns.received[(s * STATIONS + n) * STATIONS + m];
        all = all & (got <= columns.sent[s * STATIONS + m]);
    }
    all
}

// W3: whether only the receiver of station n's Release has received that number.
#[tactic(auto, using(words::proofs::Laws::all_loop))]
fn only_receiver(received: &[u32], s: usize, n: usize, to: u32, number: u32) -> bool
    requires { (received_count ≤ length received.now) × (s < series_count) × (n < station_count) }
    ensures { result ≡ all_below station_count (λ m. eqb (get_or received.now (received_place s m n) 0) number ⇒ eqb to m) }
{
    let mut all = true;
    // by its number: what one sender is owed stands eight apart
    for m in 0..STATIONS {
        all = all & ((received[(s * STATIONS + m) * STATIONS + n] != number) | (to as usize == m));
    }
    all
}

// W3 of what station n has received and, where its Release stands, of who has received that number.
#[tactic(auto, using(crate::proofs::Stations::received_ways), unfolding(crate::specs::Whole::W3_at_most))]
fn received_fine(columns: &Seen<'_>, s: usize, n: usize) -> bool
    requires { Long (seen columns.now) × (s < series_count) × (n < station_count) }
    ensures { result ≡ W3_station (series_at (seen columns.now) s) n }
{
    let at = s * STATIONS + n;
    let fine = at_most(columns, s, n) & (columns.received[at * STATIONS + n] == 0);
    if columns.relkind[at] == 0 {
        fine
    } else {
        fine & only_receiver(columns.received, s, n, columns.relto[at], columns.sent[at])
    }
}

// What station n keeps of series s.
fn kept_at(columns: &Seen<'_>, s: usize, n: usize) -> Kept
    requires { Long (seen columns.now) × (s < series_count) × (n < station_count) }
    ensures { result ≡ kept_at (seen columns.now) s n }
{
    let at = s * STATIONS + n;
    Kept {
        kind: columns.kinds[at],
        value: columns.values[at],
        sent: columns.sent[at],
        relto: columns.relto[at],
        relkind: columns.relkind[at],
        relvalue: columns.relvalue[at],
    }
}

// The tokens counted so far: how many of each kind, the value of the last, and whether all had the same value.
#[derive(Clone, Copy)]
struct Tally {
    exclusives: u32,
    shares: u32,
    // 0 for none yet: W1 has no value 0 in an open series
    next: Serial,
    same: bool,
}

impl Tally {
    // One token more, where its kind isn't void.
    #[tactic(auto, using(crate::proofs::Tokens::count_ways))]
    fn count(self, kind: u32, value: Serial) -> Tally
        requires { (self.exclusives < 2 * station_count) × (self.shares < 2 * station_count) }
        ensures { (result ≡ counted self kind value) × (result.exclusives ≤ self.exclusives + 1) × (result.shares ≤ self.shares + 1) }
    {
        if kind == VOID {
            return self;
        }
        Tally {
            exclusives: self.exclusives + (kind == EXCLUSIVE) as u32,
            shares: self.shares + (kind == SHARE) as u32,
            next: value,
            same: self.same & ((self.next == 0) | (self.next == value)),
        }
    }

    // W2: one exclusive and no share, or one or more shares and no exclusive; and all with the same value.
    fn fine(self) -> bool
        ensures { result ≡ tally_fine self }
    {
        let one = ((self.exclusives == 1) & (self.shares == 0))
            | ((self.exclusives == 0) & (1 <= self.shares));
        one & self.same
    }
}

// The kind of station n's transfer where it is undelivered, else void.
#[tactic(auto, using(crate::proofs::Stations::transfer_ways))]
fn transfer_kind(received: &[u32], s: usize, n: usize, kept: Kept) -> u32
    requires { (received_count ≤ length received.now) × (s < series_count) × (n < station_count) }
    ensures { result ≡ transfer_kind kept (λ m. get_or received.now (received_place s m n) 0) }
{
    if is_undelivered(received, s, n, kept.relkind, kept.relto, kept.sent) {
        kept.relkind
    } else {
        VOID
    }
}

// W2 of an open series' tokens, counted in one pass: at most a copy and a transfer each station.
#[tactic(auto, using(crate::proofs::Tokens::tally_none))]
fn tokens_fine(columns: &Seen<'_>, s: usize) -> bool
    requires { Long (seen columns.now) × (s < series_count) }
    ensures { result ≡ tally_fine (tally (series_at (seen columns.now) s) station_count) }
{
    let mut t = Tally {
        exclusives: 0,
        shares: 0,
        next: 0,
        same: true,
    };
    // by its number, for six columns
    for n in 0..STATIONS {
        let kept = kept_at(columns, s, n);
        let transfer = transfer_kind(columns.received, s, n, kept);
        t = t
            .count(kept.kind, kept.value)
            .count(transfer, kept.relvalue);
    }
    t.fine()
}

// W5 of a series that isn't open: its last number and its row of each column are zero.
fn closed_fine(columns: &Seen<'_>, s: usize) -> bool
    requires { Long (seen columns.now) × (s < series_count) }
    ensures { result ≡ W5_closed (series_at (seen columns.now) s) }
{
    let row = s * STATIONS;
    let end = row + STATIONS;
    let rows = zeros(&columns.kinds[row..end])
        & zeros(&columns.values[row..end])
        & zeros(&columns.sent[row..end])
        & zeros(&columns.relto[row..end])
        & zeros(&columns.relkind[row..end])
        & zeros(&columns.relvalue[row..end])
        & zeros(&columns.received[row * STATIONS..end * STATIONS]);
    (columns.lasts[s] == 0) & rows
}

// The first rule that a series breaks.
#[tactic(auto, using(crate::proofs::Passing::walk_ways))]
fn broken_rule(columns: &Seen<'_>) -> Option<Rule>
    requires { Long (seen columns.now) }
    ensures { result ≡ broken_in (seen columns.now) }
{
    let mut broken = None;
    // 01 asks for this form: nested loops over series and stations, left by a label with the broken rule
    'walk: for s in 0..SERIES {
        let first = columns.firsts[s];
        let last = columns.lasts[s];
        if first == 0 {
            if closed_fine(columns, s) {
                continue;
            }
            broken = Some(Rule::W5);
            break 'walk;
        }
        if !bounds_fine(first, last) {
            broken = Some(Rule::W1);
            break 'walk;
        }
        for n in 0..STATIONS {
            if let Some(rule) = kept_rule(first, last, n, kept_at(columns, s, n)) {
                broken = Some(rule);
                break 'walk;
            }
            if !received_fine(columns, s, n) {
                broken = Some(Rule::W3);
                break 'walk;
            }
        }
        if !tokens_fine(columns, s) {
            broken = Some(Rule::W2);
            break 'walk;
        }
    }
    broken
}

// Refusal 1: whether a column has fewer entries than its stated size.
#[tactic(auto, using(words::proofs::Laws::flags), unfolding(crate::specs::Tables::short_copies))]
fn is_short(columns: &Seen<'_>) -> bool
    ensures { result ≡ short_copies (seen columns.now) }
{
    (columns.firsts.len() < SERIES)
        | (columns.lasts.len() < SERIES)
        | (columns.kinds.len() < PLACES)
        | (columns.values.len() < PLACES)
        | (columns.sent.len() < PLACES)
        | (columns.relto.len() < PLACES)
        | (columns.relkind.len() < PLACES)
        | (columns.relvalue.len() < PLACES)
        | (columns.received.len() < RECEIVED)
        | (columns.up.len() < STATIONS)
}

// What the walk finds wrong in tables of any size. The stations' marks come last.
#[tactic(auto, using(crate::proofs::Findings::ways))]
pub fn first_broken(columns: &Seen<'_>) -> Result<(), Flaw>
    ensures { result ≡ check_copies (seen columns.now) }
{
    if is_short(columns) {
        return Err(Flaw::Short);
    }
    if let Some(rule) = broken_rule(columns) {
        return Err(Flaw::Broken(rule));
    }
    if marks_fine(columns.up) {
        Ok(())
    } else {
        Err(Flaw::Broken(Rule::W1))
    }
}
