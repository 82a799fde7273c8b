// Copies and transfers: the lower layer, which knows no jobs. What its tables and calls mean stands in specs/.
// Every call checks lengths and ranges itself and takes any tables; `free` says that no job locks the copy.
// A call that changes columns is lent those that it uses, each to be read or for changes; one that only reads is lent all ten (`Seen`).
#![tactic(auto)]

ghost use Rattle.std.specs.Prelude.{◌≡◌};
ghost use Rattle.copies.specs.Columns.{lent, seen};

use words::Serial;

mod checks;
mod read;
mod series;
mod station;
mod token;
mod transfer;
mod walk;

pub use read::{beyond, holders, is_open, is_up, kind, value};
pub use series::{open_series, raise};
pub use station::{crash, restart};
pub use token::{demote, drop, promote};
pub use transfer::{ack, grant, send, share};
pub use walk::first_broken;

// The layer's tables, a column each: the bounds of each series; the kind and value of each copy; sent counts; the receiver, kind and value of
// each Release; received numbers; the stations' marks. A column may be of any length; one that is too short is refusal 1, and extra entries stay.
// Slices side by side, and not one of records: C lends each column by itself.
#[derive(Drop)]
pub struct Columns<S> {
    pub firsts: S,
    pub lasts: S,
    pub kinds: S,
    pub values: S,
    pub sent: S,
    pub relto: S,
    pub relkind: S,
    pub relvalue: S,
    pub received: S,
    pub up: S,
}

// The columns of a caller that lends them for changes.
pub type Lent<'a> = Columns<&'a mut [u32]>;

// The columns of a caller that lets them be read.
pub type Seen<'a> = Columns<&'a [u32]>;

impl Columns<&mut [u32]> {
    // The same columns, to be read.
    pub fn seen(&self) -> Seen<'_>
        ensures { seen result ≡ lent self.now }
    {
        Columns {
            firsts: self.firsts,
            lasts: self.lasts,
            kinds: self.kinds,
            values: self.values,
            sent: self.sent,
            relto: self.relto,
            relkind: self.relkind,
            relvalue: self.relvalue,
            received: self.received,
            up: self.up,
        }
    }
}

// What one station keeps of a series: its copy, how many transfers it has sent, its Release.
#[derive(Clone, Copy)]
pub struct Kept {
    pub kind: u32,
    pub value: Serial,
    pub sent: u32,
    pub relto: u32,
    pub relkind: u32,
    pub relvalue: Serial,
}
