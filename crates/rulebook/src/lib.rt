// Document 01 as definitions: they stand in specs/, in the paper's order. Here are the kinds of events, and the records that pass
// through the machine's calls.
#![tactic(auto)]

use words::{Answer, Serial};

// The seventeen kinds of events. Numbers: C and the lines give any, and 01 has the kind decided as a number.
pub const OPEN: u32 = 1;

pub const BEGIN: u32 = 2;

pub const LOCKX: u32 = 3;

pub const LOCKS: u32 = 4;

pub const DRAW: u32 = 5;

pub const READ: u32 = 6;

pub const COMMIT: u32 = 7;

pub const ABORT: u32 = 8;

pub const SEND: u32 = 9;

pub const DEMOTE: u32 = 10;

pub const SHARE: u32 = 11;

pub const DROP: u32 = 12;

pub const PROMOTE: u32 = 13;

pub const GRANT: u32 = 14;

pub const ACK: u32 = 15;

pub const CRASH: u32 = 16;

pub const RESTART: u32 = 17;

// An event: its kind and its fields in order, zeros in the rest. Laid out as in C, since other programs pass it.
#[repr(C)]
#[derive(Clone, Copy)]
pub struct Event {
    pub kind: u32,
    pub a: Serial,
    pub b: Serial,
    pub c: Serial,
    pub d: Serial,
}

// Who holds a series: the station set with bit i for station i, how many they are, and the lowest (8 if none). A refusal stands in the same
// record, and not beside it, since `RefusalKeeps` says of it that all three are 0.
#[derive(Clone, Copy)]
pub struct Holders {
    pub answer: Answer,
    pub set: u8,
    pub count: u32,
    pub lowest: u32,
}
