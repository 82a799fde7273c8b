// The desk: a text of event lines comes in, in pieces of any size, and a text of answer lines goes out.
#![tactic(auto)]

use copies::Lent;
use jobs::Job;
use words::{JOBS, Serial};

mod feeding;
mod keeping;

pub use feeding::feed;
pub use keeping::keep;

// Line numbers go on past 32 bits, up to this one, so that the number after it still fits 64.
pub const GREATEST_LINE: u64 = 18_446_744_073_709_551_614;

// Of a line that has not ended, so many bytes are kept: one that is longer than 64 is bad, whatever follows.
pub const KEPT: usize = 65;

// An open desk: the next line's number, the plant's tables, and the output that a COMMIT writes its draws into, of any length.
#[derive(Drop)]
pub struct OpenDesk<'a> {
    pub number: u64,
    pub jobs: [Job; JOBS],
    pub columns: Lent<'a>,
    pub row: &'a mut [Serial],
}

// What one call did: how many bytes of the text it used, and how many it wrote.
#[derive(Clone, Copy)]
pub struct Fed {
    pub used: usize,
    pub written: usize,
}
