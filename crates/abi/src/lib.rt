// The machine for other programs: the public calls over lent tables, exported for C and what links as C does. include/druvisha.h in this repository
// declares them and says what each table holds.
#![tactic(auto)]

mod calls;
mod telling;

pub use calls::{druvisha_empty, druvisha_holders, druvisha_step};

// An answer by its number and its value: 0 where the event was accepted, else the refusal's, whose value is 0.
#[repr(C)]
#[derive(Clone, Copy)]
pub struct Said {
    pub code: u32,
    pub value: u32,
}

// Who holds a series: the answer's number, the station set with bit i for station i, how many they are, and the lowest (8 if none).
#[repr(C)]
#[derive(Clone, Copy)]
pub struct HoldersSaid {
    pub code: u32,
    pub set: u32,
    pub count: u32,
    pub lowest: u32,
}
