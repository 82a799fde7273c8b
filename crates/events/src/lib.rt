// Events: which are bad, and what the two layers' calls make of the others. This is the step without the whole check, for tables that are
// known to be whole; it takes any tables all the same, and answers in any. A call that changes the columns promises that they stay the same
// ones (`SameColumns`): it stores into what it was lent.
#![tactic(auto)]

mod dispatch;
mod fields;
mod naming;

pub use dispatch::{step_unchecked, turn_unchecked};
pub use naming::{free_for, slot_of};
