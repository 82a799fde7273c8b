// A gauge for benchmarks: it steps a list of events from an empty plant, without the whole check, and counts those that are accepted.
#![tactic(auto)]

mod counting;
mod starting;

pub use starting::gauge_accepted;
