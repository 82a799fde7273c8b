// The run program's loop: event lines come from a reader and are answered to a writer.
#![tactic(auto)]

mod answering;
mod failing;
mod reading;
mod running;

pub use failing::Failure;
pub use running::answer_lines;
