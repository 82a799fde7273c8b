// Lines: the reader that keeps a text and its place in it, the event that a line says, and the lines of events and answers as they are
// printed.
#![tactic(auto)]

mod event_lines;
mod numbers;
mod printing;
mod readers;
mod texts;

pub use event_lines::{event_line, fields_of};
pub use printing::{write_answer, write_event};
pub use readers::{
    LineReader, NumberRead, line_at, next_line, next_number, number_at, reader, rest,
};

// An event line has at most so many bytes, its end not counted.
pub const LONGEST_LINE: usize = 64;

// An event line and an answer line, as they are printed, have at most so many bytes, with their end.
pub const EVENT_ROOM: usize = 47;

pub const ANSWER_ROOM: usize = 167;

// A line of a text: where it starts, where it ends and where the next one starts, which is past its LF.
#[derive(Clone, Copy)]
pub struct Line {
    pub start: usize,
    pub end: usize,
    pub next: usize,
}
