// The loop: a piece is read, its lines are answered, what is left of it is kept.
use crate::Failure;
use crate::answering::answer_all;
use crate::reading::arrived;
use copies::Lent;
use desk::{OpenDesk, keep};
use jobs::Job;
use std::io::{Read, Write};
use words::{JOBS, OUTPUT, PLACES, RECEIVED, SERIES, STATIONS, Serial};

// The bytes that each of the two buffers holds.
const BUFFER: usize = 65536;

// Reads event lines to the end of the input and answers them to the output, from an empty plant, in constant memory. Nothing is read while
// an answer waits to be written. A failed read or write ends the run.
pub fn answer_lines<R: Read, W: Write>(input: &mut R, output: &mut W) -> Result<(), Failure> {
    let mut buf = [0; BUFFER];
    let mut out = [0; BUFFER];
    let mut firsts: [Serial; SERIES] = [0; SERIES];
    let mut lasts: [Serial; SERIES] = [0; SERIES];
    let mut kinds: [u32; PLACES] = [0; PLACES];
    let mut values: [Serial; PLACES] = [0; PLACES];
    let mut sent: [u32; PLACES] = [0; PLACES];
    let mut relto: [u32; PLACES] = [0; PLACES];
    let mut relkind: [u32; PLACES] = [0; PLACES];
    let mut relvalue: [Serial; PLACES] = [0; PLACES];
    let mut received: [u32; RECEIVED] = [0; RECEIVED];
    let mut up: [u32; STATIONS] = [0; STATIONS];
    let mut row: [Serial; OUTPUT] = [0; OUTPUT];
    let mut columns = Lent {
        firsts: &mut firsts,
        lasts: &mut lasts,
        kinds: &mut kinds,
        values: &mut values,
        sent: &mut sent,
        relto: &mut relto,
        relkind: &mut relkind,
        relvalue: &mut relvalue,
        received: &mut received,
        up: &mut up,
    };
    let mut jobs = [Job::default(); JOBS];
    // The columns have their sizes, so the empty plant is not refused.
    let _ = machine::empty(&mut jobs, &mut columns);
    let mut desk = OpenDesk {
        number: 1,
        jobs,
        columns,
        row: &mut row,
    };
    let mut held = 0;
    // A loop has to end; this one does by its input, long before.
    for _ in 0..u64::MAX {
        let piece = arrived(input, &mut buf, held).map_err(Failure::Reading)?;
        let text = &buf[..piece.end];
        let used = answer_all(&mut desk, text, &mut out, output).map_err(Failure::Writing)?;
        held = keep(&mut buf, used, piece.end);
        if piece.last {
            break;
        }
    }
    Ok(())
}
