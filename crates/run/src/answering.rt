// Answering: all whole lines of a piece, and their answers written.
use desk::{OpenDesk, feed};
use std::io;
use std::io::Write;

// Answers the whole lines of a piece; the answers of one call are written before the next, and all before the piece is done with. How many
// bytes were used.
pub fn answer_all<W: Write>(
    desk: &mut OpenDesk<'_>,
    piece: &[u8],
    out: &mut [u8],
    output: &mut W,
) -> io::Result<usize> {
    let mut used = 0;
    // goes on while bytes are left: a position, not an index counted by hand
    while used < piece.len() {
        let fed = feed(desk, &piece[used..], out);
        if fed.used == 0 {
            break;
        }
        used += fed.used;
        output.write_all(&out[..fed.written])?;
        output.flush()?;
    }
    Ok(used)
}
