// Reading: one piece of the text, after the bytes that are held.
ghost use Rattle.std.specs.Prelude.{◌<◌, ◌≤◌, IfOk, length};

use std::io;
use std::io::Read;

// Where a piece ends in the buffer, and whether it is the last. Two cases that both hold an end would be no plainer.
#[derive(Clone, Copy)]
pub struct Piece {
    pub end: usize,
    pub last: bool,
}

// One piece is read after the bytes that are held. At the end of the input, a last line that lacks its LF gets it.
pub fn arrived<R: Read>(input: &mut R, buf: &mut [u8], held: usize) -> io::Result<Piece>
    requires { held < length buf.old }
    ensures { IfOk result (λ piece. piece.end ≤ length buf.new) }
{
    let count = input.read(&mut buf[held..])?;
    if 0 < count {
        return Ok(Piece {
            end: held + count,
            last: false,
        });
    }
    if held == 0 {
        return Ok(Piece { end: 0, last: true });
    }
    buf[held] = b'\n';
    Ok(Piece {
        end: held + 1,
        last: true,
    })
}
