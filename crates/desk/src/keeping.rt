// What is kept between two pieces: the bytes of a line that has not ended. The promises speak of the whole bytes and of positions in them.
ghost use Rattle.std.specs.Prelude.{◌≡◌, length};
ghost use Rattle.std.proofs.lemmas.List.Edits.{sets};
ghost use Rattle.desk.specs.Calls.{kept};

use crate::KEPT;

// Moves the bytes of buf from index from up to end to its start, but only as many as are kept of a line that has not ended. How many were
// moved.
#[tactic(auto, using(crate::proofs::Kept::keep_ways))]
pub fn keep(buf: &mut [u8], from: usize, end: usize) -> usize
    ensures value { result ≡ length (kept buf.old from end) }
    ensures buf_after { buf.new ≡ sets buf.old 0 (kept buf.old from end) }
{
    let stop = end.min(buf.len());
    if stop <= from {
        return 0;
    }
    let count = KEPT.min(stop - from);
    buf.copy_within(from..from + count, 0);
    count
}
