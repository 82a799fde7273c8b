// The lines of a text by their places.
ghost use Rattle.std.specs.Prelude.{◌≡◌, ◌==◌, position};
ghost use Rattle.digits.specs.Bytes.{LF};
ghost use Rattle.lines.specs.Texts.{line_at};

use crate::Line;

// How many bytes stand before the first LF of a text, if it has one.
fn before_end(text: &[u8]) -> Option<usize>
    ensures { result ≡ position (λ b. b == LF) text.now }
{
    text.iter().position(|b| *b == b'\n')
}

// The line that starts at a position; a last line may lack its LF.
#[tactic(auto, using(crate::proofs::Ends::line_ways))]
pub fn line_from(text: &[u8], at: usize) -> Option<Line>
    ensures { result ≡ line_at text.now at }
{
    if text.len() <= at {
        return None;
    }
    let (end, next) = match before_end(&text[at..]) {
        Some(count) => (at + count, at + count + 1),
        None => (text.len(), text.len()),
    };
    Some(Line {
        start: at,
        end,
        next,
    })
}
