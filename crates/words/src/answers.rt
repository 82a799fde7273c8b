// An answer by 01's number and value. Functions, since promises speak of `code_of` and `value_of`.
ghost use Rattle.std.specs.Prelude.{◌≡◌};
ghost use Rattle.words.specs.Answers.{code_of, value_of};

use crate::{Answer, Serial};

// The paper's number of an answer: 0 where the event was accepted, else the refusal's.
pub fn code(answer: Answer) -> u32
    ensures { result ≡ code_of answer }
{
    match answer {
        Ok(_) => 0,
        Err(refusal) => refusal as u32,
    }
}

// The paper's value of an answer: 0 with every refusal.
pub fn value(answer: Answer) -> Serial
    ensures { result ≡ value_of answer }
{
    answer.unwrap_or(0)
}
