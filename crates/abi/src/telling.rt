// Answers as numbers.
ghost use Rattle.std.specs.Prelude.{◌≡◌};
ghost use Rattle.abi.specs.Calls.{said_of, holders_said_of};

use crate::{HoldersSaid, Said};
use rulebook::Holders;
use words::{Answer, code, value};

impl From<Answer> for Said {
    ghost from_gives = { λ answer said. said ≡ said_of answer };

    // An answer by its number and its value.
    fn from(answer: Answer) -> Said {
        Said {
            code: code(answer),
            value: value(answer),
        }
    }
}

impl From<Holders> for HoldersSaid {
    ghost from_gives = { λ holders said. said ≡ holders_said_of holders };

    // The holders of a series, the answer by its number.
    fn from(holders: Holders) -> HoldersSaid {
        HoldersSaid {
            code: code(holders.answer),
            set: u32::from(holders.set),
            count: holders.count,
            lowest: holders.lowest,
        }
    }
}
