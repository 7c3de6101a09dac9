// Answers: docs/RULES.md, "What comes back". A refusal as it is returned.
ghost use Rattle.std.specs.Prelude.{◌≡◌};
ghost use Rattle.texts.specs.Reading.{returned};
ghost use Rattle.texts.specs.Reading.{refused as Judged·refused};

use rules::{ReadAnswer, Reading};

// V, C and the entry count are zero.
// Rules out: V of the header after a refusal; another answer than the one given.
pub fn refused(answer: ReadAnswer) -> Reading
    ensures { result ≡ returned (Judged·refused answer) }
{
    Reading {
        answer,
        vars: 0,
        clauses: 0,
        entries: 0,
    }
}
