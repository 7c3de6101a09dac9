// A check of claims, for C and Rust: thin over `claims`, in the numbers of docs/RULES.md, "What comes back".
ghost use Rattle.std.specs.Prelude.{◌≡◌, ◌≤◌};
ghost use Rattle.rules.specs.Numbers.{max_text, claims_place};
ghost use Rattle.texts.specs.ClaimsReading.{claims_given};
ghost use Rattle.igbezolum.specs.ClaimsLinked.{verdict_numbers, ChecksIn};

use rules::numbers::Answer;

// What is returned, in numbers.
#[repr(C)]
#[derive(Clone, Copy)]
pub struct IgbVerdict {
    pub answer: u32,
    pub place: u32,
}

fn verdict_numbers(answer: rules::ClaimsAnswer) -> IgbVerdict
    requires { claims_place answer ≤ max_text }
    ensures { result ≡ verdict_numbers answer }
{
    IgbVerdict {
        answer: answer.number(),
        place: answer.place() as u32,
    }
}

// Whether a file of claims holds of an entry list.
// Rules out: 0 for a literal that is not forced; the answer where the place belongs.
pub fn igb_check_claims(entries: &[i32], vars: u32, text: &[u8]) -> IgbVerdict
    ensures { ChecksIn (claims_given entries.now vars text.now) result }
{
    let answer = claims::check_claims(entries, vars, text);
    verdict_numbers(answer)
}
