// The numbers and places of docs/RULES.md, "What comes back", for each answer.
ghost use Rattle.std.specs.Prelude.{◌≡◌, ℕ};
ghost use Rattle.std.proofs.Common.{rules};
ghost use Rattle.rules.specs.Numbers.{outcome_number, way_number, read_number, read_place, refusal_number, refusal_place};
ghost use Rattle.rules.specs.Numbers.{run_number, run_place, groups_number, groups_place, claims_number, claims_place};
ghost use Rattle.rules.specs.Why.{why_number, why_place};
ghost use Rattle.rules.specs.Close.{close_number, close_place};

use crate::{
    ClaimsAnswer, CloseAnswer, GroupsAnswer, MAX_HELD, MAX_TEXT, Outcome, ReadAnswer, Refusal,
    RunAnswer, Way, WhyAnswer,
};

// The log's second column.
impl From<Outcome> for u32 {
    ghost from_gives = { λ o r. r ≡ outcome_number o };

    // Rules out: 2 for a stopped call; 0 for a model.
    fn from(outcome: Outcome) -> u32 {
        match outcome {
            Outcome::Model => 1,
            Outcome::NoModel => 2,
            Outcome::Stopped => 3,
        }
    }
}

// The byte of a way.
impl From<Way> for u8 {
    ghost from_gives = { λ w r. r ≡ way_number w };

    // Rules out: 1 for a flip; 0 for a chunk.
    fn from(way: Way) -> u8 {
        match way {
            Way::Open => 0,
            Way::Compare => 1,
            Way::Flip => 2,
            Way::Chunk => 3,
        }
    }
}

// What comes back with a number, and a place where there is one.
pub trait Answer {
    ghost number_of: { Self → ℕ };

    ghost place_of: { Self → ℕ };

    fn number(self) -> u32
        ensures { result ≡ number_of self };

    fn place(self) -> usize
        ensures { result ≡ place_of self };

    // What is not refused has no place.
    ghost unplaced: { (answer : Self) → number_of answer ≡ 0 → place_of answer ≡ 0 };
}

// a reading's answer.
impl Answer for ReadAnswer {
    ghost number_of = { read_number };

    ghost place_of = { read_place };

    // Rules out: 3 for a header over the sizes; 0 for a refusal.
    fn number(self) -> u32 {
        match self {
            ReadAnswer::Accepted => 0,
            ReadAnswer::ShortBuffer => 1,
            ReadAnswer::LongText => 2,
            ReadAnswer::BadHeader(_) => 3,
            ReadAnswer::LargeHeader(_) => 4,
            ReadAnswer::BadToken(_) => 5,
            ReadAnswer::TokenBehind(_) => 6,
            ReadAnswer::TokenOverVars(_) => 7,
            ReadAnswer::ManyTokens(_) => 8,
            ReadAnswer::ShortText(_) => 9,
        }
    }

    // Rules out: 0 for a malformed token at 10; the length of a text over 32,768 bytes.
    fn place(self) -> usize {
        match self {
            ReadAnswer::Accepted => 0,
            ReadAnswer::ShortBuffer => 0,
            ReadAnswer::LongText => MAX_TEXT,
            ReadAnswer::BadHeader(at) => at,
            ReadAnswer::LargeHeader(at) => at,
            ReadAnswer::BadToken(at) => at,
            ReadAnswer::TokenBehind(at) => at,
            ReadAnswer::TokenOverVars(at) => at,
            ReadAnswer::ManyTokens(at) => at,
            ReadAnswer::ShortText(at) => at,
        }
    }

    ghost unplaced = { Prim.search rules };
}

// a refusal.
impl Answer for Refusal {
    ghost number_of = { refusal_number };

    ghost place_of = { refusal_place };

    // Rules out: 11 for a variable above V; 1 for limits that are not allowed.
    fn number(self) -> u32 {
        match self {
            Refusal::ShortBuffer => 1,
            Refusal::BadLimits => 10,
            Refusal::BadList(_) => 11,
            Refusal::EntryOverVars(_) => 12,
            Refusal::BadLiteral(_) => 13,
            Refusal::NotFree => 14,
            Refusal::ManyHeld => 15,
        }
    }

    // Rules out: 0 for a variable above V at index 2; 1 for a buffer that is too short.
    fn place(self) -> usize {
        match self {
            Refusal::ShortBuffer => 0,
            Refusal::BadLimits => 0,
            Refusal::BadList(at) => at,
            Refusal::EntryOverVars(at) => at,
            Refusal::BadLiteral(at) => at,
            Refusal::NotFree => 0,
            Refusal::ManyHeld => MAX_HELD,
        }
    }

    ghost unplaced = { Prim.search rules };
}

// a run's answer.
impl Answer for RunAnswer {
    ghost number_of = { run_number };

    ghost place_of = { run_place };

    // Rules out: 20 for a stopped run; 0 for a refused one.
    fn number(self) -> u32 {
        match self {
            RunAnswer::Settled => 0,
            RunAnswer::NoModel => 20,
            RunAnswer::Stopped => 21,
            RunAnswer::Refused(refusal) => refusal.number(),
        }
    }

    // Rules out: 0 for a list refused at index 2; 1 for a settled run.
    fn place(self) -> usize {
        match self {
            RunAnswer::Settled => 0,
            RunAnswer::NoModel => 0,
            RunAnswer::Stopped => 0,
            RunAnswer::Refused(refusal) => refusal.place(),
        }
    }

    ghost unplaced = { Prim.search rules };
}

// the answer to why a literal is forced.
impl Answer for WhyAnswer {
    ghost number_of = { why_number };

    ghost place_of = { why_place };

    // Rules out: 0 for a literal that is not; 20 where it is false in a model.
    fn number(self) -> u32 {
        match self {
            WhyAnswer::Kept => 0,
            WhyAnswer::NoModel => 20,
            WhyAnswer::Stopped => 21,
            WhyAnswer::NotForced => 22,
            WhyAnswer::Refused(refusal) => refusal.number(),
        }
    }

    // Rules out: 0 for a list refused at index 2; 1 for a literal that is not forced.
    fn place(self) -> usize {
        match self {
            WhyAnswer::Kept => 0,
            WhyAnswer::NoModel => 0,
            WhyAnswer::Stopped => 0,
            WhyAnswer::NotForced => 0,
            WhyAnswer::Refused(refusal) => refusal.place(),
        }
    }

    ghost unplaced = { Prim.search rules };
}

// a closing's answer.
impl Answer for CloseAnswer {
    ghost number_of = { close_number };

    ghost place_of = { close_place };

    // Rules out: 0 for a clash; 20 for a closed set.
    fn number(self) -> u32 {
        match self {
            CloseAnswer::Closed => 0,
            CloseAnswer::Clash => 20,
            CloseAnswer::Refused(refusal) => refusal.number(),
        }
    }

    // Rules out: 0 for a list refused at index 2; 1 for a clash.
    fn place(self) -> usize {
        match self {
            CloseAnswer::Closed => 0,
            CloseAnswer::Clash => 0,
            CloseAnswer::Refused(refusal) => refusal.place(),
        }
    }

    ghost unplaced = { Prim.search rules };
}

// the answer of a reading of groups.
impl Answer for GroupsAnswer {
    ghost number_of = { groups_number };

    ghost place_of = { groups_place };

    // Rules out: 3 for a size of 1; 4 for a list over 1,024 clauses.
    fn number(self) -> u32 {
        match self {
            GroupsAnswer::Accepted => 0,
            GroupsAnswer::ShortBuffer => 1,
            GroupsAnswer::LongText => 2,
            GroupsAnswer::OverSizes(_) => 4,
            GroupsAnswer::BadToken(_) => 5,
            GroupsAnswer::TokenBehind(_) => 6,
            GroupsAnswer::TokenOverVars(_) => 7,
            GroupsAnswer::ShortText(_) => 9,
            GroupsAnswer::LongList => 11,
            GroupsAnswer::BadGroup(_) => 16,
        }
    }

    // Rules out: 0 for a size of 1 at 2; the length of a text over 32,768 bytes.
    fn place(self) -> usize {
        match self {
            GroupsAnswer::Accepted => 0,
            GroupsAnswer::ShortBuffer => 0,
            GroupsAnswer::LongText => MAX_TEXT,
            GroupsAnswer::OverSizes(at) => at,
            GroupsAnswer::BadToken(at) => at,
            GroupsAnswer::TokenBehind(at) => at,
            GroupsAnswer::TokenOverVars(at) => at,
            GroupsAnswer::ShortText(at) => at,
            GroupsAnswer::LongList => 0,
            GroupsAnswer::BadGroup(at) => at,
        }
    }

    ghost unplaced = { Prim.search rules };
}

// the answer to a file of claims.
impl Answer for ClaimsAnswer {
    ghost number_of = { claims_number };

    ghost place_of = { claims_place };

    // Rules out: 0 for a number at fault; 17 for a malformed token.
    fn number(self) -> u32 {
        match self {
            ClaimsAnswer::Accepted(_) => 0,
            ClaimsAnswer::LongText => 2,
            ClaimsAnswer::BadToken(_) => 5,
            ClaimsAnswer::Rejected(_) => 17,
            ClaimsAnswer::Refused(refusal) => refusal.number(),
        }
    }

    // Rules out: the number of claims for an accepted file; the length of a text over 32,768 bytes.
    fn place(self) -> usize {
        match self {
            ClaimsAnswer::Accepted(_) => 0,
            ClaimsAnswer::LongText => MAX_TEXT,
            ClaimsAnswer::BadToken(at) => at,
            ClaimsAnswer::Rejected(at) => at,
            ClaimsAnswer::Refused(refusal) => refusal.place(),
        }
    }

    ghost unplaced = { Prim.search rules };
}
