// The steps of a run that need no call (docs/RULES.md, "Run"): compare, flip, hint, chunk, constraint, records, log row.
#![tactic(auto)]

pub mod chunk;
pub mod compare;
pub mod constraint;
pub mod flip;
pub mod hint;
pub mod records;
pub mod row;
