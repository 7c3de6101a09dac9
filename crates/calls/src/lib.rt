// The calls of a run after the first, and what the end of any call leaves (docs/RULES.md, "Run").
#![tactic(auto)]

pub mod after;
pub mod next;
