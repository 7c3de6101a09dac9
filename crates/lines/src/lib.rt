// Lines (docs/RULES.md, "The printed table" and "The printed reason"), put into a buffer that is lent.
#![tactic(auto)]

pub mod line;
pub mod model;
