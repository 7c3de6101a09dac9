// The search, docs/RULES.md, "Closing", "Search" and "Budget": values that are lent, closing by rounds, the meter of tries, and going
// on and trying, which call each other.
#![tactic(auto)]

pub mod call;
pub mod meter;
pub mod room;
pub mod values;
pub mod whole;
