// The formula as the search sees it, docs/RULES.md, "Meaning" and "Closing": literals and their crossings, the value of a literal,
// the unset literals and the state of a clause, where the clauses start, a clause by its number, the first false one, and a view of it
// all.
#![tactic(auto)]

pub mod clause;
pub mod first_false;
pub mod lit;
pub mod starts;
pub mod state;
pub mod unset;
pub mod value;
pub mod view;
