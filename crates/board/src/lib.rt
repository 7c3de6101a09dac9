// The board: for each clause and for the constraint how many of its literals are true and how many are unset, kept while literals are
// set and unset. Who holds a literal is found once; a literal that is set or unset changes the numbers of those alone.
#![tactic(auto)]

pub mod begin;
pub mod chain;
pub mod close;
pub mod code;
pub mod constraint;
pub mod first;
pub mod flip;
pub mod hot;
pub mod keys;
pub mod literal;
pub mod parts;
pub mod round;
pub mod show;
pub mod trail;
