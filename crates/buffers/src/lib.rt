// Buffers that are lent: copying, counting, writing bits, and putting bytes, words and numbers at a cursor.
#![tactic(auto)]

pub mod bits;
pub mod copy;
pub mod count;
pub mod put;
