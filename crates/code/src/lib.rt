// Words of bytes: the entries of the lower library, which ask nothing of their caller and refuse by FORMAT 9.
#![tactic(auto)]

pub mod field; // products and powers of α
pub mod word; // writing, testing, the syndrome
pub mod repair; // repair in place
pub mod lane; // repair of a lane by value
