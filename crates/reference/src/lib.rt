//! A second implementation of the rules, plain and slow: sets and vectors of std, and each answer
//! found by trying every load. It shares only the words of the refusals with the crates that it is
//! held against, and is held against them by running, not by proof.
#![tactic(auto)]

pub mod calls;
pub mod claims;
pub mod makings;
pub mod order;
pub mod pairing;
pub mod plain_book;
pub mod repairs;
pub mod steps;
