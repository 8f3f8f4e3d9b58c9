//! What tests share: rows as texts and what runs them, a recording and messages, a second debuggee, and streams in memory.
//!
//! A row is a text that a person would write: what is taken, what has to come for it, and what is seen then. Who runs it
//! says one of three things: it is right, it is wrong, or memory was refused and nothing else has happened.
#![tactic(auto)]

pub mod bodies;
pub mod facts;
pub mod given;
pub mod json;
pub mod outcome;
pub mod player;
pub mod rows;
pub mod samples;
pub mod served;
pub mod streams;
pub mod stubborn;
pub mod words;
