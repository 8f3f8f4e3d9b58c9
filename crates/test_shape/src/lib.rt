//! Rows of messages, and what is wrong with what they hold.
//!
//! A row is the body of a message, and on the next line the sentence that says what is wrong, or `nothing`.
#![tactic(auto)]

#[cfg(test)]
mod rows;
