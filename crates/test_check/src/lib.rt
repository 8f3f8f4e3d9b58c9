//! Worked examples of the checker, as tests alone.
#![tactic(auto)]

#[cfg(test)]
mod judged;
#[cfg(test)]
mod transcripts;
