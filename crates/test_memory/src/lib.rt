//! Worked examples that may be refused memory, as tests alone. With ample memory each gives the example's answer.
//! `scripts/refuse-allocations` runs a copy of them with each allocation refused in turn: then each gives that answer, or
//! says `refused` and shows that nothing else has happened.
#![tactic(auto)]

#[cfg(test)]
mod answering;
#[cfg(test)]
mod bodies;
#[cfg(test)]
mod calls;
#[cfg(test)]
mod debuggee;
#[cfg(test)]
mod files;
#[cfg(test)]
mod free;
#[cfg(test)]
mod outcomes;
#[cfg(test)]
mod serving;
#[cfg(test)]
mod views;
