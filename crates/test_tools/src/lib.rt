//! Worked examples of serving and of the tools, as tests alone.
#![tactic(auto)]

#[cfg(test)]
mod files;
#[cfg(test)]
mod forms;
#[cfg(test)]
mod listings;
#[cfg(test)]
mod refusals;
#[cfg(test)]
mod serving;
#[cfg(test)]
mod session;
#[cfg(test)]
mod sizes;
#[cfg(test)]
mod told;
#[cfg(test)]
mod wrapping;
