//! Worked examples of commands with their arguments, and of the tables of an end, as tests alone.
#![tactic(auto)]

#[cfg(test)]
mod breakpoints;
#[cfg(test)]
mod checks;
#[cfg(test)]
mod commands;
#[cfg(test)]
mod known;
#[cfg(test)]
mod reading;
#[cfg(test)]
mod real_clients;
#[cfg(test)]
mod references;
#[cfg(test)]
mod requests;
#[cfg(test)]
mod telling;
#[cfg(test)]
mod terminals;
#[cfg(test)]
mod writing;
