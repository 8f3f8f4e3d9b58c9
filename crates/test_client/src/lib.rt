//! A client, call by call, as tests alone; and the library code of the README.
#![tactic(auto)]

#[cfg(test)]
mod asking;
#[cfg(test)]
mod calls;
#[cfg(test)]
mod greatest;
#[cfg(test)]
mod joined;
#[cfg(test)]
mod library;
#[cfg(test)]
mod terminals;
