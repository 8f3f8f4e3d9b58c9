//! Worked examples of recordings that are read and played, and of a debuggee that a host feeds, as tests alone.
#![tactic(auto)]

#[cfg(test)]
mod feeding;
#[cfg(test)]
mod hosts;
#[cfg(test)]
mod keys;
#[cfg(test)]
mod playing;
#[cfg(test)]
mod reading;
#[cfg(test)]
mod runs;
#[cfg(test)]
mod telling;
