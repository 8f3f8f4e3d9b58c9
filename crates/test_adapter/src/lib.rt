//! Sessions of an adapter, as tests alone.
#![tactic(auto)]

#[cfg(test)]
mod asking;
#[cfg(test)]
mod bodies;
#[cfg(test)]
mod differences;
#[cfg(test)]
mod emitting;
#[cfg(test)]
mod frames;
#[cfg(test)]
mod greatest;
#[cfg(test)]
mod holding;
#[cfg(test)]
mod last_numbers;
#[cfg(test)]
mod lending;
#[cfg(test)]
mod moved;
#[cfg(test)]
mod next;
#[cfg(test)]
mod offers;
#[cfg(test)]
mod opening;
#[cfg(test)]
mod playing;
#[cfg(test)]
mod sessions;
#[cfg(test)]
mod stubborn;
#[cfg(test)]
mod terminals;
#[cfg(test)]
mod values;
