//! Worked examples of scripts that both ends are driven by, as tests alone.
#![tactic(auto)]

#[cfg(test)]
mod driven;
#[cfg(test)]
mod scripts;
