//! Tests of files and sinks, lines and tokens, symbols, states and state files.
#![tactic(auto)]

#[cfg(test)]
mod files;
#[cfg(test)]
mod lines;
#[cfg(test)]
mod running;
#[cfg(test)]
mod state_files;
#[cfg(test)]
mod symbols;
