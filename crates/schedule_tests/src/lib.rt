//! Tests of costs, cycles, problems and schedules.
#![tactic(auto)]

#[cfg(test)]
mod applying;
#[cfg(test)]
mod bounds;
#[cfg(test)]
mod chains;
#[cfg(test)]
mod choosing;
#[cfg(test)]
mod graphs;
#[cfg(test)]
mod issue;
#[cfg(test)]
mod lines;
#[cfg(test)]
mod problems;
#[cfg(test)]
mod race;
#[cfg(test)]
mod search;
#[cfg(test)]
mod second_pass;
