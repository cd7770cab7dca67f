//! Tests of reading and printing regions, and of the command.
#![tactic(auto)]

#[cfg(test)]
mod calls;
#[cfg(test)]
mod cores;
#[cfg(test)]
mod cost;
#[cfg(test)]
mod demo;
#[cfg(test)]
mod m4;
#[cfg(test)]
mod macros;
#[cfg(test)]
mod opt;
#[cfg(test)]
mod printing;
#[cfg(test)]
mod race;
#[cfg(test)]
mod reading;
#[cfg(test)]
mod run;
#[cfg(test)]
mod symbols;
#[cfg(test)]
mod words;
