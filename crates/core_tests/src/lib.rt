//! Tests of core tables, of what instructions cost by them, and of the units that take them.
#![tactic(auto)]

#[cfg(test)]
mod core_costs;
#[cfg(test)]
mod cores;
#[cfg(test)]
mod instructions;
#[cfg(test)]
mod own;
