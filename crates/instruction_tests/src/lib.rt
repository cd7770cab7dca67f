//! Tests of what instructions compute, and of how they are read and printed.
#![tactic(auto)]

#[cfg(test)]
mod access_rows;
#[cfg(test)]
mod access_spelling_rows;
#[cfg(test)]
mod bits;
#[cfg(test)]
mod classes;
#[cfg(test)]
mod form_rows;
#[cfg(test)]
mod m4;
#[cfg(test)]
mod m4_rows;
#[cfg(test)]
mod reading;
#[cfg(test)]
mod renamings;
#[cfg(test)]
mod result_rows;
#[cfg(test)]
mod results;
#[cfg(test)]
mod rows;
#[cfg(test)]
mod scalars;
#[cfg(test)]
mod spelling_rows;
#[cfg(test)]
mod spellings;
#[cfg(test)]
mod symbols;
#[cfg(test)]
mod tables;
#[cfg(test)]
mod vectors;
#[cfg(test)]
mod walk;
