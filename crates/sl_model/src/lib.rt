//! What slothy's theorems mean: the plain data that they speak of, in `src/`, and the definitions,
//! in `specs/`. There is no code here.
#![tactic(auto)]

pub mod frame;
pub mod instruction;
pub mod limits;
pub mod register;
pub mod rules;
pub mod schedule;
pub mod text;
