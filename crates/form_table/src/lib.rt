//! Reading and printing instructions by a table: each form is a row of plain data.
#![tactic(auto)]

pub mod items;
pub mod numerals;
pub mod printer;
pub mod reader;
pub mod rows;
pub mod spells;
pub mod symbols;
pub mod table;
