// What the programs print and read: sheets, refusals and registers in words, files and arguments.
#![tactic(auto)]

pub mod argument;
mod failure;
pub mod file;
pub mod memory;
pub mod number;
pub mod operation;
mod outside;
pub mod refusal;
pub mod register;
pub mod sheet;
pub mod text;
