// The translator: loop nests, read, checked and written as sheets.
#![tactic(auto)]

pub mod nest;
mod read;
mod rules;
pub mod run;
pub mod translate;
mod write;
