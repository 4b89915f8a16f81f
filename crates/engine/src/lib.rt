// The stream engine: registers, the loops of their streams, chunks and flags, calculations, and the run of a sheet.
#![tactic(auto)]

mod address;
mod ahead;
mod calculate;
pub mod configure;
mod execute;
mod fold;
mod gain;
mod height;
mod lane;
mod layout;
mod leave;
mod memory;
mod operand;
pub mod outline;
mod part;
mod place;
mod plan;
pub mod question;
pub mod register;
mod rules;
pub mod run;
mod running;
pub mod shape;
mod sheet;
mod size;
mod states;
pub mod stream;
mod transfer;
mod walk;
