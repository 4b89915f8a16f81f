// The sheet codec: how bytes become numbers, header words and operations, and back.
#![tactic(auto)]

pub mod amounts;
pub mod header;
pub mod number;
pub mod operation;
pub mod refusal;
pub mod writing;
