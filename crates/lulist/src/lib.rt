//! One site's part of a program, gone through once an instant.
#![tactic(auto)]

mod code;
mod ends;
mod fitting;
mod flows;
mod linking;
mod making;
mod order;
mod outputs;
mod putting;
mod site;
mod start;
mod station;
mod taking;
mod turning;

pub use code::ListCode;
pub use station::ListStation;
