#![tactic(auto)]

pub mod request;
