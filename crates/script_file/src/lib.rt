//! A script for a scripted host: the words that it gives, a line each.
#![tactic(auto)]

mod script;
#[cfg(test)]
mod tests;

pub use script::{ScriptError, read_script};
