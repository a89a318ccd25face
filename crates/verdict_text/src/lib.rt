//! A verdict on where the secret of a guest flows, in print.
#![tactic(auto)]

#[cfg(test)]
mod tests;
mod text;

pub use text::verdict_text;
