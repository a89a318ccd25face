//! The page that a guest and its hypervisor share: 512 words of 64 bits beside the GHCB MSR
//! (AMD 56421, "GHCB Layout" and "GHCB MSR Protocol"), and the items that a guest makes on it.
#![tactic(auto)]

mod item;
mod page;
mod recorded;
mod script;
mod word;
mod words;

pub use item::Item;
pub use page::Page;
pub use recorded::Recorded;
pub use script::Script;
pub use word::Word;
pub use words::Words;
