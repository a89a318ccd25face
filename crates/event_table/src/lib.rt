//! What instructions mean, what a guest asks of the devices, and what comes of it.
//!
//! Plans: `specs/Plan.antt` is the form in which every instruction's meaning is written, over the places
//! of `specs/Places.antt`. `find`, `load` and `store` are the code's side of places, and `raise` delivers an
//! exception (`specs/Raising.antt`).
//!
//! The event table: `specs/Rows.antt` has a row for each event, with what the host is shown and what comes
//! back, and `specs/Events.antt` reads it: which event an instruction asks, and where its results go.
//! `specs/Elements.antt` has string I/O, whose elements are asked one by one or together as a block, and
//! `specs/Moves.antt` the moves that reach the page of devices.
//!
//! Results: what a guest takes of a reply, how a vCPU ends, and the order of what was asked.
#![tactic(auto)]

mod access;
mod block;
mod bytes;
mod elements;
mod end;
mod event;
mod exits;
#[cfg(test)]
mod move_tests;
mod moves;
mod outcome;
mod places;
mod raising;
mod row;
#[cfg(test)]
mod tests;
mod turn;

pub use access::{Access, Values};
pub use block::Block;
pub use bytes::Bytes;
pub use elements::{is_input, is_string, left, next_address, pointer, port_size};
pub use end::{End, Reason};
pub use event::Event;
pub use exits::{is_event, named, place};
pub use moves::{PAGE_START, extend, is_move, named_move, sign_extended};
pub use outcome::{Outcome, Reply};
pub use places::{Place, find, following, load, store};
pub use raising::raise;
pub use row::{
    Kind, Registers, Results, Row, Shows, access_of, bytes_back, kind_of, kind_of_block,
    kind_of_event, registers_of, row_of, vc_code,
};
pub use turn::{Entry, Finished, Turn};
