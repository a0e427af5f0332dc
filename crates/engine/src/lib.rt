// The engine (000, agg/task.rs): its state, when that is sound, and a module for each family of calls. What a host uses is
// passed on here, flat: `engine::State`, `engine::send`. A family's module is public so that `laws` can name its promises, and what else is public is
// a part of a call that the calls in place over words (crate `words`) are made of too: docs/EXCEPTIONS.md lists them.
#![tactic(auto)]

pub mod acking;
pub mod answer;
pub mod cells;
pub mod closing;
pub mod deadlines;
pub mod flushing;
mod gates;
pub mod handing_out;
pub mod links;
pub mod packet;
pub mod packets;
mod queue;
pub mod received;
pub mod receiving;
pub mod records;
pub mod resending;
pub mod ring;
pub mod roster;
pub mod rows;
pub mod sending;
pub mod sizes;
pub mod slowness;
pub mod sound;
pub mod starting;
pub mod state;
pub mod table;
pub mod totals;
pub mod unconfirming;

pub use acking::ack;
pub use answer::Changed;
pub use closing::close_reader;
pub use deadlines::{ConfirmTimeout, earliest_confirm_timeout};
pub use flushing::flush;
pub use handing_out::{
    HandOut, TakeAckResult, TakeResult, is_consume_ack_required, show, showing, take, take_ack,
};
pub use links::{Added, add, block, confirm, mark, ping, pong};
pub use receiving::receive;
pub use records::held_of;
pub use resending::{ResendResult, resend};
pub use rows::row_of;
pub use sending::{SendResult, send};
pub use sizes::{DATA_BYTES, LEAST_CELLS, MOST_CELLS, PACKETS, SENT_BYTES, SLOTS};
pub use slowness::{SlowLinks, slow};
pub use sound::{is_sound, is_sound_with};
pub use starting::fresh;
pub use state::{Held, InFlight, Receiving, Sending, SentReliable, SentReliableStatus, State};
pub use table::packet_of;
pub use unconfirming::{remove, unconfirm};
