//! What a pick says to those who hang the boards.

#![tactic(auto)]

use rules::Picked;

pub mod text;

pub use text::{LABEL_ROOM, label_text, put_label};

/// The label of a rack: what a pick answered, and the arrivals of its centres. There are as many as the pick counts;
/// what stands behind them is 0.
#[derive(Clone, Copy)]
pub struct Label {
    pub picked: Picked,
    // No heap: room for 12 arrivals, of which the pick's count are used.
    pub arrivals: [u32; 12],
}
