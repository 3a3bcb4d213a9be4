//! What the outputs of two modes say of one flow or program: `feed` and `fold`, `campaign` and `timeline`.
#![tactic(auto)]

mod laws;

pub use laws::{fold_feed_law, timeline_row_law};
