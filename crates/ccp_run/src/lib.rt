//! The whole tool as one call: words and bytes in, text and a status out.
#![tactic(auto)]

pub mod calls;
mod drive_end;
mod laws;
mod modes;
mod program;
mod reading;
mod scene;
mod tool;
mod unheard;

pub use ccp_words::{Alone, DriveText, ToolMode};
pub use drive_end::DriveEnd;
pub use feed_core::{Feed, FeedEnd, Flow};
pub use laws::{
    acks_read_back_law, drive_law, input_law, shared_timeline_rows_law, timeline_audited_law,
};
pub use mode_laws::{fold_feed_law, timeline_row_law};
pub use run_ending::{Limit, ModeOutput, Outcome, Refusal, Status};
pub use tool::run;
