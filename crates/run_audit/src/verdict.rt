//! The verdict of an audit: yes, or how many flows' parts the text begins with.
/// The verdict on a text as the live text of a scenario.
#[derive(Clone, Copy)]
pub enum Verdict {
    /// It is the text of the scenario's flows, for some histories.
    Yes,
    /// It isn't, and begins with the parts of this many flows, from flow 0 on, and not of more.
    No(u32),
}
