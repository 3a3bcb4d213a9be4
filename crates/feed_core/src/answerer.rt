//! What answers the messages of an input.

ghost use Rattle.std.specs.Prelude.{◌≡◌, ℕ, ◌+◌, ◌<◌, ◌≤◌, Bool, None, IfOk, OnOk, OnErr};
ghost use Rattle.ccp_messages.specs.declared.message.Message.{Message};
ghost use Rattle.reply_frames.specs.declared.outline.Version.{Version};
ghost use Rattle.feed_core.specs.Feed.{Answer};
ghost use Rattle.feed_core.specs.FeedHolds.{HasShortFrame};

use ccp_base::{Ack, NoMemory};
use ccp_messages::Message;
use reply_frames::Version;
use std::alloc::Global;

/// Answers the messages of an input, one after another, each with at most one message.
pub trait Answerer {
    // the answer to a message in a version, and the state after it
    ghost answer_of: { Self → Message → Version → Answer × Self };

    // another message is needed where the input ends
    ghost is_waiting: { Self → Bool };

    // how many more messages it can be given
    ghost room: { Self → ℕ };

    // to answer this message takes memory
    ghost Takes: { Self → Message → Type 0 };

    /// The answer to the next message, if it has one.
    fn answer(
        &mut self,
        alloc: Global,
        message: Message,
        version: Version,
    ) -> Result<Option<(Message, Version)>, NoMemory>
        requires room { 0 < room self.old }
        ensures answered { IfOk result (λ answer. (answer, self.new) ≡ answer_of self.old message version) }
        ensures memory { OnErr result (Takes self.old message) }
        ensures room { OnOk result (room self.old ≤ room self.new + 1) }
        ensures frame { IfOk result HasShortFrame };

    /// Puts the answer to the next message, an acknowledgement, into `answer`, if it has one.
    fn acknowledge(
        &mut self,
        version: Version,
        flow: u32,
        ack: &Ack,
        answer: &mut Option<(Message, Version)>,
    )
        requires room { 0 < room self.old }
        requires none { answer.old ≡ None }
        ensures answered { (answer.new, self.new) ≡ answer_of self.old (Message.Ack flow ack.entry.now) version }
        ensures room { room self.old ≤ room self.new + 1 }
        ensures frame { HasShortFrame answer.new };

    /// Whether another message is needed where the input ends.
    fn waits(&self) -> bool
        ensures { result ≡ is_waiting self.now };
}
