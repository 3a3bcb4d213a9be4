//! The answer to a ticket: the agent after it, its reply, and the frame for the datapath.
ghost use Rattle.std.specs.Prelude.{◌≡◌, ◌≤◌, length};
ghost use Rattle.ccp_base.specs.Limits.{most_answer_bytes};

use crate::agent::Agent;
use crate::frame::Frame;
use crate::ticket::Ticket;
use ccp_base::Reply;
use std::marker::Model;

/// An agent's answer to a ticket: the ticket, the agent after it, its reply, and the frame for the datapath.
/// Contracts see an answer as its ticket, which determines the others.
#[derive(Clone, Copy)]
pub struct Answer {
    ticket: Ticket,
    after: Agent,
    reply: Reply,
    frame: Frame,
}

impl Model for Answer {
    ghost use Rattle.agent_core.specs.declared.ticket.Ticket.{Ticket};

    ghost Value = { Ticket };

    ghost use Rattle.agent_core.specs.Answers.{after_of, reply_of, frame_of, IsAnswered};

    ghost view = { λ a. a.ticket };

    ghost invariant = { λ a. IsAnswered a.ticket a.after a.reply a.frame };

    ghost inverse = { λ t. record { ticket = t; after = after_of t; reply = reply_of t; frame = frame_of t } };

    ghost inverse_ok = { λ a h. λ i. record {
      ticket = a.ticket;
      after = h.agent i;
      reply = h.said i;
      frame = h.bytes i;
    } };
}

impl Answer {
    ghost use Rattle.agent_core.specs.Answers.{after_of, reply_of, frame_of};

    /// The answer of these parts.
    pub(crate) fn new(ticket: Ticket, after: Agent, reply: Reply, frame: Frame) -> Self
        requires agent { after_of ticket ≡ after }
        requires reply { reply_of ticket ≡ reply }
        requires bytes { frame_of ticket ≡ frame }
        ensures { result ≡ ticket }
    {
        Answer {
            ticket,
            after,
            reply,
            frame,
        }
    }

    /// The ticket that is answered.
    pub fn ticket(&self) -> &Ticket
        ensures { result.now ≡ self.now }
    {
        &self.ticket
    }

    /// The agent after the ticket's report or fault.
    pub fn after(&self) -> &Agent
        ensures { result.now ≡ after_of self.now }
    {
        &self.after
    }

    /// What the agent replied.
    pub fn reply(&self) -> Reply
        ensures { result ≡ reply_of self.now }
    {
        self.reply
    }

    /// The frame for the datapath, of version 1 and at most 64 bytes; no bytes if the agent replies
    /// nothing.
    pub fn frame(&self) -> &[u8]
        ensures bytes { result.now ≡ frame_of self.now }
        ensures within { length (frame_of self.now) ≤ most_answer_bytes }
    {
        self.frame.as_slice()
    }
}
