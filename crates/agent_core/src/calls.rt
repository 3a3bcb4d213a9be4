//! How an agent answers a ticket: it replies, and its reply becomes a frame.
ghost use Rattle.std.specs.Prelude.{◌≡◌};
ghost use Rattle.agent_core.specs.Agents.{replied, values_of};
ghost use Rattle.agent_core.specs.Answers.{frame_by};

use crate::agent::Agent;
use crate::answer::Answer;
use crate::frame::Frame;
use crate::ticket::Ticket;
use ccp_base::Reply;

/// Works out an agent's answer to a ticket.
pub fn answer(ticket: Ticket) -> Answer
    ensures { result ≡ ticket }
{
    let mut after = ticket.before;
    let reply = after.reply(&ticket.told);
    let frame = frame(ticket.flow, &ticket.before, &reply);
    Answer::new(ticket, after, reply, frame)
}

/// The frame of a reply.
fn frame(flow: u32, agent: &Agent, reply: &Reply) -> Frame
    ensures { result ≡ frame_by flow agent.now reply.now }
{
    let values = agent.values(reply);
    match *reply {
        Reply::Nothing => Frame::empty(),
        Reply::Update(_) => Frame::update(flow, &values),
        Reply::Change { program, .. } => Frame::change(flow, program, &values),
    }
}
