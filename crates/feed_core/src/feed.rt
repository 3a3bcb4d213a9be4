//! A datapath over a stream of frames: what it keeps, and its answer to the next message.

ghost use Rattle.std.specs.Prelude.{◌≡◌, ◌+◌, ◌-◌, ◌<◌, false, IfOk, OnOk, OnErr};
ghost use Rattle.ccp_base.specs.Limits.{most_messages};
ghost use Rattle.feed_core.specs.Feed.{no_flows, answer_message, TakesMemory};
ghost use Rattle.feed_core.specs.FeedHolds.{HasShortFrame};

use crate::answerer::Answerer;
use crate::tables::Tables;
use ccp_base::{Ack, NoMemory};
use ccp_messages::Message;
use reply_frames::Version;
use std::alloc::Global;
use std::marker::Model;

/// A datapath over frames: flows 0 to 63, programs 0 to 15, and how many messages it was given.
#[derive(Drop)]
pub struct Feed {
    tables: Tables,
}

impl Model for Feed {
    ghost use Rattle.feed_core.specs.Feed.{FeedState};
    ghost use Rattle.fold_machine.specs.MachineState.{machine_code};
    ghost use Rattle.std.specs.Coded.{codes};

    ghost Value = { FeedState };

    ghost coded = { Prim.hlevel (codes, machine_code) };

    ghost use Rattle.feed_core.specs.FeedHolds.{feed_state, IsFeed};

    ghost view = { λ feed. feed_state feed.tables };

    ghost invariant = { λ feed. IsFeed (feed_state feed.tables) };
}

impl Feed {
    /// No flows and no programs.
    pub fn new(alloc: Global) -> Result<Feed, NoMemory>
        ensures state { IfOk result (λ feed. feed ≡ no_flows) }
    {
        Ok(Feed {
            tables: Tables::new(alloc)?,
        })
    }

    /// How many messages were given.
    pub fn messages(&self) -> u32
        ensures { result ≡ self.now.messages }
    {
        self.tables.messages
    }

    /// The answer to the next message, if it has one. Only a Create of a flow that doesn't exist takes memory. If
    /// memory runs out nothing has changed.
    pub fn frame(
        &mut self,
        alloc: Global,
        message: Message,
        version: Version,
    ) -> Result<Option<(Message, Version)>, NoMemory>
        requires few { self.old.messages < most_messages }
        ensures answered { IfOk result (λ answer. (answer, self.new) ≡ answer_message self.old message version) }
        ensures unchanged { OnErr result (self.new ≡ self.old) }
        ensures memory { OnErr result (TakesMemory self.old message) }
        ensures counted { OnOk result (self.new.messages ≡ self.old.messages + 1) }
        ensures frame { IfOk result HasShortFrame }
    {
        self.tables.frame(alloc, message, version)
    }
}

impl Answerer for Feed {
    ghost answer_of = { answer_message };

    ghost is_waiting = { λ feed. false };

    ghost room = { λ feed. most_messages - feed.messages };

    ghost Takes = { TakesMemory };

    fn answer(
        &mut self,
        alloc: Global,
        message: Message,
        version: Version,
    ) -> Result<Option<(Message, Version)>, NoMemory> {
        self.frame(alloc, message, version)
    }

    fn acknowledge(
        &mut self,
        version: Version,
        flow: u32,
        ack: &Ack,
        answer: &mut Option<(Message, Version)>,
    ) {
        self.tables.acknowledge(version, flow, ack, answer);
    }

    fn waits(&self) -> bool {
        false
    }
}
