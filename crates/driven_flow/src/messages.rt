//! What the flows of a session say, as messages.
ghost use Rattle.std.specs.Prelude.{◌≡◌, Some};
ghost use Rattle.feed_core.specs.FeedHolds.{HasShortFrame};
ghost use Rattle.driven_flow.specs.Session.{version_for, message_of, IsShort};

use ccp_base::Told;
use ccp_messages::Message;
use reply_frames::Version;

/// The most fields of a report whose frame has version 1.
const FIELDS_OF_ONE: u32 = 32;

/// The version of a report's frame, by how many fields the report has.
fn version_for(fields: u32) -> Version
    ensures { result ≡ version_for fields }
{
    if fields > FIELDS_OF_ONE {
        Version::Two
    } else {
        Version::One
    }
}

/// A ticket's report or notice as a message, in the version that it is written in.
pub(crate) fn message_of(told: Told) -> (Message, Version)
    requires { IsShort told }
    ensures message { result ≡ message_of told }
    ensures frame { HasShortFrame (Some result) }
{
    match told {
        Told::Report(report) => {
            let version = version_for(report.fields.len());
            (Message::Measure(report), version)
        }
        Told::Fault(notice) => (Message::Fault(notice), Version::One),
    }
}
