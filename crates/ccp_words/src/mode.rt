//! The modes that the command line can ask for, and their names.
ghost use Rattle.std.specs.Prelude.{◌≡◌, map, option_map};
ghost use Rattle.ccp_words.specs.Modes.{mode_named, mode_names};

use std::str::FromStr;

/// A mode whose work is done by its caller alone, over one source.
#[derive(Clone, Copy)]
pub enum Alone {
    /// A program's summary and the listing of its code.
    Check,
    /// A program over given acknowledgements.
    Fold,
    /// A datapath over a stream of frames.
    Feed,
    /// A judge of printed live runs.
    Audit,
    /// An agent outside that drives the flows of a scenario by frames.
    Drive,
}

/// A text of flows that an agent outside has driven.
#[derive(Clone, Copy)]
pub enum DriveText {
    /// The table of their rows.
    Table,
    /// The reports of each flow.
    Timeline,
    /// The acknowledgements of each flow.
    Acks,
}

/// What the tool can be asked for.
#[derive(Clone, Copy)]
pub enum ToolMode {
    Alone(Alone),
    /// A scenario on datapath and agent threads.
    Live,
    /// A scenario's cases on workers, as a table.
    Campaign,
    /// A generated campaign, as a summary.
    Soak,
    /// Programs that are compiled and installed while datapaths run.
    Rollout,
    /// Several flows over one bottleneck.
    Shared,
    /// A scenario's cases on workers, as the reports of each flow.
    Timeline,
    /// A scenario's cases on workers, as the acknowledgements of each flow.
    Acks,
    /// Several flows over one bottleneck, as the reports of each flow.
    SharedTimeline,
    /// Several flows over one bottleneck, as the acknowledgements of each flow.
    SharedAcks,
    /// A scenario and the frames that drove its flows, as a text of these.
    Driven(DriveText),
}

/// A name that no mode has.
#[derive(Clone, Copy)]
pub struct NoMode;

/// The names of the modes that the tool has.
pub(crate) fn names<'a>() -> &'a [&'a str]
    ensures { map (λ name. name.now) result.now ≡ mode_names }
{
    &[
        "check",
        "fold",
        "feed",
        "audit",
        "live",
        "campaign",
        "soak",
        "rollout",
        "shared",
        "timeline",
        "acks",
        "shared-timeline",
        "shared-acks",
        "drive",
        "drive-table",
        "drive-timeline",
        "drive-acks",
    ]
}

/// The mode of a name.
fn mode_named(name: &str) -> Option<ToolMode>
    ensures { result ≡ mode_named name.now }
{
    match name {
        "check" => Some(ToolMode::Alone(Alone::Check)),
        "fold" => Some(ToolMode::Alone(Alone::Fold)),
        "feed" => Some(ToolMode::Alone(Alone::Feed)),
        "audit" => Some(ToolMode::Alone(Alone::Audit)),
        "live" => Some(ToolMode::Live),
        "campaign" => Some(ToolMode::Campaign),
        "soak" => Some(ToolMode::Soak),
        "rollout" => Some(ToolMode::Rollout),
        "shared" => Some(ToolMode::Shared),
        "timeline" => Some(ToolMode::Timeline),
        "acks" => Some(ToolMode::Acks),
        "shared-timeline" => Some(ToolMode::SharedTimeline),
        "shared-acks" => Some(ToolMode::SharedAcks),
        "drive" => Some(ToolMode::Alone(Alone::Drive)),
        "drive-table" => Some(ToolMode::Driven(DriveText::Table)),
        "drive-timeline" => Some(ToolMode::Driven(DriveText::Timeline)),
        "drive-acks" => Some(ToolMode::Driven(DriveText::Acks)),
        _ => None,
    }
}

impl FromStr for ToolMode {
    ghost use Rattle.std.specs.Prelude.{◌≡◌};
    ghost use Rattle.std.specs.Result.{result_ok};
    ghost use Rattle.ccp_words.specs.Modes.{mode_named};

    type Err = NoMode;

    ghost from_str_gives = { λ name mode. result_ok mode ≡ mode_named name };

    fn from_str(name: &str) -> Result<ToolMode, NoMode> {
        mode_named(name).ok_or(NoMode)
    }
}
