//! A campaign's row, which sums up a case's flow after its campaign word, and the columns of the table that shows rows.
ghost use Rattle.std.specs.Prelude.{◌≡◌};
ghost use Rattle.campaign_core.specs.CampaignRow.{row_in, columns, heading_of, column_value, is_summed};

use crate::sums::Sums;
use ccp_base::Sequence;
use flow_core::Bare;

/// The numbers of a case's flow after its campaign word.
#[derive(Clone, Copy, PartialEq, Eq)]
pub struct Row {
    /// The number of acknowledgements.
    pub acks: u64,
    /// The number of reports made.
    pub reports: u64,
    /// The number of reports that were asked for while there was no room.
    pub held: u64,
    /// The number of faults.
    pub faults: u64,
    /// The number of epochs, with the opening one.
    pub epochs: u64,
    /// The number of lost packets, as the acknowledgements report them.
    pub lost: u64,
    /// The number of acknowledgements that are timeouts.
    pub timeouts: u64,
    /// The acknowledged bytes.
    pub acked: u64,
    /// The greatest congestion window at the opening or after a letter, in bytes.
    pub peak: u64,
    /// The last congestion window, in bytes.
    pub cwnd: u64,
    /// The time of the last acknowledgement in microseconds, 0 if there is none.
    pub now: u64,
    /// The number of acknowledgements after the last report or change.
    pub tail: u64,
}

impl Row {
    /// The row of a flow, by what its later letters depend on, the sums over its acknowledgements, and its greatest
    /// window, in bytes.
    pub fn of(bare: &Bare, sums: Sums, peak: u64) -> Row
        ensures { result ≡ row_in bare.now.summary sums peak }
    {
        let acks = u64::from(bare.acks());
        Row {
            acks,
            reports: u64::from(bare.told()),
            held: u64::from(bare.held()),
            faults: u64::from(bare.faults()),
            epochs: u64::from(bare.epoch()) + 1,
            lost: sums.lost,
            timeouts: sums.timeouts,
            acked: sums.acked,
            peak,
            cwnd: bare.cwnd(),
            now: bare.time(),
            tail: acks.saturating_sub(bare.first()),
        }
    }
}

/// Rows in the order of their cases.
pub type Rows = Sequence<Row>;

/// A column of a table of rows, named as its field in `Row`.
#[derive(Clone, Copy, PartialEq, Eq)]
pub enum Column {
    Acks,
    Reports,
    Held,
    Faults,
    Epochs,
    Lost,
    Timeouts,
    Acked,
    Peak,
    Cwnd,
    Now,
    Tail,
}

/// All columns, in the order of the table.
const COLUMNS: [Column; 12] = [
    Column::Acks,
    Column::Reports,
    Column::Held,
    Column::Faults,
    Column::Epochs,
    Column::Lost,
    Column::Timeouts,
    Column::Acked,
    Column::Peak,
    Column::Cwnd,
    Column::Now,
    Column::Tail,
];

impl Column {
    /// All columns, in the order of the table.
    pub fn all() -> &'static [Column]
        ensures { result.now ≡ columns }
    {
        &COLUMNS
    }

    /// The word above the column, and before its sum in the total.
    pub fn heading(self) -> &'static str
        ensures { result.now ≡ heading_of self }
    {
        match self {
            Column::Acks => "acks",
            Column::Reports => "reports",
            Column::Held => "held",
            Column::Faults => "faults",
            Column::Epochs => "epochs",
            Column::Lost => "lost",
            Column::Timeouts => "timeouts",
            Column::Acked => "acked",
            Column::Peak => "peak",
            Column::Cwnd => "cwnd",
            Column::Now => "now",
            Column::Tail => "tail",
        }
    }

    /// A row's number in the column.
    pub fn value(self, row: &Row) -> u64
        ensures { result ≡ column_value self row.entry.now }
    {
        match self {
            Column::Acks => row.acks,
            Column::Reports => row.reports,
            Column::Held => row.held,
            Column::Faults => row.faults,
            Column::Epochs => row.epochs,
            Column::Lost => row.lost,
            Column::Timeouts => row.timeouts,
            Column::Acked => row.acked,
            Column::Peak => row.peak,
            Column::Cwnd => row.cwnd,
            Column::Now => row.now,
            Column::Tail => row.tail,
        }
    }

    /// Whether the total has the sum of the column.
    pub fn is_summed(self) -> bool
        ensures { result ≡ is_summed self }
    {
        !matches!(
            self,
            Column::Epochs | Column::Peak | Column::Cwnd | Column::Now | Column::Tail
        )
    }
}
