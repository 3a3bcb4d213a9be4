//! The line of an acknowledgement, written from its end to its beginning in a buffer. The digits of a number are made
//! from the last one on, so they are written where they stay, and the text takes the whole line in one piece.
ghost use Rattle.std.specs.Prelude.{◌≡◌, ◌≤◌, ◌<◌, ◌+◌, ◌-◌, ◌++◌, decimal, drop};
ghost use Rattle.ccp_base.specs.Limits.{primitive_count};
ghost use Rattle.campaign_report.specs.AcksText.{ack_line};
ghost use Rattle.campaign_report.specs.AckLabels.{item_of, item_size, label_at, label_size, line_size};

use ccp_base::{Ack, primitives};
use itoa::write_digits;

/// The number of `now` among the primitives.
const NOW: usize = 7;

/// The length of a row with a label at its end, in bytes.
const LABEL: usize = 20;

/// The most bytes of an item: a label, and a number of 64 bits.
const ITEM: usize = 40;

/// The most bytes of a line: fifteen items and the end of the line.
pub const LINE: usize = 15 * ITEM + 1;

/// The primitives' labels in the order of their numbers, each at the end of a row: a blank, the name and `=`. All rows
/// have one length, so copying one takes no loop.
static LABELS: [[u8; LABEL]; 15] = [
    *b"        bytes_acked=",
    *b"      packets_acked=",
    *b"   bytes_misordered=",
    *b" packets_misordered=",
    *b"          ecn_bytes=",
    *b"        ecn_packets=",
    *b"   lost_pkts_sample=",
    *b"                now=",
    *b"    bytes_in_flight=",
    *b"  packets_in_flight=",
    *b"      bytes_pending=",
    *b"      rate_incoming=",
    *b"      rate_outgoing=",
    *b"      rtt_sample_us=",
    *b"        was_timeout=",
];

/// The lengths of the labels, in bytes.
static LENGTHS: [usize; 15] = [13, 15, 18, 20, 11, 13, 18, 5, 17, 19, 15, 15, 15, 15, 13];

/// Writes the line of an acknowledgement to the end of the buffer, and returns where it starts.
pub fn write_line(line: &mut [u8; LINE], ack: &Ack) -> usize
    ensures within { result ≤ line_size }
    ensures written { drop result line.new ≡ ack_line ack.entry.now }
{
    let values = primitives(ack);
    let mut number = values.len();
    let mut start = LINE - 1;
    line[start] = b'\n';
    while 0 < number {
        number -= 1;
        start = write_item(line, start, number, values[number]);
    }
    // The first item has no blank before it.
    start + 1
}

/// Writes the item of a primitive, if it is shown, so that it ends at `end`, and returns where it starts.
#[inline(always)]
fn write_item(line: &mut [u8; LINE], end: usize, number: usize, value: u64) -> usize
    requires { (number < primitive_count) × (item_size ≤ end) × (end ≤ line_size) }
    ensures within { (end ≤ result + item_size) × (result ≤ end) }
    ensures written { drop result line.new ≡ item_of number value ++ drop end line.old }
{
    if value == 0 && number != NOW {
        return end;
    }
    write_shown(line, end, number, value)
}

/// Writes the label and the value of a primitive so that they end at `end`, and returns where they start.
#[inline(always)]
fn write_shown(line: &mut [u8; LINE], end: usize, number: usize, value: u64) -> usize
    requires { (number < primitive_count) × (item_size ≤ end) × (end ≤ line_size) }
    ensures within { (end ≤ result + item_size) × (result ≤ end) }
    ensures written { drop result line.new ≡ (label_at number ++ decimal value) ++ drop end line.old }
{
    let start = write_digits(value, line, end);
    write_label(line, start, &LABELS[number], LENGTHS[number])
}

/// Writes the last `count` bytes of a row so that they end at `end`, and returns where they start. The bytes before these
/// are overwritten too.
#[inline(always)]
fn write_label(line: &mut [u8; LINE], end: usize, row: &[u8; LABEL], count: usize) -> usize
    requires { (count ≤ label_size) × (label_size ≤ end) × (end ≤ line_size) }
    ensures start { result + count ≡ end }
    ensures written { drop result line.new ≡ drop (label_size - count) row.now ++ drop end line.old }
{
    line[end - LABEL..end].copy_from_slice(row);
    end - count
}
