//! The rules of a link: windows in packets, marks, losses and acknowledgements, and the law of its packets.
ghost use Rattle.std.specs.Prelude.{◌≡◌, ℕ, ◌<◌, ◌≤◌, List, length, slice_index};
ghost use Rattle.std.specs.List.Sorted.{IsStrictlyIncreasing};
ghost use Rattle.ccp_base.specs.Limits.{most_flight, most_segment_bytes};
ghost use Rattle.link_model.specs.Link.{allowance_of, allowance, byte_rate, is_marked, is_listed, number_if, arrival_ack_of, timeout_ack_of, timeout_ack, run_of};
ghost use Rattle.link_model.specs.Standing.{packet_ack};
ghost use Rattle.link_model.specs.Rated.{rated};
ghost use Rattle.link_model.specs.Lines.{least_noticed};
ghost use Rattle.link_model.specs.Horizon.{loss_at};
ghost use Rattle.link_model.specs.Counts.{AreOnce, AddUp, most_packets};
ghost use Rattle.link_model.specs.Runs.{AreInOrder, AreSampled, AllFindRoom};

use crate::arrival::Arrival;
use crate::flight::PACKETS;
use crate::link_case::LinkCase;
use crate::past::Past;
use ccp_base::Ack;

impl LinkCase {
    /// How many packets a window of `window` bytes allows to be in flight: at least 1 and at most 4,096.
    #[inline]
    pub(crate) fn allowance(&self, window: u64) -> u64
        ensures value { result ≡ allowance self.now window }
        ensures within { result ≤ most_flight }
    {
        allowance(self.mss, window)
    }

    /// Whether a packet is marked if `queued` packets wait when it is sent.
    #[inline]
    pub(crate) fn marks(&self, queued: u128) -> bool
        ensures { result ≡ is_marked self.now.mark queued }
    {
        is_marked(self.mark, queued)
    }

    /// The place of the first listed loss that isn't below `number`. The first `passed` losses must be below it.
    #[inline]
    pub(crate) fn next_loss(&self, passed: usize, number: u64) -> usize
        requires { (i : ℕ) → i < passed → slice_index self.now.losses i < number }
        ensures before { (i : ℕ) → i < result → slice_index self.now.losses i < number }
        ensures from { result < length self.now.losses → number ≤ slice_index self.now.losses result }
    {
        next_loss(self.losses.as_slice(), passed, number)
    }

    /// The number of the listed loss at a place, or 2^64 - 1 if there is none.
    #[inline]
    pub(crate) fn loss_at(&self, place: usize) -> u64
        ensures { result ≡ loss_at self.now.losses place }
    {
        match self.losses.as_slice().get(place) {
            Some(loss) => u64::from(*loss),
            None => u64::MAX,
        }
    }

    /// How many packets must wait at least for the next one to be lost or marked.
    #[inline]
    pub(crate) fn least_noticed(&self) -> u64
        ensures value { result ≡ least_noticed self.now.queue self.now.mark }
        ensures within { result ≤ most_flight }
    {
        match self.mark {
            Some(mark) => u64::from(self.queue.min(mark)),
            None => u64::from(self.queue),
        }
    }

    /// Whether `number` is listed. The losses before `place` must be below it, and the one there must not be.
    #[inline]
    pub(crate) fn loses(&self, place: usize, number: u64) -> bool
        requires before { (i : ℕ) → i < place → slice_index self.now.losses i < number }
        requires from { place < length self.now.losses → number ≤ slice_index self.now.losses place }
        ensures { result ≡ is_listed number self.now.losses }
    {
        is_at(self.losses.as_slice(), place, number)
    }

    /// The acknowledgement of `arrival` after `past`, if `stay` packets stay in flight and `acked` packets were
    /// acknowledged, this one counted, of `sent` that were sent. Its two rates are computed only if `rates` is true,
    /// and are 0 otherwise.
    #[inline]
    pub(crate) fn arrival_ack(
        &self,
        arrival: Arrival,
        past: Past,
        stay: u64,
        acked: u64,
        sent: u64,
        rates: bool,
    ) -> Ack
        requires order { arrival.sent_at ≤ arrival.at }
        requires stay { stay ≤ most_flight }
        requires acked { acked ≤ most_packets }
        requires sent { sent ≤ most_packets }
        ensures { result ≡ rated rates (packet_ack self.now arrival past stay acked sent) }
    {
        arrival_ack(self.mss, arrival, past, stay, acked, sent, rates)
    }

    /// The acknowledgement of a timeout at `now`, in microseconds, after `past`, if all `lost` packets in flight are
    /// lost and `acked` packets were acknowledged of `sent` that were sent. Its two rates are computed only if `rates`
    /// is true, and are 0 otherwise.
    pub(crate) fn timeout_ack(
        &self,
        now: u64,
        past: Past,
        lost: u64,
        acked: u64,
        sent: u64,
        rates: bool,
    ) -> Ack
        requires acked { acked ≤ most_packets }
        requires sent { sent ≤ most_packets }
        ensures { result ≡ rated rates (timeout_ack self.now now past lost 0 acked sent) }
    {
        timeout_ack(self.mss, now, past, lost, acked, sent, rates)
    }

    /// What holds after every list of windows: no chance serves two packets, and each packet that was sent was
    /// acknowledged, left as lost, or is in flight.
    pub fn packets_law(&self)
        ensures once { (windows : List ℕ) → AreOnce (run_of self.now windows) }
        ensures sum { (windows : List ℕ) → AddUp (run_of self.now windows) }
    {
        let _ = self.trace.as_slice();
    }

    /// What holds of the times of the acknowledgements after every list of windows: none comes before the one that was
    /// given before it. The round-trip sample of a packet is at least the delay, and a timeout has the sample of the
    /// acknowledgement before it, 0 if there is none.
    pub fn order_law(&self)
        ensures order { (windows : List ℕ) → AreInOrder (run_of self.now windows).givens }
        ensures samples { (windows : List ℕ) → AreSampled self.now.delay_us (run_of self.now windows).givens }
    {
        let _ = self.trace.as_slice();
    }

    /// What holds of the queue after every list of windows: when a packet that isn't lost was sent, fewer packets waited
    /// than the queue holds.
    pub fn queue_law(&self)
        ensures { (windows : List ℕ) → AllFindRoom self.now (run_of self.now windows).packets }
    {
        let _ = self.trace.as_slice();
    }
}

/// How many packets of `mss` bytes a window of `window` bytes allows to be in flight: at least 1 and at most 4,096.
#[inline]
pub fn allowance(mss: u32, window: u64) -> u64
    requires { 1 ≤ mss }
    ensures value { result ≡ allowance_of mss window }
    ensures within { result ≤ most_flight }
{
    (window / u64::from(mss)).max(1).min(PACKETS as u64)
}

/// The rate in bytes a second of `packets` packets of `mss` bytes from time 0 to `now`, in microseconds; 0 at time 0.
#[inline]
pub fn byte_rate(mss: u32, packets: u64, now: u64) -> u64
    requires mss { mss ≤ most_segment_bytes }
    requires packets { packets ≤ most_packets }
    ensures { result ≡ byte_rate mss packets now }
{
    if now == 0 {
        return 0;
    }
    u64::from(mss) * packets * 1_000_000 / now
}

/// As `byte_rate` if `rates` is true, and 0 otherwise, without a division.
#[inline]
fn rate_if(rates: bool, mss: u32, packets: u64, now: u64) -> u64
    requires mss { mss ≤ most_segment_bytes }
    requires packets { packets ≤ most_packets }
    ensures { result ≡ number_if rates (byte_rate mss packets now) }
{
    if rates {
        byte_rate(mss, packets, now)
    } else {
        0
    }
}

/// Whether a packet is marked if `queued` packets wait when it is sent: at least `mark` of them mean a mark.
#[inline]
pub fn is_marked(mark: Option<u32>, queued: u128) -> bool
    ensures { result ≡ is_marked mark queued }
{
    match mark {
        Some(mark) => queued >= u128::from(mark),
        None => false,
    }
}

/// The acknowledgement of `arrival`, a packet of `mss` bytes, after `past`, if `stay` packets stay in flight and
/// `acked` packets were acknowledged, this one counted, of `sent` that were sent. Its two rates are computed only if
/// `rates` is true, and are 0 otherwise.
#[inline]
pub fn arrival_ack(
    mss: u32,
    arrival: Arrival,
    past: Past,
    stay: u64,
    acked: u64,
    sent: u64,
    rates: bool,
) -> Ack
    requires mss { mss ≤ most_segment_bytes }
    requires order { arrival.sent_at ≤ arrival.at }
    requires stay { stay ≤ most_flight }
    requires acked { acked ≤ most_packets }
    requires sent { sent ≤ most_packets }
    ensures { result ≡ rated rates
        (arrival_ack_of mss arrival.sent_at arrival.at arrival.marked past arrival.lost stay acked sent) }
{
    let _ = past;
    let bytes = u64::from(mss);
    Ack {
        bytes_acked: bytes,
        packets_acked: 1,
        bytes_misordered: number_if(arrival.lost > 0, bytes),
        packets_misordered: number_if(arrival.lost > 0, 1),
        ecn_bytes: number_if(arrival.marked, bytes),
        ecn_packets: number_if(arrival.marked, 1),
        lost_pkts_sample: arrival.lost,
        now: arrival.at,
        bytes_in_flight: bytes * stay,
        packets_in_flight: stay,
        bytes_pending: 0,
        rate_incoming: rate_if(rates, mss, acked, arrival.at),
        rate_outgoing: rate_if(rates, mss, sent, arrival.at),
        rtt_sample_us: arrival.at - arrival.sent_at,
        was_timeout: false,
    }
}

/// The acknowledgement of a timeout at `now`, in microseconds, after `past`, if all `lost` packets in flight, of `mss`
/// bytes each, are lost and `acked` packets were acknowledged of `sent` that were sent. Its two rates are computed only
/// if `rates` is true, and are 0 otherwise.
pub fn timeout_ack(
    mss: u32,
    now: u64,
    past: Past,
    lost: u64,
    acked: u64,
    sent: u64,
    rates: bool,
) -> Ack
    requires mss { mss ≤ most_segment_bytes }
    requires acked { acked ≤ most_packets }
    requires sent { sent ≤ most_packets }
    ensures { result ≡ rated rates (timeout_ack_of mss now past lost 0 acked sent) }
{
    Ack {
        lost_pkts_sample: lost,
        now,
        rate_incoming: rate_if(rates, mss, acked, now),
        rate_outgoing: rate_if(rates, mss, sent, now),
        rtt_sample_us: past.rtt_sample_us,
        was_timeout: true,
        ..Ack::default()
    }
}

/// The place of the first listed loss that isn't below `number`. The first `passed` losses must be below it.
#[inline]
pub fn next_loss(losses: &[u32], passed: usize, number: u64) -> usize
    requires { (i : ℕ) → i < passed → slice_index losses.now i < number }
    ensures before { (i : ℕ) → i < result → slice_index losses.now i < number }
    ensures from { result < length losses.now → number ≤ slice_index losses.now result }
{
    let mut place = passed;
    while let Some(loss) = losses.get(place) {
        if u64::from(*loss) >= number {
            return place;
        }
        place += 1;
    }
    place
}

/// Whether `number` is listed. The losses before `place` must be below it, and the one there must not be.
#[inline]
pub fn is_at(losses: &[u32], place: usize, number: u64) -> bool
    requires rises { IsStrictlyIncreasing losses.now }
    requires before { (i : ℕ) → i < place → slice_index losses.now i < number }
    requires from { place < length losses.now → number ≤ slice_index losses.now place }
    ensures { result ≡ is_listed number losses.now }
{
    if place >= losses.len() {
        return false;
    }
    u64::from(losses[place]) == number
}

/// `number` if `truth` holds, and 0 otherwise.
#[inline]
fn number_if(truth: bool, number: u64) -> u64
    ensures { result ≡ number_if truth number }
{
    if truth { number } else { 0 }
}
