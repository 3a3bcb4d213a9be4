//! A trace's chances to send a packet: when each comes, and which is the first at or after a time.
ghost use Rattle.std.specs.Prelude.{IsTrue, ◌≡◌, ◌+◌, ◌-◌, ◌*◌, ◌%◌, ◌^◌, ◌<◌, ◌≤◌, ℕ, length, slice_index};
ghost use Rattle.link_model.specs.Traces.{IsTrace, period, search_reach};
ghost use Rattle.link_model.specs.Chances.{chance_number, IsFirstChance, chance_time, first_chance};
ghost use Rattle.link_model.specs.Lines.{IsComing};

use crate::trace::Trace;

/// A chance of a trace: a turn of the trace, and a place in it. Both count from 0.
#[derive(Clone, Copy)]
pub struct Chance {
    pub turn: u64,
    pub place: usize,
}

/// A chance, and when it comes.
#[derive(Clone, Copy)]
pub(crate) struct Coming {
    pub(crate) chance: Chance,
    /// In microseconds.
    pub(crate) at: u64,
}

impl Trace {
    /// When a chance comes, in microseconds.
    #[inline]
    pub fn time_of(&self, chance: Chance) -> u64
        requires place { chance.place < length self.now }
        requires fits { chance_time self.now (chance_number self.now chance) < 2 ^ 64 }
        ensures time { result ≡ chance_time self.now (chance_number self.now chance) }
        ensures valid { IsTrace self.now }
    {
        time_of(self.as_slice(), chance)
    }

    /// The chance after `chance`.
    #[inline]
    pub fn after(&self, chance: Chance) -> Chance
        requires place { chance.place < length self.now }
        requires fits { chance.turn + 1 < 2 ^ 64 }
        ensures number { chance_number self.now result ≡ chance_number self.now chance + 1 }
        ensures place { result.place < length self.now }
    {
        after(self.as_slice(), chance)
    }

    /// The chance after `coming`, with its time.
    #[inline(always)]
    pub(crate) fn next_chance(&self, coming: Coming) -> Coming
        requires coming { IsComing self.now coming }
        requires fits { chance_time self.now (chance_number self.now coming.chance + 1) < 2 ^ 64 }
        ensures coming { IsComing self.now result }
        ensures number { chance_number self.now result.chance ≡ chance_number self.now coming.chance + 1 }
    {
        next_chance(self.as_slice(), coming)
    }

    /// The first chance at or after `now`, in microseconds, if `coming` is a chance before `now`. Looks at the chance
    /// after `coming` before it searches the trace.
    #[inline(always)]
    pub(crate) fn first_due(&self, coming: Coming, now: u64) -> Coming
        requires valid { IsTrace self.now }
        requires coming { IsComing self.now coming }
        requires early { coming.at < now }
        requires time { now + search_reach < 2 ^ 64 }
        ensures coming { IsComing self.now result }
        ensures first { IsFirstChance self.now now 0 (chance_number self.now result.chance) }
    {
        let after = self.next_chance(coming);
        if after.at >= now {
            return after;
        }
        self.search(now, coming.chance.place)
    }

    /// The first chance at or after `now`, in microseconds. Looks at the place `near` first.
    #[inline(never)]
    fn search(&self, now: u64, near: usize) -> Coming
        requires valid { IsTrace self.now }
        requires time { now + search_reach < 2 ^ 64 }
        ensures coming { IsComing self.now result }
        ensures first { IsFirstChance self.now now 0 (chance_number self.now result.chance) }
    {
        let chance = self.find_first_chance(now, near);
        let at = self.time_of(chance);
        Coming { chance, at }
    }

    /// How many chances there are from `from` on before `to`, which isn't before it.
    #[inline]
    pub(crate) fn count_between(&self, from: Chance, to: Chance) -> u64
        requires from { from.place < length self.now }
        requires to { to.place < length self.now }
        requires order { chance_number self.now from ≤ chance_number self.now to }
        requires few { chance_number self.now to - chance_number self.now from < 2 ^ 64 }
        ensures { result ≡ chance_number self.now to - chance_number self.now from }
    {
        count_between(self.as_slice(), from, to)
    }

    /// The first chance at or after `at`, in microseconds. Goes straight to the turn of the trace in which that chance
    /// comes, and there looks at the place `near` first. Any number may be `near`.
    #[inline(always)]
    pub(crate) fn find_first_chance(&self, at: u64, near: usize) -> Chance
        requires { at + 1000 < 2 ^ 64 }
        ensures number { chance_number self.now result ≡ first_chance self.now at 0 }
        ensures first { IsFirstChance self.now at 0 (chance_number self.now result) }
        ensures place { result.place < length self.now }
        ensures turn { result.turn ≤ at }
    {
        find_first_chance(self.as_slice(), at, near)
    }

    /// The definition's `first_chance` is the first chance at or after a time, from every number on.
    pub fn first_chance_law(&self)
        ensures { (at start : ℕ) → IsFirstChance self.now at start (first_chance self.now at start) }
    {
        let _ = self.as_slice();
    }
}

/// The last time of a trace, in milliseconds.
#[inline]
fn period(times: &[u32]) -> u64
    requires { IsTrace times.now }
    ensures { result ≡ period times.now }
{
    u64::from(times[times.len() - 1])
}

/// When a chance of a trace comes, in microseconds.
#[inline]
fn time_of(times: &[u32], chance: Chance) -> u64
    requires valid { IsTrace times.now }
    requires place { chance.place < length times.now }
    requires fits { chance_time times.now (chance_number times.now chance) < 2 ^ 64 }
    ensures { result ≡ chance_time times.now (chance_number times.now chance) }
{
    1000 * (period(times) * chance.turn + u64::from(times[chance.place]))
}

/// The chance after `chance`.
#[inline]
fn after(times: &[u32], chance: Chance) -> Chance
    requires place { chance.place < length times.now }
    requires fits { chance.turn + 1 < 2 ^ 64 }
    ensures number { chance_number times.now result ≡ chance_number times.now chance + 1 }
    ensures place { result.place < length times.now }
{
    if chance.place + 1 < times.len() {
        return Chance {
            turn: chance.turn,
            place: chance.place + 1,
        };
    }
    Chance {
        turn: chance.turn + 1,
        place: 0,
    }
}

/// The chance after `coming`, with its time.
#[inline(always)]
fn next_chance(times: &[u32], coming: Coming) -> Coming
    requires valid { IsTrace times.now }
    requires coming { IsComing times.now coming }
    requires fits { chance_time times.now (chance_number times.now coming.chance + 1) < 2 ^ 64 }
    ensures coming { IsComing times.now result }
    ensures number { chance_number times.now result.chance ≡ chance_number times.now coming.chance + 1 }
{
    let turn = coming.chance.turn;
    let place = coming.chance.place + 1;
    if place < times.len() {
        let gap = times[place] - times[coming.chance.place];
        return Coming {
            chance: Chance { turn, place },
            at: coming.at + 1000 * u64::from(gap),
        };
    }
    Coming {
        chance: Chance {
            turn: turn + 1,
            place: 0,
        },
        at: coming.at + 1000 * u64::from(times[0]),
    }
}

/// How many chances there are from `from` on before `to`, which isn't before it.
#[inline]
fn count_between(times: &[u32], from: Chance, to: Chance) -> u64
    requires from { from.place < length times.now }
    requires to { to.place < length times.now }
    requires order { chance_number times.now from ≤ chance_number times.now to }
    requires few { chance_number times.now to - chance_number times.now from < 2 ^ 64 }
    ensures { result ≡ chance_number times.now to - chance_number times.now from }
{
    // with the chances of its turn that come before `from`, the count may take more than 64 bits
    let turns = u128::from(to.turn - from.turn) * times.len() as u128;
    let count = turns + to.place as u128 - from.place as u128;
    count as u64
}

/// The first chance of a trace at or after `at`, in microseconds. Goes straight to the turn of the trace in which that
/// chance comes, and there looks at the place `near` first. Any number may be `near`.
#[inline(always)]
fn find_first_chance(times: &[u32], at: u64, near: usize) -> Chance
    requires valid { IsTrace times.now }
    requires fits { at + 1000 < 2 ^ 64 }
    ensures number { chance_number times.now result ≡ first_chance times.now at 0 }
    ensures place { result.place < length times.now }
    ensures turn { result.turn ≤ at }
{
    let period = period(times);
    let millis = (at + 999) / 1000;
    let turn = millis.saturating_sub(1) / period;
    let left = millis - period * turn;
    let place = place_from(times, left, near);
    Chance { turn, place }
}

/// The place of the first time that is at least `millis`, in milliseconds, or the number of times. Searches only if
/// this is neither the place `near` nor the one after it.
#[inline]
fn place_from(times: &[u32], millis: u64, near: usize) -> usize
    requires { IsTrace times.now }
    ensures within { result ≤ length times.now }
    ensures before { (i : ℕ) → i < result → slice_index times.now i < millis }
    ensures from { result < length times.now → millis ≤ slice_index times.now result }
{
    if is_place(times, millis, near) {
        return near;
    }
    let after = near.saturating_add(1);
    if is_place(times, millis, after) {
        return after;
    }
    searched_place(times, millis)
}

/// Whether `place` is that of the first time that is at least `millis`, in milliseconds.
#[inline]
fn is_place(times: &[u32], millis: u64, place: usize) -> bool
    requires { IsTrace times.now }
    ensures within { IsTrue result → place ≤ length times.now }
    ensures before { IsTrue result → (i : ℕ) → i < place → slice_index times.now i < millis }
    ensures from { IsTrue result → millis ≤ slice_index times.now place }
{
    let Some(time) = times.get(place) else {
        return false;
    };
    if u64::from(*time) < millis {
        return false;
    }
    place == 0 || u64::from(times[place - 1]) < millis
}

/// Searches for the place of the first time that is at least `millis`, in milliseconds, or gives the number of times.
// A function of its own: `place_from` rarely calls it, and is inlined without it.
#[inline(never)]
fn searched_place(times: &[u32], millis: u64) -> usize
    requires { IsTrace times.now }
    ensures within { result ≤ length times.now }
    ensures before { (i : ℕ) → i < result → slice_index times.now i < millis }
    ensures from { result < length times.now → millis ≤ slice_index times.now result }
{
    times.partition_point(|time| u64::from(*time) < millis)
}
