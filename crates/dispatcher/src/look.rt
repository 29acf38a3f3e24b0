// One pass over the rows of a state: whether one breaks it, and the keys of those that are ready. A row's share, whether it is ready and when it is due all come from the
// same two products, so that a row is looked at once.
ghost use Rattle.std.specs.Prelude.{◌≡◌, false, cond, ◌+◌, ◌-◌, ◌*◌, ◌≤◌, ◌<◌, ltb, nat_lt, length};
ghost use Rattle.std.specs.List.{list_any};
ghost use Rattle.facts.specs.Rounding.{ceil_div};
ghost use Rattle.counts.specs.Limits.{most, time_limit};
ghost use Rattle.counts.specs.Numbers.{numbers_of};
ghost use Rattle.pd2.specs.Share.{CanBe};
ghost use Rattle.pd2.specs.Ready.{ready};
ghost use Rattle.pd2.specs.Order.{rank_of};
ghost use Rattle.choice.specs.Choice.{favours_marked};
ghost use Rattle.choice.specs.Keys.{front_of, end_of, HasKey};
ghost use Rattle.dispatcher.specs.State.{rows_in, quanta_in, time_of};
ghost use Rattle.dispatcher.specs.Favoured.{favoured_marks};
ghost use Rattle.dispatcher.specs.Usable.{Testable, broken_row};
ghost use Rattle.dispatcher.specs.Looking.{stand_of, LooksAt, EndsAre, CanBeReady, InLimits, ahead_stand};

use crate::{Stand, State};
use counts::{Quanta, Slot};
use table::Row;

// The keys of the ready rows come to the front of the lent array, by rising row number. In a stopped state no row is asked for its share, and no key is looked for.
pub(crate) fn look(state: &State, ready: &mut [u64; 32]) -> Option<usize>
    requires { Testable state.now.table.rows state.now.quanta state.now.table.n (time_of state.now) × (length ready.old ≡ 32) }
    ensures { LooksAt (rows_in state.now) (quanta_in state.now) (favours_marked (favoured_marks state.now)) (time_of state.now) state.now.stopped ready.new result }
{
    let rows = &state.table.rows[..state.table.n as usize];
    if state.stopped {
        return if has_too_many(&state.quanta[..rows.len()], state.time) {
            None
        } else {
            Some(0)
        };
    }
    let favoured = state.favoured();
    let ends = ends(favoured);
    let time = state.time.time();
    let mut found = 0;
    for (i, row) in rows.iter().enumerate() {
        let asked = Asked {
            row: *row,
            given: state.quanta[i].count(),
            time,
        };
        match asked.stand() {
            Stand::Breaks => return None,
            Stand::Waits => {}
            Stand::Ready => {
                ready[found] = asked.key(ends[i]);
                found += 1;
            }
        }
    }
    Some(found)
}

// How the key of each row ends: a favoured row goes first, then the lower row. It is said ahead of the pass for all rows at once, so that a row has one number to load.
fn ends(favoured: [bool; 32]) -> [u8; 32]
    ensures { EndsAre (favours_marked favoured) result }
{
    let mut ends = [0u8; 32];
    for i in 0..32 {
        ends[i] = end(favoured[i], i as u8);
    }
    ends
}

// (Two lines, here and in the other crate: one function for both would be a public promise.)
fn end(favoured: bool, row: u8) -> u8
    requires { row < 32 }
    ensures { result ≡ end_of favoured row }
{
    if favoured { row } else { 32 + row }
}

// Whether a row's quanta exceed the time.
fn has_too_many(quanta: &[Quanta], time: Slot) -> bool
    ensures { result ≡ list_any (λ given. nat_lt time.0 given.0) quanta.now }
{
    quanta.iter().any(|given| time.time() < given.count())
}

// A row, what it has had, and the time at which it is asked.
#[derive(Clone, Copy)]
struct Asked {
    row: Row,
    given: u64,
    time: u64,
}

impl Asked {
    // Where a row stands, by its share and by what it has had, both times the period: so nothing is divided. All sums and products lie far below 64 bits.
    fn stand(self) -> Stand
        requires { CanBe self.row × (self.time ≤ time_limit) }
        ensures { result ≡ stand_of (broken_row false self.time self.row self.given) (ready self.row self.given self.time) }
    {
        let Asked { row, given, time } = self;
        if time < given {
            return Stand::Breaks;
        }
        let phase = row.phase as u64;
        if time < phase {
            return if given == 0 {
                Stand::Waits
            } else {
                Stand::Breaks
            };
        }
        let elapsed = time - phase;
        let cost = row.cost as u64;
        let period = row.period as u64;
        let share = elapsed * cost;
        let had = given * period;
        // a whole quantum is owed
        if had + period <= share {
            return Stand::Breaks;
        }
        // a row that is not ahead of its share is ready, whatever its kind
        if had <= share {
            return Stand::Ready;
        }
        if row.kind == 1 {
            return stands_ahead(cost, period, given, elapsed);
        }
        // with one quantum more it would be within its upper limit at the slot's end
        if had < share + cost {
            return Stand::Ready;
        }
        if had < share + period {
            Stand::Waits
        } else {
            Stand::Breaks
        }
    }

    // The key of a ready row, whose end is known. What its next quantum lacks of its share, divided by what a slot brings, says when it is due, and what is left
    // over gives the bit and the group deadline.
    fn key(self, end: u8) -> u64
        requires { CanBeReady self.row self.given self.time × (end < 64) }
        ensures { (result ≡ front_of (rank_of self.row 0 self.given) * 64 + end) × (result < most) × HasKey (rank_of self.row 0 self.given) }
    {
        let Asked { row, given, time } = self;
        let cost = row.cost as u64;
        let period = row.period as u64;
        let share = (time - row.phase as u64) * cost;
        let lacking = given * period + period - share;
        // the next start: d - b
        let whole = time + lacking / cost;
        let rest = lacking % cost;
        if rest == 0 {
            return packed(2 * whole + 1, 0, end);
        }
        packed(2 * whole + 2, far(cost, period, rest), end)
    }
}

// The same of an early-release row that is ahead of its share, by the cost of the jobs released. Where it has had all of that, it waits: a job that begins now would
// leave it no longer ahead.
fn stands_ahead(cost: u64, period: u64, given: u64, elapsed: u64) -> Stand
    requires { InLimits cost period elapsed }
    ensures { result ≡ ahead_stand cost period given elapsed }
{
    let released = elapsed.div_ceil(period) * cost;
    if given < released {
        return Stand::Ready;
    }
    if released < given {
        return Stand::Breaks;
    }
    Stand::Waits
}

// How far the group deadline lies behind the deadline: the last slot before the deadline is used by `rest` alone, and what is over of it is spread over the slots in which the row
// does not run.
fn far(cost: u64, period: u64, rest: u64) -> u64
    requires { (0 < rest) × (rest < cost) × (cost < period) × (period < 65_536) }
    ensures { (result ≡ cond (ltb (2 * cost) period) 0 (ceil_div (cost - rest) (period - cost))) × (result < 65_536) }
{
    if 2 * cost < period {
        return 0;
    }
    (cost - rest).div_ceil(period - cost)
}

// Deadline and bit in one, group deadline and end: the key.
fn packed(class: u64, far: u64, end: u8) -> u64
    requires { (class < 4_000_000_000_000) × (far < 65_536) × (end < 64) }
    ensures { (result ≡ (class * 65_536 + (65_535 - far)) * 64 + end) × (result < most) }
{
    (class * 65_536 + (65_535 - far)) * 64 + end as u64
}
