// What the walk keeps of the rows of the table. For its next subtask i each row has: a start, the first slot in which it may be given a
// quantum; a due time, by which it must have been, f + (i·p + e - 1)/e; and a rest, what that division leaves over. One quantum more moves
// all three on by a single division, so no window is asked for again.
//
// Times have 32 bits here, half of what they have elsewhere, so that more of them are compared at once where lateness is judged. That is
// enough, wherever the time limit lies: a trace has at most 1,000,000,000 slots, a quantum is only given from its row's start on, and from
// there to the row's next deadline it is less than three times 2 to the 16.
ghost use Rattle.std.specs.Prelude.{◌≡◌, ℕ, ◌+◌, ◌≤◌, ◌<◌, leb, length, get_or, count_by, position, take};
ghost use Rattle.pd2.specs.Share.{CanBe};
ghost use Rattle.checker.specs.Causes.{slot_limit};
ghost use Rattle.checker.specs.Passes.{first_allowed};
ghost use Rattle.checker.specs.Walking.{CanCheck, IsKept, kept_at, with_kept, NothingGiven, CanStep, CanGive, Gave, IsLowest};

use crate::Finding;
use counts::Slot;
use table::{Row, Table};

// When a place that holds no row is due: past the end of every trace, so that no such place is counted among the late ones.
// (A number and no option, so that due times stay plain numbers that are compared at once.)
const NEVER: u32 = 4_294_967_295;

// What is kept of one row.
#[derive(Clone, Copy)]
struct Kept {
    start: u32,
    rest: u32,
    due: u32,
}

impl Kept {
    // Of a row that has been given nothing.
    fn before_first(row: Row) -> Kept
        requires { CanBe row }
        ensures { IsKept row 0 result }
    {
        let start = row.phase as u32;
        let cost = row.cost as u32;
        let period = row.period as u32;
        let whole = period + (cost - 1);
        let rest = whole % cost;
        let due = start + whole / cost;
        Kept { start, rest, due }
    }

    // Of a row that is given a quantum: what was left over is divided on, with one period more.
    fn one_more(self, row: Row) -> Kept
        requires { CanStep row self }
        ensures { (q : ℕ) → IsKept row q self → IsKept row (q + 1) result }
    {
        let start = self.next_start(row);
        let cost = row.cost as u32;
        let period = row.period as u32;
        let whole = self.rest + period;
        let rest = whole % cost;
        let due = self.due + whole / cost;
        Kept { start, rest, due }
    }

    // When the row's subtask after this one may be given.
    fn next_start(self, row: Row) -> u32
        requires { CanStep row self }
        ensures { (q : ℕ) → IsKept row q self → result ≡ first_allowed row (q + 1 + 1) }
    {
        // Early release: from its job's start on. The last subtask of a job is the one that is due where the job ends, and there the next job starts.
        if row.kind == 1 {
            let end = self.start + row.period as u32;
            if self.due == end {
                return end;
            }
            return self.start;
        }
        // Plain: from the window's start on, which is d - b. The bit is 0 where all but one of e is left over.
        if self.rest + 1 == row.cost as u32 {
            return self.due;
        }
        self.due - 1
    }
}

// What is kept of all rows, each kind of number in an array of its own, so that many due times are compared at once. Places past the rows
// are due never.
#[derive(Drop)]
pub(crate) struct Walk {
    starts: [u32; 32],
    rests: [u32; 32],
    dues: [u32; 32],
}

impl Walk {
    // Before slot 0 nothing has been given.
    pub(crate) fn begin(table: &Table) -> Walk
        requires { CanCheck table.now }
        ensures { NothingGiven table.now result }
    {
        let mut walk = Walk {
            starts: [0; 32],
            rests: [0; 32],
            dues: [NEVER; 32],
        };
        let rows = &table.rows[..table.n as usize];
        for (i, row) in rows.iter().enumerate() {
            walk.keep(i, Kept::before_first(*row));
        }
        walk
    }

    // One quantum more for each of these rows, up to the first that was not ready. They rise, so the first is the lowest.
    pub(crate) fn give(&mut self, table: &Table, rows: &[u8], slot: Slot) -> Result<(), Finding>
        requires { CanGive table.now rows.now slot.0 self.old }
        ensures { Gave table.now rows.now slot self.old result self.new }
    {
        let time = slot.time() as u32;
        for &row in rows {
            let i = row as usize;
            let kept = self.kept(i);
            if time < kept.start {
                return Err(Finding::Early { row, slot });
            }
            self.keep(i, kept.one_more(table.rows[i]));
        }
        Ok(())
    }

    // The lowest of n rows that is late at this time, its next quantum due. Mostly none is, and that is seen by counting through all places
    // with no way out between, which compares several at once; the lowest is looked for only if there is one.
    pub(crate) fn lowest_late(&self, n: usize, time: Slot) -> Option<usize>
        requires { (n ≤ 32) × (time.0 ≤ slot_limit) }
        ensures { IsLowest (λ i. leb (get_or self.now.dues i 0) time.0) n result }
    {
        let end = time.time() as u32;
        if how_many_due(&self.dues, end) == 0 {
            return None;
        }
        self.first_due(n, end)
    }

    // The first of n places that has a time up to this one.
    fn first_due(&self, n: usize, end: u32) -> Option<usize>
        requires { n ≤ 32 }
        ensures { result ≡ position (λ due. leb due end) (take n self.now.dues) }
    {
        self.dues[..n].iter().position(|due| *due <= end)
    }

    fn kept(&self, i: usize) -> Kept
        requires { i < 32 }
        ensures { result ≡ kept_at self.now i }
    {
        Kept {
            start: self.starts[i],
            rest: self.rests[i],
            due: self.dues[i],
        }
    }

    fn keep(&mut self, i: usize, kept: Kept)
        requires { i < 32 }
        ensures { self.new ≡ with_kept self.old i kept }
    {
        self.starts[i] = kept.start;
        self.rests[i] = kept.rest;
        self.dues[i] = kept.due;
    }
}

// How many of these times are up to this one: a sum, for which several are compared at once.
fn how_many_due(dues: &[u32], end: u32) -> u32
    requires { length dues.now ≤ 32 }
    ensures { result ≡ count_by (λ due. leb due end) dues.now }
{
    dues.iter().map(|due| (*due <= end) as u32).sum()
}
