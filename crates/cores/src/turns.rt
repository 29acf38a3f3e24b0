// The rows that stay where they ran, and the cores that the others take in turn.
ghost use Rattle.std.specs.Prelude.{◌≡◌, ◌&&◌, not, false, ◌≤◌, ◌<◌, eqb, get_or, take};
ghost use Rattle.table.specs.Limits.{core_limit};
ghost use Rattle.trace.specs.Record.{marked};
ghost use Rattle.cores.specs.Placement.{placement};
ghost use Rattle.cores.specs.Turns.{not_picked, Picks, Keeps, in_turn_by, TakesTurn};

use crate::Placement;

// What stands for a row in place of its own core: it is picked and does not stay,
const NEW: u8 = 32;

// or it is not picked. (Numbers and no enum: one that holds a core takes two bytes, and filling 256 of them costs a slot 340 instructions more.)
const OTHER: u8 = 33;

// For each row number that a byte can say, the free core on which the row ran; and the free cores on which no picked row ran.
#[derive(Clone, Copy)]
pub(crate) struct Kept {
    own: [u8; 256],
    left: [bool; 32],
}

// Goes over the places of the memory from the last to the first, so that the first that lets a row stay is the one that counts.
pub(crate) fn keep(rows: &[u8], free: &[bool; 32], last: &Placement) -> Kept
    ensures { Keeps rows.now free.now last.now result.own result.left }
{
    let mut own = picked(rows);
    let mut left = *free;
    let count = last.count.min(8) as usize;
    for i in (0..count).rev() {
        let row = last.rows[i];
        let core = last.cores[i];
        if may_stay(&own, row, free, core) {
            own[row as usize] = core;
            left[core as usize] = false;
        }
    }
    Kept { own, left }
}

// Every byte has a mark, so that wild row numbers need no test.
fn picked(rows: &[u8]) -> [u8; 256]
    ensures { Picks rows.now result }
{
    let mut own = [OTHER; 256];
    for row in rows {
        own[*row as usize] = NEW;
    }
    own
}

// Whether the row is picked and the core is free, of wild numbers too.
fn may_stay(own: &[u8; 256], row: u8, free: &[bool; 32], core: u8) -> bool
    ensures { (result ≡ not (eqb (get_or own.now row 0) not_picked) && get_or free.now core false) × (row < 256) }
{
    core < 32 && own[row as usize] != OTHER && free[core as usize]
}

// Goes over the rows until eight are placed. Below `next` no core is left any more.
pub(crate) fn in_turn(picked: &[u8], kept: &Kept) -> Placement
    ensures { result ≡ placement (take core_limit picked.now) (take core_limit (in_turn_by kept.now.own (marked kept.now.left) picked.now)) }
{
    let mut rows = [0; 8];
    let mut cores = [0; 8];
    let mut next = 0;
    let count = picked.len().min(8);
    for (i, row) in picked[..count].iter().enumerate() {
        let turn = take_turn(kept.own[*row as usize], &kept.left, next);
        rows[i] = *row;
        cores[i] = turn.core;
        next = turn.after;
    }
    Placement {
        count: count as u8,
        rows,
        cores,
    }
}

// The core that a row gets, and from where on cores are left then.
#[derive(Clone, Copy)]
struct Turn {
    core: u8,
    after: usize,
}

// A row that stays has its own core, and another the lowest that is left.
fn take_turn(own: u8, left: &[bool; 32], next: usize) -> Turn
    requires { next ≤ 32 }
    ensures { TakesTurn own left.now next result.core result.after }
{
    if own < 32 {
        return Turn {
            core: own,
            after: next,
        };
    }
    for core in next..32 {
        if left[core] {
            return Turn {
                core: core as u8,
                after: core + 1,
            };
        }
    }
    // No core is left: 0, and nothing behind it.
    Turn { core: 0, after: 32 }
}
