// Who runs in a slot. All that PD2's order looks at stands in one number, the key, and the smaller key goes first. The rows whose keys lie before the
// first that is left out are picked.
#![tactic(auto)]

mod smallest;

ghost use Rattle.std.specs.Prelude.{◌≡◌, ◌+◌, ◌-◌, ◌*◌, ◌≤◌, ◌<◌, min, MatchOption, true, false, ltb, length, take};
ghost use Rattle.trace.specs.Record.{marked};
ghost use Rattle.facts.specs.Counting.{those};
ghost use Rattle.counts.specs.Limits.{most};
ghost use Rattle.pd2.specs.Order.{rank_of};
ghost use Rattle.counts.specs.Numbers.{numbers_of};
ghost use Rattle.choice.specs.Choice.{says_ready, favours_marked, chosen};
ghost use Rattle.choice.specs.Keys.{behind, DueIs, end_of, KeyIs, key_in, KeysAre, FirstLeft};

use counts::{Quanta, Slot};
use table::Row;
use windows::Due;

// Stands for the key of a row that is not ready: it lies past all others. (An Option for each key would be twice as long, and None goes before every Some.)
const NOT_READY: u64 = 18_446_744_073_709_551_615;

// The rows that are picked of the first n, with k cores free, as marks; `favoured` marks those that go first among full ties. Rows and numbers may be wild:
// no more than 32 rows are looked at and no more than 8 are picked, and a row that cannot be asked is not ready.
pub fn picks(
    rows: [Row; 32],
    quanta: [Quanta; 32],
    favoured: [bool; 32],
    n: usize,
    time: Slot,
    k: u8,
) -> [bool; 32]
    ensures result_len { length result ≡ 32 }
    ensures result_value { marked result ≡ chosen (take n rows) (numbers_of quanta) (favours_marked favoured) time.0 (min k 8) }
{
    let rows = &rows[..n.min(32)];
    let keys = keys_of(rows, &quanta, &favoured, time);
    let first = first_left(&keys, rows.len(), k);
    rows_before(&keys[..rows.len()], first)
}

// The first key that is left out when the k smallest of the first n are taken, at most 8: NOT_READY where none is. (n and k may be wild: the promise says what is answered then.)
pub fn first_left(keys: &[u64; 32], n: usize, k: u8) -> u64
    ensures { FirstLeft (key_in keys.now) (min n 32) (min k 8) result }
{
    let keys = &keys[..n.min(32)];
    left_out(keys, usize::from(k.min(8)))
}

#[tactic(auto, using(crate::proofs::Left::none_left))]
fn left_out(keys: &[u64], k: usize) -> u64
    requires { k ≤ 8 }
    ensures { FirstLeft (key_in keys.now) (length keys.now) k result }
{
    if keys.len() <= k {
        return NOT_READY;
    }
    smallest::smallest(keys, k)[k]
}

// The key of each row, and NOT_READY past the last.
fn keys_of(rows: &[Row], quanta: &[Quanta; 32], favoured: &[bool; 32], time: Slot) -> [u64; 32]
    requires { length rows.now ≤ 32 }
    ensures { KeysAre rows.now (numbers_of quanta.now) (favours_marked favoured.now) time.0 result }
{
    let mut keys = [NOT_READY; 32];
    for (i, row) in rows.iter().enumerate() {
        keys[i] = key(*row, i, quanta[i], favoured[i], time).unwrap_or(NOT_READY);
    }
    keys
}

// The key of a row that is ready.
fn key(row: Row, i: usize, given: Quanta, favoured: bool, slot: Slot) -> Option<u64>
    requires { i < 32 }
    ensures { MatchOption result (says_ready row given.0 slot.0 ≡ false) (KeyIs row i given.0 favoured slot.0) }
{
    let due = due_if_ready(row, given, slot)?;
    let far = how_far_behind(row, given, due);
    Some(packed(due, far, end(favoured, i)))
}

// When the next quantum of a row that is ready is due.
fn due_if_ready(row: Row, given: Quanta, slot: Slot) -> Option<Due>
    ensures { let ready = says_ready row given.0 slot.0 in MatchOption result (ready ≡ false) (λ due. (ready ≡ true) × DueIs row given.0 due.deadline.0 due.bit) }
{
    if !pd2::is_yes(pd2::ready(row, given, slot)) {
        return None;
    }
    windows::next_due(row.cost, row.period, pd2::origin(row), given)
}

// How far the group deadline lies behind the deadline. "If both have b = 1": where the bit is 0 none is asked for.
fn how_far_behind(row: Row, given: Quanta, due: Due) -> u64
    requires { DueIs row given.0 due.deadline.0 due.bit }
    ensures { (result ≡ behind (rank_of row 0 given.0)) × (result < 65_536) }
{
    if due.bit == 0 {
        return 0;
    }
    let group = windows::next_group_deadline(row.cost, row.period, pd2::origin(row), given);
    group.map_or(0, |time| time.since(due.deadline))
}

// How the key of a row ends: a favoured row goes first, then the lower row.
// (Two lines, here and in the other crate: one function for both would be a public promise.)
fn end(favoured: bool, row: usize) -> usize
    requires { row < 32 }
    ensures { (result ≡ end_of favoured row) × (result < 64) }
{
    if favoured { row } else { 32 + row }
}

// Deadline, bit, group deadline and end, in this order: b = 1 goes before b = 0, and the larger group deadline first. (The dispatcher packs the keys of its
// own pass: a function for both would have to test these numbers, which are known there.)
fn packed(due: Due, far: u64, end: usize) -> u64
    requires { (due.deadline.0 < 2_000_000_000_000) × (due.bit ≤ 1) × (far < 65_536) × (end < 64) }
    ensures { (result ≡ ((2 * due.deadline.0 + (1 - due.bit)) * 65_536 + (65_535 - far)) * 64 + end) × (result < most) }
{
    let class = 2 * due.deadline.time() + u64::from(1 - due.bit);
    (class * 65_536 + (65_535 - far)) * 64 + end as u64
}

// The rows whose keys lie before this one.
fn rows_before(keys: &[u64], first: u64) -> [bool; 32]
    requires { length keys.now ≤ 32 }
    ensures { (length result ≡ 32) × (marked result ≡ those (λ i. ltb (key_in keys.now i) first) (length keys.now)) }
{
    let mut marks = [false; 32];
    for (i, key) in keys.iter().enumerate() {
        marks[i] = *key < first;
    }
    marks
}
