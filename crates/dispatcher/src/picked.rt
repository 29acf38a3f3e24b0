// What the keys of the ready rows lead to. The rows whose keys lie before the first that is left out are picked: they are recorded and given their quanta. One of the others may be late
// then.
ghost use Rattle.std.specs.Prelude.{◌≡◌, ◌+◌, ◌≤◌, length};
ghost use Rattle.counts.specs.Limits.{time_limit};
ghost use Rattle.counts.specs.Numbers.{numbers_of, counted};
ghost use Rattle.pd2.specs.Choice.{given};
ghost use Rattle.trace.specs.Record.{record_of, with_front};
ghost use Rattle.trace.specs.Records.{names};
ghost use Rattle.dispatcher.specs.Looking.{rows_before, is_due, later_keys, LateRow, GivesTo};

use counts::{Quanta, Slot};

// Writes the record of a slot to the front of the lent part: cores free, rows picked and their numbers.
// (Not `trace::write`, which takes marks by value: a slot would take 300 instructions more.)
pub(crate) fn put_record(part: &mut [u8], k: u8, picked: u8, keys: &[u64], first: u64)
    requires { (picked ≡ length (rows_before keys.now (length keys.now) first)) × (2 + picked ≤ length part.old) }
    ensures { part.new ≡ with_front part.old (record_of k (rows_before keys.now (length keys.now) first)) }
{
    part[0] = k;
    part[1] = picked;
    put_rows(&mut part[2..], keys, first);
}

// Writes the numbers of the picked rows to the front of the part.
fn put_rows(part: &mut [u8], keys: &[u64], first: u64)
    requires { length (rows_before keys.now (length keys.now) first) ≤ length part.old }
    ensures { part.new ≡ with_front part.old (rows_before keys.now (length keys.now) first) }
{
    let mut at: usize = 0;
    for key in keys {
        if *key < first {
            part[at] = (*key % 32) as u8;
            at += 1;
        }
    }
}

// The lowest row that is late after the slot; None where none is: a row that is left out and due at the slot's end. If the first that is left out is due later, so
// are all.
#[tactic(auto, using(crate::proofs::Due::all_later_then))]
pub(crate) fn lowest_late(keys: &[u64], first: u64, slot: Slot) -> Option<u8>
    requires { slot.0 ≤ time_limit }
    ensures { LateRow keys.now (length keys.now) first (later_keys slot.0) result }
{
    let soon = (2 * slot.time() + 4) * 4_194_304;
    if soon <= first {
        return None;
    }
    for key in keys {
        if is_due(first, *key, soon) {
            return Some((*key % 32) as u8);
        }
    }
    None
}

fn is_due(first: u64, key: u64, soon: u64) -> bool
    ensures { result ≡ is_due first soon key }
{
    first <= key && key < soon
}

// One quantum more for each of these rows. The quanta come and go by value: where they are lent, a slot of the full box takes 348 instructions more.
pub(crate) fn give(mut quanta: [Quanta; 32], rows: &[u8]) -> [Quanta; 32]
    requires { GivesTo rows.now quanta }
    ensures { result ≡ counted (given (names rows.now) 0 (numbers_of quanta)) }
{
    for row in rows {
        let i = *row as usize;
        quanta[i] = quanta[i].one_more();
    }
    quanta
}
