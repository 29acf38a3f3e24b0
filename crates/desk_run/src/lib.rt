// What the desk's command for people links, by the crate desk_run_c: many slots in one call, each with its own number of free cores, and the trace check
// with the row and the time that it names.
#![tactic(auto)]

mod entry;
mod naming;

ghost use Rattle.std.specs.Prelude.{◌≡◌};
ghost use Rattle.dispatcher.specs.State.{time_of};
ghost use Rattle.checker.specs.Check.{check_of};
ghost use Rattle.desk_run.specs.Run.{ran};
ghost use Rattle.desk_run.specs.Judged.{place_of};

use dispatcher::State;

// So many bytes has an entry.
const ENTRY_LENGTH: usize = 20;

// As many slots as the list has numbers and the buffer has room for, from a fresh state over the table on, entry i with the first list[i] cores free; the
// time at the end. Each slot's entry stands behind the one before, and what is past the last entry stays as it was. A slot that is refused leaves the
// state as it is, and the next entry is tried from there.
pub fn zb_run(table: &[u8], list: &[u8], entries: &mut [u8]) -> u64
    ensures value { result ≡ time_of (ran table.now list.now entries.old).state }
    ensures entries_after { entries.new ≡ (ran table.now list.now entries.old).bytes }
{
    let mut state = State::fresh(table::read(table).unwrap_or_default());
    let slots = list.len().min(entries.len() / ENTRY_LENGTH);
    for done in 0..slots {
        state = entry::run_slot(state, list[done], entries, ENTRY_LENGTH * done);
    }
    state.time.time()
}

// The trace check's number, with the row and the time that it names in the lent buffer: the row at place 0, the time in the eight bytes from place 1 on. What does
// not fit is not written.
pub fn zb_judge(table: &[u8], trace: &[u8], place: &mut [u8]) -> u8
    ensures value { result ≡ (check_of table.now trace.now).number }
    ensures place_after { place.new ≡ place_of (check_of table.now trace.now) place.old }
{
    let answer = checker::check(table, trace);
    let (row, slot) = naming::named(answer);
    let time = slot.time();
    fields::put(place, 0, 1, row as u64);
    fields::put(place, 1, 8, time);
    checker::number(answer)
}
