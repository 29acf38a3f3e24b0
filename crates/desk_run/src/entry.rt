// One slot, and its entry of 20 bytes in the lent buffer: the record, the cores of the picked rows, the number and the row of the answer.
ghost use Rattle.std.specs.Prelude.{◌≡◌, ◌+◌, ◌≤◌, length};
ghost use mathlib.Core.List.{◌++◌, flat_map};
ghost use Rattle.std.proofs.lemmas.List.Edits.{sets};
ghost use Rattle.fields.specs.Fields.{bytes_of};
ghost use Rattle.cores.specs.Sets.{first_cores};
ghost use Rattle.dispatcher.specs.Slot.{slot_of};
ghost use Rattle.desk_run.specs.Run.{entered};

use dispatcher::{State, Told};

// Runs a slot with the first k cores free, its entry at place `at`; the state after it.
// (The entry's place, and no part of the buffer: the promise is of the whole buffer.)
pub(crate) fn run_slot(state: State, k: u8, entries: &mut [u8], at: usize) -> State
    requires { at + 20 ≤ length entries.old }
    ensures value { result ≡ (slot_of state (first_cores k) entries.old at).state }
    ensures entries_after { entries.new ≡ entered (slot_of state (first_cores k) entries.old at) at }
{
    let outcome = state.slot(cores::first(k), entries, at);
    let told = Told::of(outcome.answer);
    put_reply(entries, at + 10, &outcome.placed.cores, told);
    outcome.state
}

// Writes what stands behind the record: eight cores, the number and the row.
fn put_reply(entries: &mut [u8], at: usize, cores: &[u8; 8], told: Told)
    requires { at + 10 ≤ length entries.old }
    ensures { entries.new ≡ sets entries.old at (flat_map (bytes_of 1) cores.now ++ bytes_of 1 told.number ++ bytes_of 1 told.row) }
{
    put_cores(entries, at, cores);
    fields::put(entries, at + 8, 1, told.number as u64);
    fields::put(entries, at + 9, 1, told.row as u64);
}

// Writes the eight cores. (`table` and `values` have as few lines of their own: for one of all it would be a public promise.)
fn put_cores(entries: &mut [u8], at: usize, cores: &[u8; 8])
    requires { at + 8 ≤ length entries.old }
    ensures { entries.new ≡ sets entries.old at (flat_map (bytes_of 1) cores.now) }
{
    for (i, core) in cores.iter().enumerate() {
        fields::put(entries, at + i, 1, *core as u64);
    }
}
