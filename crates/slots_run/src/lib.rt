// Many slots in one call, for the bench: host/bench links it, by the crate slots_run_c, and counts what a slot costs.
#![tactic(auto)]

ghost use Rattle.std.specs.Prelude.{◌≡◌};
ghost use Rattle.table.specs.Bytes.{reading};
ghost use Rattle.dispatcher.specs.State.{fresh_of, time_of};
ghost use Rattle.slots_run.specs.Slots.{slots_from};

use dispatcher::State;

// So many slots with the first k cores free, from a fresh state on; the time at the end. Each record stands at the front of the lent buffer: the
// caller's own, or the compiler would leave the records out. A slot that is refused leaves state and buffer as they are.
pub fn zb_slots(table: &[u8], k: u8, slots: u64, entry: &mut [u8]) -> u64
    ensures value { result ≡ time_of (slots_from (fresh_of (reading table.now).table) k entry.old slots).state }
    ensures after { entry.new ≡ (slots_from (fresh_of (reading table.now).table) k entry.old slots).bytes }
{
    let free = cores::first(k);
    let mut state = State::fresh(table::read(table).unwrap_or_default());
    for _ in 0..slots {
        state = state.slot(free, entry, 0).state;
    }
    state.time.time()
}
