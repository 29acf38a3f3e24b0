// A row and the quanta that it has been given: what is asked of its next window.
ghost use Rattle.std.specs.Prelude.{◌≡◌, ◌<◌, ◌≤◌, length};
ghost use Rattle.pd2.specs.Near.{HasWindow};
ghost use Rattle.pd2.specs.Order.{rank_of};
ghost use Rattle.pd2.specs.Ready.{ready};
ghost use Rattle.pd2.specs.Choice.{row_at, quanta_at};
ghost use Rattle.windows.specs.Next.{reach};
ghost use Rattle.dispatcher.specs.State.{rows_in, quanta_in};
ghost use Rattle.dispatcher.specs.Usable.{UsableState};
ghost use Rattle.why.specs.Why.{ready_from};

use counts::{Quanta, Slot};
use dispatcher::State;
use table::Row;
use windows::Due;

// A row that can be, so that it has a next window and each question about it is answered.
#[derive(Clone, Copy)]
pub(crate) struct Next {
    row: Row,
    given: Quanta,
    ghost has_window: { HasWindow row given.0 },
}

impl Next {
    // A row of a state.
    pub(crate) fn of(state: &State, row: usize) -> Next
        requires { UsableState state.now × (row < length (rows_in state.now)) }
        ensures { (result.row ≡ row_at (rows_in state.now) row) × (result.given.0 ≡ quanta_at (quanta_in state.now) row) }
    {
        Next {
            row: state.table.rows[row],
            given: state.quanta[row],
        }
    }

    // Whether the row is ready in this slot.
    pub(crate) fn is_ready(self, slot: Slot) -> bool
        requires { slot.0 ≤ reach }
        ensures { result ≡ ready self.row self.given.0 slot.0 }
    {
        pd2::is_yes(pd2::ready(self.row, self.given, slot))
    }

    // The first slot in which the row is ready: the start of its next window, or of the job that holds it if the row is early release.
    #[tactic(auto, using(pd2::proofs::Verdicts::moment_is_said, crate::proofs::Windows::early_release_from, crate::proofs::Windows::plain_from))]
    pub(crate) fn ready_from(self) -> Slot
        ensures { result.0 ≡ ready_from self.row self.given.0 }
    {
        let row = self.row;
        let origin = pd2::origin(row);
        if row.kind == 1 {
            windows::next_job_start(row.cost, row.period, origin, self.given).unwrap()
        } else {
            windows::next_start(row.cost, row.period, origin, self.given).unwrap()
        }
    }

    // d and b of the next subtask.
    #[tactic(auto, using(crate::proofs::Windows::due_is))]
    pub(crate) fn due(self) -> Due
        ensures { (result.deadline.0 ≡ (rank_of self.row 0 self.given.0).d) × (result.bit ≡ (rank_of self.row 0 self.given.0).b) }
    {
        let row = self.row;
        windows::next_due(row.cost, row.period, pd2::origin(row), self.given).unwrap()
    }

    // D of the next subtask.
    #[tactic(auto, using(pd2::proofs::Verdicts::moment_is_said))]
    pub(crate) fn group_deadline(self) -> Slot
        ensures { result.0 ≡ (rank_of self.row 0 self.given.0).D }
    {
        let row = self.row;
        windows::next_group_deadline(row.cost, row.period, pd2::origin(row), self.given).unwrap()
    }
}
