// One subtask of a row, and the times of its window.

ghost use Rattle.std.specs.Prelude.{◌≡◌, ◌+◌, ◌*◌, ◌<◌, ◌≤◌, not};
ghost use Rattle.facts.specs.Rounding.{ceil_div};
ghost use Rattle.windows.specs.Next.{reach};
ghost use Rattle.windows.specs.Fits.{Fits, furthest, products};
ghost use Rattle.windows.specs.Windows.{start, deadline, bit, job_start};
ghost use Rattle.windows.specs.Group.{heavy, group_deadline};

use crate::times::{Due, Window};
use counts::{Slot, Subtask};

// A subtask by its row's cost and period, the origin that the row's windows are counted from, and its number: all small enough that no number on the way
// passes 64 bits.
#[derive(Clone, Copy)]
pub(crate) struct RowSubtask {
    pub(crate) cost: u64,
    pub(crate) period: u64,
    pub(crate) origin: Slot,
    pub(crate) number: Subtask,
    ghost fits: { Fits cost period origin.0 number.0 },
}

impl RowSubtask {
    // Its window, with this group deadline.
    pub(crate) fn window(self, group: Slot) -> Window
        ensures starts { result.start.0 ≡ start self.cost self.period self.origin.0 self.number.0 }
        ensures ends { result.deadline.0 ≡ deadline self.cost self.period self.origin.0 self.number.0 }
        ensures bit { result.bit ≡ bit self.cost self.period self.number.0 }
        ensures group { result.group.0 ≡ group.0 }
    {
        let due = self.due();
        Window {
            start: self.start(),
            deadline: due.deadline,
            bit: due.bit,
            group,
        }
    }

    // Where its window begins.
    pub(crate) fn start(self) -> Slot
        ensures { result.0 ≡ start self.cost self.period self.origin.0 self.number.0 }
    {
        let whole = product(self.number.quanta_before().count(), self.period);
        self.origin.later(whole / self.cost)
    }

    // Its deadline and its bit: "the next start is d - b", so one division gives both.
    pub(crate) fn due(self) -> Due
        ensures deadline { result.deadline.0 ≡ deadline self.cost self.period self.origin.0 self.number.0 }
        ensures bit { result.bit ≡ bit self.cost self.period self.number.0 }
    {
        let whole = product(self.number.number(), self.period);
        let next_start = self.origin.later(whole / self.cost);
        if whole % self.cost == 0 {
            Due {
                deadline: next_start,
                bit: 0,
            }
        } else {
            Due {
                deadline: next_start.later(1),
                bit: 1,
            }
        }
    }

    // The start of the job that holds it.
    pub(crate) fn job_start(self) -> Slot
        ensures { result.0 ≡ job_start self.cost self.period self.origin.0 self.number.0 }
    {
        let jobs = self.number.quanta_before().count() / self.cost;
        self.origin.later(product(jobs, self.period))
    }

    // Its group deadline: "D is f + ceil(g·p/(p-e)) where g = ceil(d·(p-e)/p)", "with d counted from the phase".
    // (Its bound is no part of the invariant: the subtasks of a walk go past it.)
    pub(crate) fn group_deadline(self) -> Slot
        requires { self.number.0 ≤ reach + 1 }
        ensures { result.0 ≡ group_deadline self.cost self.period self.origin.0 self.number.0 }
    {
        if self.is_light() {
            return Slot::at(0);
        }
        let due = self.due();
        // "The formula of request Four is used only below weight one": a row of weight one has b = 0 throughout and ends here, so nothing below divides by 0.
        if due.bit == 0 {
            return due.deadline;
        }
        let rest = self.period - self.cost;
        let gaps = portion(due.deadline.since(self.origin), rest, self.period);
        self.origin.later(portion(gaps, self.period, rest))
    }

    // The same by a walk: "walk the row's windows forward and stop at the first that fits".
    pub(crate) fn walked_group_deadline(self) -> Slot
        requires { self.number.0 ≤ reach + 1 }
        ensures { result.0 ≡ group_deadline self.cost self.period self.origin.0 self.number.0 }
    {
        if self.is_light() {
            return Slot::at(0);
        }
        let mut start = self.start();
        let mut number = self.number;
        // No `for`: where the walk stops is what is asked.
        loop {
            let here = RowSubtask {
                cost: self.cost,
                period: self.period,
                origin: self.origin,
                number,
            };
            let due = here.due();
            if due.bit == 0 {
                break due.deadline;
            }
            if self.number.number() < number.number() && due.deadline.since(start) == 3 {
                break due.deadline.before();
            }
            // "The next start is d - b", and b is 1 here: no division for it.
            start = due.deadline.before();
            number = number.next();
        }
    }

    // Whether its row is light, of weight below one half.
    #[tactic(auto, using(facts::proofs::Tests::below_is_not), unfolding(crate::specs::Group::heavy))]
    fn is_light(self) -> bool
        ensures { result ≡ not (heavy self.cost self.period) }
    {
        2 * self.cost < self.period
    }
}

// number·factor/divisor, rounded up.
fn portion(number: u64, factor: u64, divisor: u64) -> u64
    requires product { number * factor < products }
    requires some { 0 < divisor }
    requires small { divisor < 65_536 }
    ensures { result ≡ ceil_div (number * factor) divisor }
{
    (number * factor + (divisor - 1)) / divisor
}

// A number of subtasks or jobs times the period. (`pd2` has its own, by other bounds.)
fn product(number: u64, period: u64) -> u64
    requires near { number ≤ furthest }
    requires small { period < 65_536 }
    ensures value { result ≡ number * period }
    ensures fits { result < products }
{
    number * period
}
