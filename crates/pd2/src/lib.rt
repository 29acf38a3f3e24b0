// PD2's rules for one row: is it ready, late, inside its share? By products alone for a plain row: no division.
#![tactic(auto)]

ghost use Rattle.std.specs.Prelude.{◌≡◌, is_some, IfSome, ◌+◌, ◌*◌, ◌<◌, ◌≤◌, min};
ghost use Rattle.facts.specs.First.{Lowest};
ghost use Rattle.windows.specs.Fits.{furthest, products};
ghost use Rattle.counts.specs.Numbers.{numbers_of};
ghost use Rattle.pd2.specs.Ready.{origin_of, ready, late};
ghost use Rattle.windows.specs.Next.{reach};
ghost use Rattle.pd2.specs.Share.{elapsed, lower, upper, upper_plain, upper_early_release, within};
ghost use Rattle.pd2.specs.Verdict.{is_yes, answered, verdict};
ghost use Rattle.pd2.specs.Near.{Near};
ghost use Rattle.pd2.specs.Rows.{GaveMarked, says_late_in};

use counts::{Quanta, Slot};
use table::Row;

// Whether the answer to a question about one row is yes; None is no answer.
pub fn is_yes(verdict: Option<bool>) -> bool
    ensures { result ≡ is_yes verdict }
{
    verdict.unwrap_or(false)
}

// The time from which a row's windows are counted.
pub fn origin(row: Row) -> Slot
    ensures { result.0 ≡ origin_of row }
{
    Slot::at(u64::from(row.phase))
}

// Whether a row with these quanta is ready in this slot: whether one quantum more would be within its upper limit at the slot's end.
// (Here and below, public functions with a promise each; what they share is `Asked`.)
#[tactic(auto, using(crate::proofs::Verdicts::ready_is_said, crate::proofs::Verdicts::in_reach))]
pub fn ready(row: Row, given: Quanta, slot: Slot) -> Option<bool>
    ensures { result ≡ verdict (answered row given.0 slot.0) (ready row given.0 slot.0) }
{
    let asked = Asked::about(row, given, slot)?;
    Some(asked.one_on().is_under_upper())
}

// Whether a row with these quanta is late at this time: whether it is below its lower limit.
#[tactic(auto, using(crate::proofs::Verdicts::late_is_said))]
pub fn late(row: Row, given: Quanta, time: Slot) -> Option<bool>
    ensures { result ≡ verdict (answered row given.0 time.0) (late row given.0 time.0) }
{
    let asked = Asked::about(row, given, time)?;
    Some(!asked.reaches_lower())
}

// Whether a row with these quanta is inside its share at this time.
pub fn within(row: Row, given: Quanta, time: Slot) -> Option<bool>
    ensures { result ≡ verdict (answered row given.0 time.0) (within row given.0 time.0) }
{
    let asked = Asked::about(row, given, time)?;
    Some(asked.reaches_lower() && asked.is_under_upper())
}

// What is asked about: a row that can be, with its quanta at a time, both within reach or one past it, so that no number on the way passes 64 bits.
#[derive(Clone, Copy)]
struct Asked {
    row: Row,
    given: Quanta,
    time: Slot,
    ghost near: { Near row given.0 time.0 },
}

impl Asked {
    // None where the question is not answered.
    fn about(row: Row, given: Quanta, time: Slot) -> Option<Asked>
        ensures answers { is_some result ≡ answered row given.0 time.0 }
        ensures as_asked { IfSome result (λ asked. (asked.row ≡ row) × (asked.given.0 ≡ given.0) × (asked.time.0 ≡ time.0)) }
    {
        let is_answered = 0 < row.cost
            && row.cost <= row.period
            && given.count() <= windows::REACH
            && time.time() <= windows::REACH;
        if is_answered {
            Some(Asked { row, given, time })
        } else {
            None
        }
    }

    // One quantum and one slot on, where readiness is tested.
    fn one_on(self) -> Asked
        requires { (self.given.0 ≤ reach) × (self.time.0 ≤ reach) }
        ensures { (result.row ≡ self.row) × (result.given.0 ≡ self.given.0 + 1) × (result.time.0 ≡ self.time.0 + 1) }
    {
        Asked {
            row: self.row,
            given: self.given.one_more(),
            time: self.time.later(1),
        }
    }

    // The lower limit: less than a whole quantum is owed.
    #[tactic(auto, unfolding(crate::specs::Share::lower))]
    fn reaches_lower(self) -> bool
        ensures { result ≡ lower self.row self.given.0 self.time.0 }
    {
        self.share() < self.had() + u64::from(self.row.period)
    }

    // The upper limit, for each kind of row.
    #[tactic(auto, unfolding(crate::specs::Share::upper))]
    fn is_under_upper(self) -> bool
        ensures { result ≡ upper self.row self.given.0 self.time.0 }
    {
        if self.row.kind == 1 {
            self.is_under_upper_early_release()
        } else {
            self.is_under_upper_plain()
        }
    }

    fn is_under_upper_plain(self) -> bool
        ensures { result ≡ upper_plain self.row self.given.0 self.time.0 }
    {
        self.had() < self.share() + u64::from(self.row.period)
    }

    // At most the cost of all jobs released.
    #[tactic(auto, unfolding(facts::specs::Rounding::ceil_div))]
    fn is_under_upper_early_release(self) -> bool
        ensures { result ≡ upper_early_release self.row self.given.0 self.time.0 }
    {
        let period = u64::from(self.row.period);
        let jobs = (self.elapsed() + (period - 1)) / period;
        self.given.count() <= product(jobs, self.row.cost)
    }

    // The cost times the time since the phase.
    fn share(self) -> u64
        ensures { (result ≡ elapsed self.row self.time.0 * self.row.cost) × (result < products) }
    {
        product(self.elapsed(), self.row.cost)
    }

    // The period times the quanta.
    fn had(self) -> u64
        ensures { (result ≡ self.given.0 * self.row.period) × (result < products) }
    {
        product(self.given.count(), self.row.period)
    }

    fn elapsed(self) -> u64
        ensures { (result ≡ elapsed self.row self.time.0) × (result ≤ self.time.0) }
    {
        self.time.since(origin(self.row))
    }
}

// A number of slots, quanta or jobs times a number of the table. (`windows` has its own, by other bounds: for one of both they would have to be a public promise.)
fn product(number: u64, factor: u16) -> u64
    requires { number ≤ furthest }
    ensures { (result ≡ number * factor) × (result < products) }
{
    number * u64::from(factor)
}

// One quantum more for each marked row: "each picked row has one quantum more".
#[tactic(auto, using(crate::proofs::Rows::giving))]
pub fn give(mut quanta: [Quanta; 32], marks: [bool; 32]) -> [Quanta; 32]
    ensures { GaveMarked marks quanta result }
{
    for (i, given) in quanta.iter_mut().enumerate() {
        if marks[i] {
            *given = given.one_more();
        }
    }
    quanta
}

// The lowest row below n that is late, or n where none is; no more than 32 rows are looked at. (n stands beside the rows and is the answer too: it may be wild, and
// `Lowest`, the promise, is of numbers.)
#[tactic(auto, using(crate::proofs::Rows::looking))]
pub fn lowest_late(rows: [Row; 32], quanta: [Quanta; 32], n: usize, time: Slot) -> usize
    ensures { Lowest (says_late_in rows (numbers_of quanta) time.0) (min n 32) result }
{
    let last = n.min(32);
    for i in 0..last {
        if is_yes(late(rows[i], quanta[i], time)) {
            return i;
        }
    }
    last
}
