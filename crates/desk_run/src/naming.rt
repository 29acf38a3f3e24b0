// The row and the time that each answer of a check names.
ghost use Rattle.std.specs.Prelude.{◌≡◌};
ghost use Rattle.checker.specs.Answer.{said_of};

use checker::Finding;
use counts::Slot;

// 0 for what an answer does not name.
// (Plain numbers, 0 for none, since C reads them.)
pub(crate) fn named(answer: checker::Answer) -> (u8, Slot)
    ensures { (result.0 ≡ (said_of answer).row) × (result.1.0 ≡ (said_of answer).time) }
{
    match answer {
        Err(Finding::Early { row, slot }) => (row, slot),
        Err(Finding::Late { row, time }) => (row, time),
        _ => (0, Slot::at(0)),
    }
}
