// 01's number, row and time for each answer of a check, in the form that a slot's have.
ghost use Rattle.checker.specs.Answer.{said_of};
ghost use Rattle.trace.specs.Said.{bare, named};
ghost use Rattle.probe.specs.Told.{Says};

use checker::Finding;
use counts::Slot;
use dispatcher::Told;

pub(crate) fn told(answer: checker::Answer) -> Told
    ensures { Says (said_of answer) result }
{
    let number = checker::number(answer);
    match answer {
        Err(Finding::Early { row, slot }) => named(number, row, slot),
        Err(Finding::Late { row, time }) => named(number, row, time),
        _ => named(number, 0, Slot::at(0)),
    }
}

// An answer of this number that names a row and a time.
fn named(number: u8, row: u8, time: Slot) -> Told
    ensures { Says (named number row time.0) result }
{
    Told {
        number,
        row,
        time: time.time(),
    }
}
