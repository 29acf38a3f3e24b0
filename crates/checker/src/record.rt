// One record of a trace: whether it is sound, whether its rows were ready, and who is late at the slot's end.
ghost use Rattle.checker.specs.Walking.{CanJudge, Leads};

use crate::Finding;
use crate::giving::Walk;
use counts::Slot;
use table::Table;

// Judges the record of a slot and goes behind it.
pub(crate) fn judge(
    table: &Table,
    trace: &[u8],
    at: usize,
    walk: &mut Walk,
    slot: Slot,
) -> Result<usize, Finding>
    requires { CanJudge table.now trace.now slot.0 at walk.old }
    ensures { Leads table.now trace.now slot.0 walk.new result }
{
    let next = trace::shape(table.cores, table.n, trace, at)?;
    let rows = &trace[at + 2..next];
    walk.give(table, rows, slot)?;
    let time = slot.later(1);
    if let Some(row) = walk.lowest_late(table.n as usize, time) {
        return Err(Finding::Late {
            row: row as u8,
            time,
        });
    }
    Ok(next)
}
