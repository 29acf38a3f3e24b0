// By which rule of PD2's order one row goes before another.
ghost use Rattle.std.specs.Prelude.{◌≡◌, cond};
ghost use Rattle.pd2.specs.Order.{rank_of, with_favour};
ghost use Rattle.why.specs.declared.Rule.TheVariants.{RowNumber, RanBefore};
ghost use Rattle.why.specs.Rules.{rule_for};

use crate::Rule;
use crate::next::Next;

// The first rule that decides. Group deadlines are asked for only if both bits are 1. `kinder` says that of the two rows the one ahead alone is favoured.
pub(crate) fn rule_between(ahead: Next, behind: Next, kinder: bool) -> Rule
    ensures { result ≡ rule_for (with_favour (rank_of ahead.row 0 ahead.given.0) kinder) (rank_of behind.row 0 behind.given.0) }
{
    let first = ahead.due();
    let second = behind.due();
    if first.deadline.time() < second.deadline.time() {
        return Rule::Deadline;
    }
    if second.bit < first.bit {
        return Rule::Bit;
    }
    if first.bit == 0 {
        return last_rule(kinder);
    }
    if behind.group_deadline().time() < ahead.group_deadline().time() {
        return Rule::GroupDeadline;
    }
    last_rule(kinder)
}

// The rule that decides between full ties.
fn last_rule(kinder: bool) -> Rule
    ensures { result ≡ cond kinder RanBefore RowNumber }
{
    if kinder {
        Rule::RanBefore
    } else {
        Rule::RowNumber
    }
}
