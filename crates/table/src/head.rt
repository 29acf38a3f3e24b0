// The first fields of a table: format, cycle and core count.
ghost use Rattle.std.specs.Prelude.{◌≡◌, ◌≤◌, not, ◌||◌, eqb, IfOk};
ghost use Rattle.facts.specs.Findings.{first_found};
ghost use Rattle.table.specs.Limits.{core_limit};
ghost use Rattle.table.specs.Causes.{outside};
ghost use Rattle.table.specs.Bytes.{format_in, cycle_in, cores_in, head_tests};
ghost use Rattle.table.specs.Reply.{number_of};

use crate::Fault;

pub(crate) const CYCLE_LIMIT: u32 = 1_000_000;

pub(crate) const CORE_LIMIT: u32 = 8;

// The first fields, once they passed their tests.
#[derive(Clone, Copy)]
pub(crate) struct Head {
    pub(crate) format: u8,
    pub(crate) cycle: u32,
    pub(crate) cores: u8,
    ghost few: { cores ≤ core_limit },
}

// The first fields, or the first fault met. A field is tested as soon as its bytes are there.
#[tactic(auto, unfolding(facts::specs::Findings::first_found))]
pub(crate) fn read(bytes: &[u8]) -> Result<Head, Fault>
    ensures number { number_of result ≡ first_found 0 (head_tests bytes.now) }
    ensures fields { IfOk result (λ head. (head.format ≡ format_in bytes.now) × (head.cycle ≡ cycle_in bytes.now) × (head.cores ≡ cores_in bytes.now)) }
{
    if bytes.is_empty() {
        return Err(Fault::Ends);
    }
    let format = fields::byte(bytes, 0);
    if format_is_unknown(format) {
        return Err(Fault::Format);
    }
    if bytes.len() < 5 {
        return Err(Fault::Ends);
    }
    let cycle = fields::word(bytes, 1);
    if is_outside(CYCLE_LIMIT, cycle) {
        return Err(Fault::Cycle);
    }
    if bytes.len() < 6 {
        return Err(Fault::Ends);
    }
    let cores = fields::byte(bytes, 5);
    if is_outside(CORE_LIMIT, cores as u32) {
        return Err(Fault::Cores);
    }
    Ok(Head {
        format,
        cycle,
        cores,
    })
}

// Whether a format is neither 1 nor 2.
pub(crate) fn format_is_unknown(format: u8) -> bool
    ensures { result ≡ not (eqb format 1 || eqb format 2) }
{
    format != 1 && format != 2
}

// Whether a number is not in 1 to a limit.
pub(crate) fn is_outside(limit: u32, number: u32) -> bool
    ensures { result ≡ outside 1 limit number }
{
    number < 1 || limit < number
}
