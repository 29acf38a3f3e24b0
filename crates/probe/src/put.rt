// Parts of an answer, each right behind the one before: a function writes from a place on, and says the place behind. Each asks for room, so that no byte of an answer is lost.
// (`values` and `fields`, which are total, leave out what lies past the end.)
// So many bytes are lent as a value has, and no more: with their number in sight the compiler stores whole words, and a request for a slot takes 4,500 instructions fewer.
ghost use Rattle.std.specs.Prelude.{◌≡◌, ◌+◌, ◌≤◌, length};

use cores::Placement;
use dispatcher::{State, Told};
use table::Table;

// A number in so many bytes.
pub(crate) fn number(out: &mut [u8], at: usize, width: usize, number: u64) -> usize
    requires { at + width ≤ length out.old }
    ensures { result ≡ at + width }
{
    fields::put(out, at, width, number);
    at + width
}

// Number, row and time (8).
pub(crate) fn told(out: &mut [u8], at: usize, told: Told) -> usize
    requires { at + 10 ≤ length out.old }
    ensures { result ≡ at + 10 }
{
    let past_number = number(out, at, 1, u64::from(told.number));
    let past_row = number(out, past_number, 1, u64::from(told.row));
    number(out, past_row, 8, told.time)
}

pub(crate) fn table(out: &mut [u8], at: usize, table: Table) -> usize
    requires { at + 303 ≤ length out.old }
    ensures { result ≡ at + 303 }
{
    values::put_table(&mut out[at..at + 303], table);
    at + 303
}

pub(crate) fn placement(out: &mut [u8], at: usize, placed: Placement) -> usize
    requires { at + 17 ≤ length out.old }
    ensures { result ≡ at + 17 }
{
    values::put_placement(&mut out[at..at + 17], placed);
    at + 17
}

pub(crate) fn state(out: &mut [u8], at: usize, state: State) -> usize
    requires { at + 585 ≤ length out.old }
    ensures { result ≡ at + 585 }
{
    values::put_state(&mut out[at..at + 585], state);
    at + 585
}
