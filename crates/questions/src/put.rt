// Parts of an answer, from a place on. Each asks for room, so that no byte of an answer is lost.
// (`values` and `fields`, which are total, leave out what lies past the end.)
ghost use Rattle.std.specs.Prelude.{◌+◌, ◌≤◌, length};

use counts::Quanta;
use dispatcher::State;

// A number in so many bytes.
pub(crate) fn number(out: &mut [u8], at: usize, width: usize, number: u64)
    requires { at + width ≤ length out.old }
{
    fields::put(out, at, width, number);
}

pub(crate) fn quanta(out: &mut [u8], at: usize, quanta: [Quanta; 32])
    requires { at + 256 ≤ length out.old }
{
    values::put_quanta(&mut out[at..at + 256], quanta);
}

pub(crate) fn state(out: &mut [u8], at: usize, state: State)
    requires { at + 585 ≤ length out.old }
{
    values::put_state(&mut out[at..at + 585], state);
}
