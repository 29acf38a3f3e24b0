// Values read from the bytes of a request. Each lies inside: a request that is cut is never read.
ghost use Rattle.std.specs.Prelude.{◌≡◌, ◌+◌, ◌≤◌, length, drop};
ghost use Rattle.fields.specs.Fields.{number_at};
ghost use Rattle.values.specs.Values.{value_in_bytes, state_in_bytes};
ghost use Rattle.probe.specs.Requests.{SetAt};

use dispatcher::State;
use table::Table;

// The number in the eight bytes from place `at` on.
pub(crate) fn long(s: &[u8], at: usize) -> u64
    requires { at + 8 ≤ length s.now }
    ensures { result ≡ number_at 8 s.now at }
{
    fields::long(s, at)
}

pub(crate) fn table(s: &[u8], at: usize) -> Table
    requires { at + 303 ≤ length s.now }
    ensures { result ≡ value_in_bytes (drop at s.now) 0 }
{
    values::table(&s[at..])
}

pub(crate) fn state(s: &[u8], at: usize) -> State
    requires { at + 585 ≤ length s.now }
    ensures { result ≡ state_in_bytes (drop at s.now) 0 }
{
    values::state(&s[at..])
}

// A set of cores in four bytes: bit c is core c.
pub(crate) fn set(s: &[u8], at: usize) -> [bool; 32]
    requires { at + 4 ≤ length s.now }
    ensures { SetAt s.now at result }
{
    let bits = fields::word(s, at);
    let mut marks = [false; 32];
    for (core, mark) in marks.iter_mut().enumerate() {
        *mark = (bits >> core) % 2 == 1;
    }
    marks
}
