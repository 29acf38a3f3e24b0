// The row numbers of a record.
ghost use Rattle.std.specs.Prelude.{◌≡◌};
ghost use Rattle.trace.specs.Shape.{bad_rows};

// Whether one of the row numbers is not below n, or they do not rise.
#[tactic(auto, using(crate::proofs::Rising::badness_found))]
pub(crate) fn are_bad(rows: &[u8], n: u8) -> bool
    ensures { result ≡ bad_rows n 0 rows.now }
{
    let mut least: u8 = 0;
    for &row in rows {
        if n <= row || row < least {
            return true;
        }
        least = row + 1;
    }
    false
}
