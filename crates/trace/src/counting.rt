// Counting whom a record names: the count of a row rises by one, however often its record names it.
ghost use Rattle.std.specs.Prelude.{◌≡◌, true, false, cond, get_or, set};
ghost use Rattle.trace.specs.Raising.{raised_if, raised};

// Raises the counts of the rows that are named. A record names few, so this goes from number to number, and not over all counts.
#[tactic(auto, using(crate::proofs::Raising::raising_begins, crate::proofs::Raising::raising_ends))]
pub(crate) fn raise_named(rows: &[u8], counts: &mut [u32; 32])
    ensures { counts.new ≡ raised rows.now 0 counts.old }
{
    let mut counted = [false; 32];
    for &row in rows {
        raise_one(row, &mut counted, counts);
    }
}

// Raises the count of a row unless this was done before: it stays at the largest number. A row of 32 or above has no count.
fn raise_one(row: u8, counted: &mut [bool; 32], counts: &mut [u32; 32])
    ensures counted_after { counted.new ≡ set counted.old row true }
    ensures counts_after { counts.new ≡ cond (get_or counted.old row false) counts.old (set counts.old row (raised_if true (get_or counts.old row 0))) }
{
    let i = row as usize;
    if 32 <= i || counted[i] {
        return;
    }
    counted[i] = true;
    counts[i] = counts[i].saturating_add(1);
}
