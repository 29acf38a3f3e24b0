// The rows of a table.
ghost use Rattle.std.specs.Prelude.{◌≡◌, ◌+◌, ◌*◌, ◌/◌, ◌≤◌, ◌<◌, length, IfOk, MatchResult};
ghost use Rattle.facts.specs.Findings.{first_found};
ghost use Rattle.facts.specs.Rising.{rising};
ghost use Rattle.table.specs.Parts.{load_limit, rows_fault_in, rows_in, rows_load_in};
ghost use Rattle.table.specs.Causes.{row_tests, tank_above, load};
ghost use Rattle.table.specs.Reply.{fault_number, number_of};
ghost use Rattle.table.specs.Bytes.{row_in_bytes};
ghost use Rattle.table.specs.RowRead.{row_reply_of, row_reply};

use crate::{Fault, Row};

// A place in the bytes that are read. 01 names this form: each row that is read comes with the cursor past it.
#[derive(Clone, Copy)]
struct Cursor {
    at: usize,
}

// The rows that were read, and the quanta that they take in a cycle.
#[derive(Clone, Copy)]
pub(crate) struct Rows {
    pub(crate) rows: [Row; 32],
    pub(crate) sum: u64,
}

// The n rows that begin at place `at`, or the first fault met. Each row is gone over once: it is read, tested and added.
pub(crate) fn read(bytes: &[u8], at: usize, n: usize, cycle: u32) -> Result<Rows, Fault>
    requires { (at ≤ length bytes.now) × (n ≤ 32) }
    ensures { let first = rows_fault_in bytes.now cycle at n in MatchResult result (λ read. (0 ≡ first) × (read.rows ≡ rows_in bytes.now at n) × (read.sum ≡ rows_load_in bytes.now cycle at n)) (λ fault. fault_number fault ≡ first) }
{
    let mut rows = [Row::default(); 32];
    let mut cursor = Cursor { at };
    let mut sum: u64 = 0;
    let mut least: u32 = 0;
    for i in 0..n {
        let got = read_one(bytes, cursor, cycle, least);
        let Ok((row, past)) = got else {
            return Err(got.err().unwrap());
        };
        rows[i] = row;
        sum += row.quanta(cycle);
        least = row.above();
        cursor = past;
    }
    Ok(Rows { rows, sum })
}

// The row at the cursor with the place past it, or its first fault.
fn read_one(bytes: &[u8], cursor: Cursor, cycle: u32, least: u32) -> Result<(Row, Cursor), Fault>
    requires { cursor.at ≤ length bytes.now }
    ensures { row_reply_of result ≡ row_reply bytes.now cycle least cursor.at }
{
    let at = cursor.at;
    if bytes.len() - at < 9 {
        return Err(Fault::Ends);
    }
    let row = Row::at(bytes, at);
    row.judge(cycle, least)?;
    Ok((row, Cursor { at: at + 9 }))
}

// The quanta that rows take in a cycle, or the first fault 16 to 20. Each row is gone over once: it is tested and added.
// (No one function with `read`, which goes over bytes that may be cut and fills an array; what they share are the methods of `Row`.)
pub(crate) fn judge(rows: &[Row], cycle: u32) -> Result<u64, Fault>
    requires { length rows.now ≤ 32 }
    ensures { let first = first_found 0 (rising (row_tests cycle) tank_above 0 rows.now) in MatchResult result (λ sum. (0 ≡ first) × (sum ≡ load cycle rows.now)) (λ fault. fault_number fault ≡ first) }
{
    let mut sum: u64 = 0;
    let mut least: u32 = 0;
    for row in rows {
        row.judge(cycle, least)?;
        sum += row.quanta(cycle);
        least = row.above();
    }
    Ok(sum)
}

impl Row {
    // The row in the nine bytes from place `at` on.
    fn at(bytes: &[u8], at: usize) -> Row
        requires { at + 9 ≤ length bytes.now }
        ensures { result ≡ row_in_bytes bytes.now at }
    {
        Row {
            tank: fields::half(bytes, at),
            cost: fields::half(bytes, at + 2),
            period: fields::half(bytes, at + 4),
            phase: fields::half(bytes, at + 6),
            kind: fields::byte(bytes, at + 8),
        }
    }

    // Whether a row whose tank may be `least` or more has no fault, or else the first.
    #[tactic(auto, unfolding(facts::specs::Findings::first_found))]
    fn judge(&self, cycle: u32, least: u32) -> Result<(), Fault>
        ensures { number_of result ≡ first_found 0 (row_tests cycle least self.now) }
    {
        if (self.tank as u32) < least {
            return Err(Fault::Tanks);
        }
        if self.cost == 0 {
            return Err(Fault::Cost);
        }
        if self.period < self.cost {
            return Err(Fault::Weight);
        }
        if cycle % self.period as u32 != 0 {
            return Err(Fault::Period);
        }
        if 1 < self.kind {
            return Err(Fault::Kind);
        }
        Ok(())
    }

    // The least tank that may stand after a row.
    fn above(&self) -> u32
        ensures { result ≡ tank_above self.now }
    {
        self.tank as u32 + 1
    }

    // The quanta that a row takes in a cycle; 0 for a row of period 0.
    fn quanta(&self, cycle: u32) -> u64
        ensures { (result ≡ self.now.cost * (cycle / self.now.period)) × (result < load_limit) }
    {
        if self.period == 0 {
            return 0;
        }
        let jobs = cycle / self.period as u32;
        self.cost as u64 * jobs as u64
    }
}
