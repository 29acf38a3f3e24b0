// What the board's C firmware calls, by the crate firmware_c: byte slices in, 01's number out. host/c/zbrojomir.h declares it for C.
#![tactic(auto)]

ghost use Rattle.std.specs.Prelude.{◌≡◌};
ghost use Rattle.table.specs.Bytes.{table_number};
ghost use Rattle.checker.specs.Check.{check_of};

// 0 if these bytes are a table that is taken, else the number of the first fault met.
#[tactic(auto, using(table::proofs::Taken::number_read))]
pub fn zb_table_check(table: &[u8]) -> u8
    ensures { result ≡ table_number table.now }
{
    match table::read(table) {
        Ok(_) => 0,
        Err(fault) => fault.number(),
    }
}

// 0 if the trace passes for the table, else the number of the table's refusal, or of what was first found in the trace.
pub fn zb_trace_check(table: &[u8], trace: &[u8]) -> u8
    ensures { result ≡ (check_of table.now trace.now).number }
{
    checker::number(checker::check(table, trace))
}
