// The library that the board's C firmware links: the functions of the crate firmware under the same names. host/c/zbrojomir.h declares them for C.
#![tactic(auto)]

ghost use Rattle.std.specs.Prelude.{◌≡◌};
ghost use Rattle.table.specs.Bytes.{table_number};
ghost use Rattle.checker.specs.Check.{check_of};

// 0 if these bytes are a table that is taken, else the number of the first fault met.
#[unsafe(no_mangle)]
pub extern "C" fn zb_table_check(table: &[u8]) -> u8
    ensures { result ≡ table_number table.now }
{
    firmware::zb_table_check(table)
}

// 0 if the trace passes for the table, else the number of the table's refusal, or of what was first found in the trace.
#[unsafe(no_mangle)]
pub extern "C" fn zb_trace_check(table: &[u8], trace: &[u8]) -> u8
    ensures { result ≡ (check_of table.now trace.now).number }
{
    firmware::zb_trace_check(table, trace)
}
