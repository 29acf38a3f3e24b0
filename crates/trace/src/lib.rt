// The trace: one record a slot. This is the writer of records, the search for the record of a slot, the shape of a record, and counting whom it names.
#![tactic(auto)]

mod counting;
mod rows;

ghost use Rattle.std.specs.Prelude.{◌≡◌, ◌+◌, ◌≤◌, length};
ghost use Rattle.trace.specs.Record.{record_of, marked, with_front, stored_number, write_number, part_after};
ghost use Rattle.trace.specs.Records.{rows_at};
ghost use Rattle.trace.specs.Raising.{raised};
ghost use Rattle.trace.specs.Found.{part_found, part_begins};
ghost use Rattle.trace.specs.Search.{length_inside, some_length, place_inside, place_found};
ghost use Rattle.trace.specs.Shaped.{shaped_of, shape_of};

use counts::Slot;

// A record has no room in the part.
#[derive(Clone, Copy, PartialEq, Eq)]
pub struct NoRoom;

// Writes the record of a slot to the front of the lent part: cores free, rows picked and their numbers. Mark i says that row i was picked.
pub fn write(part: &mut [u8], free: u8, marks: [bool; 32]) -> Result<(), NoRoom>
    ensures result_value { stored_number result ≡ write_number part.old (record_of free (marked marks)) }
    ensures part_after { part.new ≡ part_after part.old (record_of free (marked marks)) }
{
    let picked = how_many(&marks);
    let length = record_length(picked);
    if part.len() < length {
        return Err(NoRoom);
    }
    part[0] = free;
    part[1] = picked;
    put_rows(&mut part[2..], &marks);
    Ok(())
}

// How many bytes a record of so many rows has.
fn record_length(picked: u8) -> usize
    ensures { result ≡ 2 + picked }
{
    2 + picked as usize
}

// How many marks are set. (One line, as in `cores`.)
#[tactic(auto, using(crate::proofs::Writing::all_counted))]
fn how_many(marks: &[bool]) -> u8
    requires { length marks.now ≤ 32 }
    ensures { result ≡ length (marked marks.now) }
{
    marks.iter().map(|mark| *mark as u8).sum()
}

// Writes the numbers of the marked rows to the front of the part.
fn put_rows(part: &mut [u8], marks: &[bool; 32])
    requires { length (marked marks.now) ≤ length part.old }
    ensures { part.new ≡ with_front part.old (marked marks.now) }
{
    let mut at: usize = 0;
    for (i, &is_marked) in marks.iter().enumerate() {
        if is_marked {
            part[at] = i as u8;
            at += 1;
        }
    }
}

// The record of a slot, the very bytes inside the lent trace: if it is not found, the part of length 0 at 0. What it says is not judged.
pub fn record(trace: &[u8], slot: Slot) -> &[u8]
    ensures content { result.now ≡ part_found trace.now slot.0 }
    ensures place { (result.ref_ptr.0 ≡ trace.entry.ref_ptr.0) × (result.ref_ptr.1 ≡ trace.entry.ref_ptr.1 + part_begins trace.now slot.0) }
{
    match find(trace, slot.time()) {
        Some((start, end)) => &trace[start..end],
        None => &trace[..0],
    }
}

// Where the part that `record` hands back begins in the trace: 0 if it is not found, as 01 says.
pub fn begins(trace: &[u8], slot: Slot) -> usize
    ensures { result ≡ part_begins trace.now slot.0 }
{
    match find(trace, slot.time()) {
        Some((start, _)) => start,
        None => 0,
    }
}

// Where the record of a slot begins and ends. Looks for it only if the count says that there is one.
#[tactic(auto, using(crate::proofs::Search::search_found))]
fn find(trace: &[u8], slot: u64) -> Option<(usize, usize)>
    ensures { result ≡ place_found trace.now slot }
{
    if trace.len() < 4 {
        return None;
    }
    let slots = fields::word(trace, 0) as u64;
    if slots <= slot {
        return None;
    }
    walk(trace, slot)
}

// Walks from record to record up to the slot's own, or to one that is cut.
#[tactic(auto, using(crate::proofs::Search::walk_steps))]
fn walk(trace: &[u8], slot: u64) -> Option<(usize, usize)>
    ensures { result ≡ place_inside trace.now slot }
{
    let mut start: usize = 4;
    for _ in 0..slot {
        start += length_inside(trace, start)?;
    }
    let length = length_inside(trace, start)?;
    Some((start, start + length))
}

// How many bytes the record that begins at `start` has, if it lies wholly inside the trace. Here and below a place may be wild: so it stands beside the trace, and no part of it does.
#[tactic(auto, using(crate::proofs::Search::is_cut, crate::proofs::Search::is_whole))]
pub fn length_inside(trace: &[u8], start: usize) -> Option<usize>
    ensures { result ≡ some_length (length_inside trace.now start) }
{
    let rest = trace.len().saturating_sub(start);
    if rest < 2 {
        return None;
    }
    let whole = record_length(trace[start + 1]);
    if whole <= rest { Some(whole) } else { None }
}

// What is found in the shape of a record.
#[derive(Clone, Copy, PartialEq, Eq)]
pub enum Misshape {
    Cut,
    TooManyCores,
    TooManyRows,
    BadRow,
}

// Judges the shape of the record at a place, for a table of so many cores and of n rows, and gives the place behind it.
// A place past the end is one where the trace is cut.
#[tactic(auto, using(crate::proofs::Shapes::shape_found))]
pub fn shape(cores: u8, n: u8, trace: &[u8], at: usize) -> Result<usize, Misshape>
    ensures { shaped_of result ≡ shape_of cores n trace.now at }
{
    let rest = trace.len().saturating_sub(at);
    if rest < 2 {
        return Err(Misshape::Cut);
    }
    let free = trace[at];
    let picked = trace[at + 1];
    if cores < free {
        return Err(Misshape::TooManyCores);
    }
    if free < picked {
        return Err(Misshape::TooManyRows);
    }
    let long = record_length(picked);
    if rest < long {
        return Err(Misshape::Cut);
    }
    let next = at + long;
    if rows::are_bad(&trace[at + 2..next], n) {
        return Err(Misshape::BadRow);
    }
    Ok(next)
}

// Raises the count of each row below 32 that the record at a place names, by one however often it does. Rows past the trace's end are not there.
#[tactic(auto, using(crate::proofs::Raising::rows_raised))]
pub fn raise(trace: &[u8], place: usize, counts: &mut [u32; 32])
    ensures { counts.new ≡ raised (rows_at trace.now place) 0 counts.old }
{
    let rest = trace.len().saturating_sub(place);
    if rest < 2 {
        return;
    }
    let there = record_length(trace[place + 1]).min(rest);
    counting::raise_named(&trace[place + 2..place + there], counts);
}
