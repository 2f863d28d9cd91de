//! Rows of one length, each kept as runs, and once where another is like it.
ghost use Rattle.std.specs.Prelude.{◌≡◌, ◌+◌, ◌*◌, ◌<◌, ◌≤◌, ◌↔◌, [], ◌++◌, length, IfOk, IsTrue};
ghost use Rattle.std.specs.Prelude.{take};
ghost use Rattle.std.specs.Prelude.{replicate, slice_index_or, slice_set, vec_len, vec_capacity};
ghost use Rattle.plain_lists.specs.declared.limits.TheConstants.{MOST_TASKS, MOST_WORK};
ghost use Rattle.board_store.specs.RowRuns.{from_run, row_at, IsAdded, IsAt};

use plain_lists::lists::ReservedList;
use std::alloc::{AllocError, Global};
use std::marker::Model;

/// What a row has in each period.
pub trait Cell: Copy + Drop {
    /// Whether it is the same as another.
    fn is(self, other: Self) -> bool
        ensures { IsTrue result ↔ (self ≡ other) };
}

impl Cell for u32 {
    fn is(self, other: u32) -> bool {
        self == other
    }
}

impl Cell for bool {
    fn is(self, other: bool) -> bool {
        self == other
    }
}

/// Rows of one length, at first all blank. Places with the same row may share its runs, so a row
/// that was written is never written over.
pub struct Table<T> {
    long: usize,
    // for each place where the runs of its row begin, counted from 0
    starts: Vec<u32>,
    // how many rows were put
    used: usize,
    // of each run, over how many periods it goes and what is there
    lengths: Vec<u8>,
    values: Vec<T>,
}

// By hand, so that dropping it is one call.
impl<T: Drop> Drop for Table<T> {
    fn drop(self) {
        let Table {
            long: _,
            starts: _,
            used: _,
            lengths: _,
            values: _,
        } = self;
    }
}

impl<T> Model for Table<T> {
    ghost use Rattle.std.specs.Prelude.{◌-◌, length, vec_capacity};
    ghost use Rattle.board_store.specs.Tables.{Rows, rows_code, IsTable, rows_in};

    ghost Value = { Rows T };

    ghost coded = { rows_code T.code };

    ghost view = { λ t. record {
      long = t.long;
      left =
          length t.starts.items - t.used;
      rows = rows_in t.long t.lengths.items t.values.items t.starts.items;
    } };

    ghost invariant = { λ t. IsTable t.long t.starts.items t.used t.lengths.items t.values.items
        (vec_capacity t.lengths) (vec_capacity t.values) };
}

fn make_zero_run_starts(alloc: Global, count: usize) -> Result<Vec<u32>, AllocError>
    ensures { IfOk result (λ v. v.items ≡ replicate count 0) }
{
    vec![in alloc; 0; count]
}

// Adds the runs of so many copies of a value behind others, where there is room for as many runs.
fn append_runs_of_value<T: Cell>(lengths: &mut Vec<u8>, values: &mut Vec<T>, count: usize, value: T)
    requires pairs { length lengths.old.items ≡ length values.old.items }
    requires lengths_room { vec_len lengths.old + count ≤ vec_capacity lengths.old }
    requires values_room { vec_len values.old + count ≤ vec_capacity values.old }
    ensures added { IsAdded lengths.old.items values.old.items lengths.new.items values.new.items
        (replicate count value) }
    ensures few { length lengths.new.items ≤ length lengths.old.items + count }
    ensures lengths_capacity { vec_capacity lengths.old ≤ vec_capacity lengths.new }
    ensures values_capacity { vec_capacity values.old ≤ vec_capacity values.new }
{
    let mut left = count;
    while left > 0 {
        let length = left.min(255);
        lengths.push_reserved(length as u8);
        values.push_reserved(value);
        left -= length;
    }
}

// Adds the runs of a row behind others that have room for as many as the row has cells.
fn append_row<T: Cell>(lengths: &mut Vec<u8>, values: &mut Vec<T>, row: &[T])
    requires some { 1 ≤ length row.now }
    requires pairs { length lengths.old.items ≡ length values.old.items }
    requires lengths_room { vec_len lengths.old + length row.now ≤ vec_capacity lengths.old }
    requires values_room { vec_len values.old + length row.now ≤ vec_capacity values.old }
    ensures added { IsAdded lengths.old.items values.old.items lengths.new.items values.new.items row.now }
    ensures few { length lengths.new.items ≤ length lengths.old.items + length row.now }
    ensures lengths_capacity { vec_capacity lengths.old ≤ vec_capacity lengths.new }
    ensures values_capacity { vec_capacity values.old ≤ vec_capacity values.new }
{
    let mut value = row[0];
    let mut count = 0;
    for cell in row {
        if cell.is(value) {
            count += 1;
            continue;
        }
        append_runs_of_value(lengths, values, count, value);
        value = *cell;
        count = 1;
    }
    append_runs_of_value(lengths, values, count, value);
}

// Whether all cells are the same as one. All are looked at, which takes fewer instructions than to
// stop at one that differs.
fn are_cells_all<T: Cell>(cells: &[T], value: T) -> bool
    ensures { IsTrue result ↔ (cells.now ≡ replicate (length cells.now) value) }
{
    let mut same = true;
    for cell in cells {
        same = cell.is(value) & same;
    }
    same
}

// Says yes only where a row is at an index in runs that take one period each, as that of a unit whose
// powers differ from period to period. To see so takes fewer instructions than to go from run to
// run, and fewer where all are looked at than to stop at one that differs.
fn is_row_in_runs_of_one_period<T: Cell>(
    lengths: &[u8],
    values: &[T],
    start: usize,
    row: &[T],
) -> bool
    requires pairs { length lengths.now ≡ length values.now }
    ensures { IsTrue result → row_at (length row.now) lengths.now values.now start ≡ row.now }
{
    if start >= lengths.len() || lengths[start] != 1 || row.len() > lengths.len() - start {
        return false;
    }
    let mut same = true;
    for k in 0..row.len() {
        same = values[start + k].is(row[k]) & (lengths[start + k] == 1) & same;
    }
    same
}

// Whether a row is the one whose runs begin at an index.
fn are_runs_equal_to_row<T: Cell>(lengths: &[u8], values: &[T], start: usize, row: &[T]) -> bool
    requires pairs { length lengths.now ≡ length values.now }
    requires whole { length row.now ≤ length (from_run lengths.now values.now start) }
    ensures { IsTrue result ↔ (row_at (length row.now) lengths.now values.now start ≡ row.now) }
{
    if is_row_in_runs_of_one_period(lengths, values, start, row) {
        return true;
    }
    let mut at = start;
    let mut seen = 0;
    while seen < row.len() {
        let end = seen + (row.len() - seen).min(lengths[at] as usize);
        if !are_cells_all(&row[seen..end], values[at]) {
            return false;
        }
        seen = end;
        at += 1;
    }
    true
}

// Where the runs of a row begin: where those of another do, which may well be the same, at the first
// run, or behind all runs, where they are then added.
fn find_or_append_runs_of_row<T: Cell>(
    lengths: &mut Vec<u8>,
    values: &mut Vec<T>,
    like: u32,
    row: &[T],
) -> u32
    requires pairs { length lengths.old.items ≡ length values.old.items }
    requires like { length row.now ≤ length (from_run lengths.old.items values.old.items like) }
    requires first { length row.now ≤ length (from_run lengths.old.items values.old.items 0) }
    requires few { length lengths.old.items ≤ MOST_WORK }
    requires lengths_room { vec_len lengths.old + length row.now ≤ vec_capacity lengths.old }
    requires values_room { vec_len values.old + length row.now ≤ vec_capacity values.old }
    ensures there { IsAt lengths.old.items values.old.items lengths.new.items values.new.items row.now
        result }
    ensures few { length lengths.new.items ≤ length lengths.old.items + length row.now }
    ensures lengths_capacity { vec_capacity lengths.old ≤ vec_capacity lengths.new }
    ensures values_capacity { vec_capacity values.old ≤ vec_capacity values.new }
{
    if are_runs_equal_to_row(lengths.as_slice(), values.as_slice(), like as usize, row) {
        return like;
    }
    if are_runs_equal_to_row(lengths.as_slice(), values.as_slice(), 0, row) {
        return 0;
    }
    let behind = values.len() as u32;
    append_row(lengths, values, row);
    behind
}

// Adds so many copies where there is room for them.
fn push_copies_of_value<T: Cell>(into: &mut ReservedList<T>, count: usize, value: T)
    requires { count ≤ into.old.spare }
    ensures items { into.new.items ≡ into.old.items ++ replicate count value }
    ensures spare { into.new.spare + count ≡ into.old.spare }
{
    for _ in 0..count {
        into.push(value);
    }
}

// Adds the row whose runs begin at an index.
fn expand_runs_into_row<T: Cell>(
    lengths: &[u8],
    values: &[T],
    start: usize,
    long: usize,
    into: &mut ReservedList<T>,
)
    requires pairs { length lengths.now ≡ length values.now }
    requires whole { long ≤ length (from_run lengths.now values.now start) }
    requires room { long ≤ into.old.spare }
    ensures { into.new.items ≡ into.old.items ++ row_at long lengths.now values.now start }
{
    let mut at = start;
    let mut left = long;
    while left > 0 {
        let count = left.min(lengths[at] as usize);
        push_copies_of_value(into, count, values[at]);
        left -= count;
        at += 1;
    }
}

impl<T: Cell> Table<T> {
    /// So many places, each with a row of so many blanks, and room for as many rows.
    pub fn make(alloc: Global, count: usize, long: u32, blank: T) -> Result<Table<T>, AllocError>
        requires few { count ≤ MOST_TASKS }
        requires size { count * long ≤ MOST_WORK }
        ensures rows { IfOk result (λ t. t.rows ≡ replicate count (replicate long blank)) }
        ensures long { IfOk result (λ t. t.long ≡ long) }
        ensures left { IfOk result (λ t. t.left ≡ count) }
    {
        let long = long as usize;
        let room = count * long + long;
        let starts = make_zero_run_starts(alloc, count)?;
        let mut lengths = Vec::with_capacity(alloc, room)?;
        let mut values = Vec::with_capacity(alloc, room)?;
        append_runs_of_value(&mut lengths, &mut values, long, blank);
        Ok(Table {
            long,
            starts,
            used: 0,
            lengths,
            values,
        })
    }

    /// Writes a row at an index. `like` is a place whose row may well be the same: then no run is
    /// written. Takes no memory.
    pub fn put(&mut self, index: usize, row: &[T], like: usize)
        requires index { index < length self.old.rows }
        requires long { length row.now ≡ self.old.long }
        requires like { like < length self.old.rows }
        requires left { 1 ≤ self.old.left }
        ensures rows { self.new.rows ≡ slice_set self.old.rows index row.now }
        ensures long { self.new.long ≡ self.old.long }
        ensures left { self.old.left ≤ self.new.left + 1 }
    {
        let like = self.starts[like];
        let start = find_or_append_runs_of_row(&mut self.lengths, &mut self.values, like, row);
        self.starts[index] = start;
        self.used += 1;
    }

    /// Leaves the row at an index in a list that has room for it. Takes no memory.
    pub fn take(&self, index: usize, into: &mut ReservedList<T>)
        requires index { index < length self.now.rows }
        requires room { self.now.long ≤ length into.old.items + into.old.spare }
        ensures row { into.new.items ≡ slice_index_or self.now.rows index [] }
        ensures long { length into.new.items ≡ self.now.long }
    {
        into.clear();
        let start = self.starts[index] as usize;
        expand_runs_into_row(&self.lengths, &self.values, start, self.long, into);
    }
}
