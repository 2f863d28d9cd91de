//! A symmetric matrix with its root, which solves linear equations.
ghost use Rattle.std.specs.Prelude.{◌≡◌, ◌+◌, ◌*◌, ◌<◌, ◌≤◌, length, IfOk};

use crate::table::Table;
use crate::vectors::{add_multiple, dot_product};
use std::alloc::{AllocError, Global};
use std::marker::Model;

/// How many columns are multiplied at once.
const GROUP: usize = 4;

/// A pivot that is no greater, or no number, is taken for one whose root is ROOT_OF_NONE: its unknown is then nearly 0.
const LEAST_PIVOT: f64 = 1e-30;

const ROOT_OF_NONE: f64 = 1e60;

/// A symmetric matrix of so many rows, of which the upper triangle is kept. Contracts see the number of rows.
pub struct Matrix {
    size: usize,
    entries: Vec<f64>,
    // Columns whose products aren't added.
    columns: Table,
    waiting: usize,
    // The row of the last pivot.
    pivot_row: Vec<f64>,
}

// By hand, so that dropping it is one call.
impl Drop for Matrix {
    fn drop(self) {
        let Matrix {
            size: _,
            entries: _,
            columns: _,
            waiting: _,
            pivot_row: _,
        } = self;
    }
}

impl Model for Matrix {
    ghost use Rattle.std.specs.Prelude.{ℕ, ◌≡◌, ◌*◌, ◌<◌, ◌≤◌, length};

    ghost Value = { ℕ };

    ghost view = { λ m. m.size };

    ghost invariant = { λ m. (length m.entries.items ≡ m.size * m.size)
        × (m.columns ≡ record { height = 4; width = m.size })
        × (m.waiting < 4) × (length m.pivot_row.items ≡ m.size) × (m.size ≤ 100000) };
}

// Adds to a row, from its entry on the diagonal on, the products of four columns from that row on.
fn add_products_to_row(row: &mut [f64], a: &[f64], b: &[f64], c: &[f64], d: &[f64])
    requires some { 0 < length row.old }
    requires a { length a.now ≡ length row.old }
    requires b { length b.now ≡ length row.old }
    requires c { length c.now ≡ length row.old }
    requires d { length d.now ≡ length row.old }
{
    let (of_a, of_b, of_c, of_d) = (a[0], b[0], c[0], d[0]);
    if of_a == 0.0 && of_b == 0.0 && of_c == 0.0 && of_d == 0.0 {
        return;
    }
    for at in 0..a.len() {
        row[at] += of_a * a[at] + of_b * b[at] + of_c * c[at] + of_d * d[at];
    }
}

// Adds the products of four columns, row by row: a row whose entries are 0 in all four stays.
fn add_columns(entries: &mut [f64], size: usize, columns: &Table)
    requires entries { length entries.old ≡ size * size }
    requires columns { columns.now ≡ record { height = 4; width = size } }
    requires size { size ≤ 100000 }
{
    let a = columns.row(0);
    let b = columns.row(1);
    let c = columns.row(2);
    let d = columns.row(3);
    for row in 0..size {
        let start = row * size;
        add_products_to_row(
            &mut entries[start + row..start + size],
            &a[row..],
            &b[row..],
            &c[row..],
            &d[row..],
        );
    }
}

// Divides the entries of a row by a number, and leaves them in another list too.
fn divide_row(row: &mut [f64], by: f64, copy: &mut [f64])
    requires { length copy.old ≡ length row.old }
{
    for at in 0..row.len() {
        let quotient = row[at] / by;
        row[at] = quotient;
        copy[at] = quotient;
    }
}

fn square_root_of_pivot(pivot: f64) -> f64 {
    if pivot > LEAST_PIVOT {
        pivot.sqrt()
    } else {
        ROOT_OF_NONE
    }
}

impl Matrix {
    /// A matrix of 0.
    pub fn make(alloc: Global, size: usize) -> Result<Matrix, AllocError>
        requires { size ≤ 100000 }
        ensures { IfOk result (λ matrix. matrix ≡ size) }
    {
        let entries = vec![in alloc; 0.0; size * size]?;
        let columns = Table::make(alloc, GROUP, size)?;
        let pivot_row = vec![in alloc; 0.0; size]?;
        Ok(Matrix {
            size,
            entries,
            columns,
            waiting: 0,
            pivot_row,
        })
    }

    /// Makes all entries 0.
    pub fn clear(&mut self)
        ensures { self.new ≡ self.old }
    {
        self.entries.fill(0.0);
        self.waiting = 0;
    }

    /// Adds the product of a column with itself: so much times what one list is above another.
    /// `add_remaining_outer_products` has to follow.
    pub fn add_outer_product_of_column(&mut self, factor: f64, list: &[f64], base: &[f64])
        requires list { length list.now ≡ self.old }
        requires base { length base.now ≡ self.old }
        ensures { self.new ≡ self.old }
    {
        let index = self.waiting;
        self.columns.set_difference(index, factor, list, base);
        if index + 1 == GROUP {
            self.add_group_of_outer_products();
        } else {
            self.waiting = index + 1;
        }
    }

    /// Adds the products of the columns that are left.
    pub fn add_remaining_outer_products(&mut self)
        ensures { self.new ≡ self.old }
    {
        if self.waiting == 0 {
            return;
        }
        self.columns.clear_from(self.waiting);
        self.add_group_of_outer_products();
    }

    fn add_group_of_outer_products(&mut self)
        ensures { self.new ≡ self.old }
    {
        self.waiting = 0;
        add_columns(&mut self.entries, self.size, &self.columns);
    }

    /// Adds to an entry on the diagonal.
    pub fn add_to_diagonal(&mut self, row: usize, amount: f64)
        requires { row < self.old }
        ensures { self.new ≡ self.old }
    {
        self.entries[row * self.size + row] += amount;
    }

    /// Leaves the root in place of the matrix: the upper triangle U with U'U the matrix (Cholesky; Golub and Van Loan,
    /// Matrix Computations, 4.2.5, row by row).
    pub fn factor(&mut self)
        ensures { self.new ≡ self.old }
    {
        for pivot in 0..self.size {
            self.divide_pivot_row_by_root(pivot);
            for row in pivot + 1..self.size {
                self.subtract_pivot_row_multiple(row);
            }
        }
    }

    // The row of a pivot becomes one of the root.
    fn divide_pivot_row_by_root(&mut self, pivot: usize)
        requires { pivot < self.old }
        ensures { self.new ≡ self.old }
    {
        let start = pivot * self.size;
        let root = square_root_of_pivot(self.entries[start + pivot]);
        divide_row(
            &mut self.entries[start + pivot..start + self.size],
            root,
            &mut self.pivot_row[pivot..],
        );
        self.entries[start + pivot] = root;
    }

    // Takes the product of the pivot's row with itself off a later row.
    fn subtract_pivot_row_multiple(&mut self, row: usize)
        requires { row < self.old }
        ensures { self.new ≡ self.old }
    {
        let factor = self.pivot_row[row];
        if factor != 0.0 {
            let start = row * self.size;
            add_multiple(
                &mut self.entries[start + row..start + self.size],
                -factor,
                &self.pivot_row[row..],
            );
        }
    }

    // The row of a root from its entry on the diagonal on.
    fn row_of_cholesky_factor(&self, row: usize) -> &[f64]
        requires { row < self.now }
        ensures { length result.now + row ≡ self.now }
    {
        let start = row * self.size;
        &self.entries[start + row..start + self.size]
    }

    /// Leaves the solution of the equations with that right-hand side in its place, where the matrix is a root.
    pub fn solve(&self, right: &mut [f64])
        requires { length right.old ≡ self.now }
    {
        for row in 0..right.len() {
            let of_root = self.row_of_cholesky_factor(row);
            let unknown = right[row] / of_root[0];
            right[row] = unknown;
            add_multiple(&mut right[row + 1..], -unknown, &of_root[1..]);
        }
        for done in 0..right.len() {
            let row = right.len() - 1 - done;
            let of_root = self.row_of_cholesky_factor(row);
            let rest = right[row] - dot_product(&of_root[1..], &right[row + 1..]);
            right[row] = rest / of_root[0];
        }
    }
}
