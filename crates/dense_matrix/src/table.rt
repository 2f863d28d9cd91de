//! A table of numbers.
ghost use Rattle.std.specs.Prelude.{◌≡◌, ◌<◌, ◌≤◌, length, IfOk};

use crate::vectors::write_difference;
use std::alloc::{AllocError, Global};
use std::marker::Model;

/// Rows of equal length. Contracts see how many there are, and the length.
pub struct Table {
    height: usize,
    width: usize,
    entries: Vec<f64>,
}

// By hand, so that dropping it is one call.
impl Drop for Table {
    fn drop(self) {
        let Table {
            height: _,
            width: _,
            entries: _,
        } = self;
    }
}

impl Model for Table {
    ghost use Rattle.std.specs.Prelude.{◌≡◌, ◌*◌, length};
    ghost use Rattle.dense_matrix.specs.Table.{Extent};

    ghost Value = { Extent };

    ghost view = { λ t. record { height = t.height; width = t.width } };

    ghost invariant = { λ t. length t.entries.items ≡ t.height * t.width };
}

impl Table {
    /// A table of 0.
    pub fn make(alloc: Global, height: usize, width: usize) -> Result<Table, AllocError>
        requires height { height ≤ 1000000 }
        requires width { width ≤ 1000000 }
        ensures { IfOk result (λ table. table ≡ record { height = height; width = width }) }
    {
        let entries = vec![in alloc; 0.0; height * width]?;
        Ok(Table {
            height,
            width,
            entries,
        })
    }

    /// How many rows there are.
    pub fn height(&self) -> usize
        ensures { result ≡ self.now.height }
    {
        self.height
    }

    /// Lends a row.
    pub fn row(&self, row: usize) -> &[f64]
        requires { row < self.now.height }
        ensures { length result.now ≡ self.now.width }
    {
        let start = row * self.width;
        &self.entries[start..start + self.width]
    }

    /// Writes an entry.
    pub fn set(&mut self, row: usize, at: usize, entry: f64)
        requires row { row < self.old.height }
        requires at { at < self.old.width }
        ensures { self.new ≡ self.old }
    {
        self.entries[row * self.width + at] = entry;
    }

    /// Makes the entries of the rows from one on 0.
    pub fn clear_from(&mut self, row: usize)
        requires { row < self.old.height }
        ensures { self.new ≡ self.old }
    {
        self.entries[row * self.width..].fill(0.0);
    }

    /// Leaves a multiple of what one list is above another in a row.
    pub fn set_difference(&mut self, row: usize, factor: f64, list: &[f64], base: &[f64])
        requires row { row < self.old.height }
        requires list { length list.now ≡ self.old.width }
        requires base { length base.now ≡ self.old.width }
        ensures { self.new ≡ self.old }
    {
        let start = row * self.width;
        write_difference(
            &mut self.entries[start..start + self.width],
            factor,
            list,
            base,
        );
    }
}
