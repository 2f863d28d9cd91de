//! Lists of floating-point numbers, tables of them, and a symmetric matrix with its root. All memory is taken when a
//! table or a matrix is made. Each sum has one order, and only + - * / and the square root are used, so that every
//! machine has the same bits. Contracts say the lengths; of the numbers they say nothing.
#![tactic(auto)]

pub mod matrix;
pub mod table;
pub mod vectors;
