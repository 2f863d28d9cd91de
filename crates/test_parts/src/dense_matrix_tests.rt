//! A matrix of two rows, by hand.
use crate::same::same;
use dense_matrix::matrix::Matrix;
use dense_matrix::vectors::dot_product;
use std::test::Fail;

// (4 2, 2 5) has the root (2 1, 0 2); at (8, 12) the unknowns are 1 and 2.
#[test]
fn solves_two_equations(rt: HostRuntime) -> Result<(), Fail> {
    let mut matrix = Matrix::make(rt.alloc(), 2)?;
    matrix.clear();
    matrix.add_outer_product_of_column(2.0, &[2.0, 1.5], &[1.0, 1.0]);
    matrix.add_remaining_outer_products();
    matrix.add_to_diagonal(1, 4.0);
    matrix.factor();
    let mut right = [8.0, 12.0];
    matrix.solve(&mut right);
    same(&rt, right[0], 1.0);
    same(&rt, right[1], 2.0);
    Ok(())
}

// Five columns (1, 0) and one (0, 1): the diagonal is 5 and 1.
#[test]
fn adds_each_column_once(rt: HostRuntime) -> Result<(), Fail> {
    let mut matrix = Matrix::make(rt.alloc(), 2)?;
    for _ in 0..5 {
        matrix.add_outer_product_of_column(1.0, &[1.0, 0.0], &[0.0, 0.0]);
    }
    matrix.add_outer_product_of_column(1.0, &[0.0, 1.0], &[0.0, 0.0]);
    matrix.add_remaining_outer_products();
    matrix.factor();
    let mut right = [10.0, 3.0];
    matrix.solve(&mut right);
    assert!(rt; right[0] > 1.999999 && right[0] < 2.000001);
    same(&rt, right[1], 3.0);
    Ok(())
}

// Where a pivot is 0 the unknown is nearly 0, and the others are right.
#[test]
fn passes_over_a_row_of_nothing(rt: HostRuntime) -> Result<(), Fail> {
    let mut matrix = Matrix::make(rt.alloc(), 2)?;
    matrix.add_to_diagonal(1, 4.0);
    matrix.factor();
    let mut right = [3.0, 8.0];
    matrix.solve(&mut right);
    assert!(rt; right[0] >= 0.0 && right[0] < 1e-100);
    same(&rt, right[1], 2.0);
    Ok(())
}

// 1 * 6 + 2 * 5 + 3 * 4 + 4 * 3 + 5 * 2 + 6 * 1
#[test]
fn multiplies_lists(rt: HostRuntime) {
    let up = [1.0, 2.0, 3.0, 4.0, 5.0, 6.0];
    let down = [6.0, 5.0, 4.0, 3.0, 2.0, 1.0];
    same(&rt, dot_product(&up, &down), 56.0);
}
