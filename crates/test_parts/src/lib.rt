//! Tests of one crate each: files named after the crate that is tested, or after a part of it,
//! `small_cases` for what several of them begin from, and `same` and `tree_values` for what they
//! compare. They stand above those crates, which so are proved without tests alone.
#![tactic(auto)]

#[cfg(test)]
mod board_store_tests;
#[cfg(test)]
mod bundle_master_tests;
#[cfg(test)]
mod convex_text_tests;
#[cfg(test)]
mod cost_curve_tests;
#[cfg(test)]
mod decimal_tests;
#[cfg(test)]
mod dense_matrix_tests;
#[cfg(test)]
mod flat_answer_tests;
#[cfg(test)]
mod gap_proof_tests;
#[cfg(test)]
mod hull_io_tests;
#[cfg(test)]
mod mixture_bound_tests;
#[cfg(test)]
mod plan_check_tests;
#[cfg(test)]
mod price_space_tests;
#[cfg(test)]
mod report_read_tests;
#[cfg(test)]
mod same;
#[cfg(test)]
mod small_cases;
#[cfg(test)]
mod task_deal_tests;
#[cfg(test)]
mod tree_tests;
#[cfg(test)]
mod tree_values;
#[cfg(test)]
mod uc_mixture_tests;
#[cfg(test)]
mod uc_prices_tests;
#[cfg(test)]
mod uc_text_tests;
#[cfg(test)]
mod word_tests;
