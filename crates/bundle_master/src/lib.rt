//! The master problem of a proximal bundle method, solved by a primal-dual interior point method.
//!
//! The dual value of prices is a concave function, of which each schedule of a unit gives a cut. The master problem is
//! that of the cuts with a ridge round a centre (Kiwiel 1990, Lemarechal 1978): shares of each unit's schedules whose
//! cost is least, where what they lack of the amounts due is priced. Its prices are the next to be tried, and its
//! shares a mixture of schedules (Dubost, Gonzalez and Lemarechal 2005). Newton's method follows the path on which all
//! products of shares and reduced costs are equal (Wright 1997, Primal-Dual Interior-Point Methods).
//!
//! Amounts are in megawatts, costs in the currency, prices in currency for a megawatt hour. Rows 0 to T - 1 are the
//! energy of each period, and rows T to 2T - 1 the reserve. All memory is taken when a master problem is made, each
//! sum has one order, and each loop is counted. Contracts say counts and lengths; of the numbers they say nothing.
#![tactic(auto)]

mod columns;
pub mod master;
pub mod numbers;
mod pace;
mod rows;
mod singles;
mod units;
