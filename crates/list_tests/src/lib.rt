//! Tests of lists of best entries, whose marks stand one by one or in runs: worked sums and products. Those of other
//! semirings are in algebra_tests.
#![tactic(auto)]

#[cfg(test)]
mod best_lists;
#[cfg(test)]
mod runs;
