//! Tests of gta_meaning: worked examples by hand, each call once with ample memory.
#![tactic(auto)]

#[cfg(test)]
mod meaning;
