// The partial derivatives of expressions in lent columns: rows are found or added, and a derivative's list is walked, never stored.

#![tactic(auto)]

mod intern;
pub mod rows;
mod sides;
pub mod walk;
