//! Linear sums over the numbers of a bank: those that terms are, what formulas say of them, and what weighted sums of facts give.
#![tactic(auto)]

mod adding;
mod bounds;
mod facts;
mod forms;
mod numbers;
mod parts;
mod summed;
mod table;

pub use adding::{add_weighted, weighted};
pub use bounds::sum;
pub use facts::{equality_fact, sum_fact};
pub use forms::{LinearSum, Part, SumFact};
pub use parts::add_times;
pub use summed::linear;
pub use table::{KeptSum, SumTable};
