// An order entered in trading: the plan of what it meets, and carrying it out.
#![tactic(auto)]

mod filling;
mod limits;
mod next;
mod planning;
mod plans;

pub use filling::carry_out;
pub use planning::plan;
pub use plans::Plan;
