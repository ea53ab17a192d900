// The words of the trade, and the figures that bound them.
#![tactic(auto)]

pub mod answer;
pub mod clock;
pub mod flow;
pub mod layout;
pub mod limits;
pub mod node;
pub mod refusal;
pub mod state;
pub mod told;

pub use answer::Answer;
pub use clock::{Clock, Instance, Slot, Step};
pub use flow::{Flow, Plan};
pub use layout::Book;
pub use node::{Node, Transmission};
pub use refusal::Refusal;
pub use state::{Grant, Progress, Run};
pub use told::Told;
