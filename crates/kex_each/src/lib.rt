//! What a program answers to each line of a text by itself.
//!
//! Uses stages, which begin anew with each line. `Lines` finds the lines in the pieces of a
//! text, a clerk answers one after the other, and desks share them out among threads; `LineAnswers`
//! is all of that together.
#![tactic(auto)]

mod batches;
mod clerk;
mod desk;
mod desks;
pub mod laws;
mod line_answers;
mod lines;
mod texts;

pub use batches::{answer, batch};
pub use clerk::Clerk;
pub use desks::Desks;
pub use line_answers::LineAnswers;
pub use lines::Lines;
pub use texts::Texts;
