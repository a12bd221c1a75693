//! What a voter keeps of its views, how far it is, and what that answers to whoever asks what is due.
#![tactic(auto)]

mod beginning;
mod knowing;
mod looking;
mod progress;
mod views;

pub use views::Views;
