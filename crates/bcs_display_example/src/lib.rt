//! Examples of formats: a sound value for each, and its JSON, for you to fill in.
#![tactic(auto)]

mod depth_ranks;
mod example;
mod example_options;
mod fault;
mod filling;
mod least_examples;
mod making;
mod needed;
mod node_budget;
mod node_counts;
mod part;
mod place;
mod text;

pub use example::example_with;
pub use example_options::{ExampleForm, ExampleOptions};
pub use fault::{ExampleOptionsFault, ExampleTextFault};
pub use text::example_text;
