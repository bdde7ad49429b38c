//! Graphs of majorities by cuts of four leaves: nodes get other forms, by recipes for what they compute from four
//! others, each kept only where its table is that of the node.
#![tactic(auto)]

mod and_lines;
mod choose;
mod choose_grown;
mod cuts;
mod forms;
mod pass;
mod recipe_lines;
mod recipes;
#[cfg(test)]
mod tests;

pub use pass::CutRewriting;
