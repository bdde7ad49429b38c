// Models by their names: what a call calls, which names are joined, how wide a model is, and how large a design.
pub mod calls;
pub mod indexed;
pub mod joins;
pub mod links;
pub mod names;
pub mod numbers;
pub mod outlines;
pub mod sizes;
