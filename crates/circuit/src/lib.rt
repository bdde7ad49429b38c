//! Words, cell kinds, gates, what answers words, and what makes one circuit of another.
#![tactic(auto)]

mod answers;
mod cell_kind;
mod gate;
mod pass;
mod plain_net;
mod ranked;
mod values;

pub use answers::{Answers, answer_word};
use aq_base::List;
pub use cell_kind::CellKind;
pub use gate::Gate;
pub use pass::{Pass, Then, ThenRefusal};
pub use plain_net::PlainNet;
pub use ranked::ranked_equations;
pub use values::{gate_values, shown_values, value_at};

/// A list of truth values: the first is that of input or output 0.
pub type Word = List<bool>;
