//! Circuit extraction with electrical rule checks: the circuit that a layout's shapes make, or the first rule of
//! circuits that they break.
#![tactic(auto)]

mod circuits;
mod connectivity;
mod distinct_shapes;
mod extracting;
mod extraction;
mod filed_shapes;
mod kinds;
mod layers;
mod lengths;
mod lines;
mod pairs;
mod planes;
mod rules;
mod search;
mod tables;

pub use circuit_extracted::{ExCell, Extracted, Feed, one_answer};
pub use circuits::cell_places::cells_have_places;
pub use circuits::cell_spans::{Span, cell_spans};
pub use circuits::first_chip::first_chip_extracted;
pub use circuits::kept_laws::{extracted_keeps, some_circuit};
pub use circuits::uniqueness::one_circuit;
pub use connectivity::net_walk::nets;
pub use distinct_shapes::{Distinct, distinct_of};
pub use extracting::{extract, extract_filed};
pub use extraction::ExtractRefusal;
pub use filed_shapes::{FiledShapes, file_kinds};
pub use kinds::Kinds;
pub use layers::{is_frame, is_lower, is_metal, is_pin, is_upper, is_via};
pub use layout_rules::Rule;
pub use lengths::net_lengths;
pub use pairs::{PairTest, list_partners, list_passing};
pub use planes::{FiledPlane, Plane, Planes, file_planes};
pub use rowed::Source;
pub use search::{Part, Report, first_of};
pub use tables::row_edges::{lower_edge, rows};
