// The rule of excitation lines: their parts, the walk along them, and the frames that they excite.
pub mod contacts;
pub mod crossed_bars;
pub mod excitation_rule;
pub mod excited_frames;
pub mod line_parts;
pub mod line_walk;
pub mod reached_parts;
pub mod starts;
pub mod unknown_parts;
pub mod ways;
