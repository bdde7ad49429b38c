// Nets by connectivity: which shapes touch, and what is joined.
pub mod neighbours;
pub mod net_chains;
pub mod net_walk;
pub mod touching;
