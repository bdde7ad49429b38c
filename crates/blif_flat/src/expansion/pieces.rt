// What the block of a model holds.
use aq_base::List;
use blif_read::Def;

/// A piece of a model's block, by places in the block.
#[derive(Drop)]
pub enum Piece {
    /// A definition of the next wire.
    Own(Def),
    /// The block of a called model, which starts at a place.
    Inner { model: u32, start: u32 },
}

/// The pieces of a block.
pub type Block = List<Piece>;
