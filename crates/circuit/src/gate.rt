// Gates of a net of majorities and inverters.

/// A gate. Others name it by its place in the list of gates, counted from 0.
#[derive(Clone, Copy, PartialEq, Eq)]
pub enum Gate {
    /// Shows the bit of the word that this input has.
    Input(u32),
    /// Gives false.
    Zero,
    /// Gives true.
    One,
    /// Keeps the value of a gate.
    Buf(u32),
    /// Negates the value of a gate.
    Inv(u32),
    /// Gives the value that at least two of three gates have.
    Maj(u32, u32, u32),
}
