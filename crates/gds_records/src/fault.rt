// What can be wrong with a stream.

/// What is wrong with bytes that are no stream.
#[derive(Clone, Copy, Debug, PartialEq, Eq)]
pub enum StreamKind {
    /// The bytes end inside a record, or before ENDLIB.
    Truncated,
    /// A record's length is below 4, odd, or not one of its type's lengths.
    Length,
    /// A record may not stand at its place.
    Order,
    /// A record's data type is not that of its type.
    DataType,
    /// A record's content is not allowed, or a byte that is not zero stands after ENDLIB.
    Value,
    /// A record or a turn that this project doesn't read, or a reference to a structure that holds references.
    Unsupported,
    /// A reference to a structure that is not in the stream.
    UnknownName,
    /// A boundary that is no rectangle with sides along the axes.
    NotRectangle,
    /// More than one structure is referenced by none.
    SeveralTops,
    /// There is no structure that is referenced by none.
    NoTop,
}
