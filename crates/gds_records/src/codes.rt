//! Record types and data types, by their names in the GDSII Stream Format manual.

/// Begins a stream, with the version of the format.
pub const HEADER: u8 = 0x00;
/// Begins the library, with the dates when it was last modified and last read.
pub const BGNLIB: u8 = 0x01;
/// The library's name.
pub const LIBNAME: u8 = 0x02;
/// A database unit in user units, and in metres.
pub const UNITS: u8 = 0x03;
/// Ends the library and the stream.
pub const ENDLIB: u8 = 0x04;
/// Begins a structure, with the dates when it was made and last modified.
pub const BGNSTR: u8 = 0x05;
/// A structure's name.
pub const STRNAME: u8 = 0x06;
/// Ends a structure.
pub const ENDSTR: u8 = 0x07;
/// Begins a boundary, a filled polygon.
pub const BOUNDARY: u8 = 0x08;
/// Begins a path, a line of some width.
pub const PATH: u8 = 0x09;
/// Begins a reference to a structure.
pub const SREF: u8 = 0x0A;
/// Begins an array of references to one structure.
pub const AREF: u8 = 0x0B;
/// Begins a text.
pub const TEXT: u8 = 0x0C;
/// An element's layer.
pub const LAYER: u8 = 0x0D;
/// The datatype of a boundary or a path.
pub const DATATYPE: u8 = 0x0E;
/// The width of a path or of a text's lines, in database units; below 0 it is not magnified.
pub const WIDTH: u8 = 0x0F;
/// An element's points in database units, x and y of each in turn.
pub const XY: u8 = 0x10;
/// Ends an element.
pub const ENDEL: u8 = 0x11;
/// The name of the structure that a reference places.
pub const SNAME: u8 = 0x12;
/// The columns and the rows of an array.
pub const COLROW: u8 = 0x13;
/// The type of a text, which has no datatype.
pub const TEXTTYPE: u8 = 0x16;
/// The font of a text, and how it is aligned with its point.
pub const PRESENTATION: u8 = 0x17;
/// The characters of a text.
pub const STRING: u8 = 0x19;
/// Flags of a reference or a text: mirrored at the x axis, absolute magnification, absolute angle.
pub const STRANS: u8 = 0x1A;
/// The magnification of a reference or a text.
pub const MAG: u8 = 0x1B;
/// The angle of a reference or a text, in degrees counterclockwise.
pub const ANGLE: u8 = 0x1C;
/// The names of the reference libraries.
pub const REFLIBS: u8 = 0x1F;
/// The names of the files that define the text fonts.
pub const FONTS: u8 = 0x20;
/// The ends of a path: 0 square at its end points, 1 round, 2 square and half the width past them.
pub const PATHTYPE: u8 = 0x21;
/// How many copies of deleted or changed structures are retained.
pub const GENERATIONS: u8 = 0x22;
/// The name of the file that defines the attributes.
pub const ATTRTABLE: u8 = 0x23;
/// Flags of an element: template data, external data.
pub const ELFLAGS: u8 = 0x26;
/// The number of a property of an element.
pub const PROPATTR: u8 = 0x2B;
/// The value of the property whose number stands before it.
pub const PROPVALUE: u8 = 0x2C;
/// The number of the plex, a group of elements, that an element belongs to.
pub const PLEX: u8 = 0x2F;

// The data types.

/// The record is its head alone.
pub const NO_DATA: u8 = 0;
/// Two bytes of flags.
pub const BIT_ARRAY: u8 = 1;
/// Integers of two bytes, the high one first.
pub const TWO_BYTE_INTEGER: u8 = 2;
/// Integers of four bytes in two's complement, the high one first.
pub const FOUR_BYTE_INTEGER: u8 = 3;
/// Reals of eight bytes: a sign, an exponent of 16 in excess of 64, and a fraction of 56 bits.
pub const EIGHT_BYTE_REAL: u8 = 5;
/// Characters, with a zero byte behind an odd number of them.
pub const ASCII_STRING: u8 = 6;
