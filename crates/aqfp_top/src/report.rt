// The line that a fault puts to `err`.
ghost use Rattle.std.specs.Prelude.{◌≡◌, ◌<◌, length, Some};
ghost use Rattle.aqfp_top.specs.Words.{spelled};
ghost use Rattle.aqfp_top.specs.Lines.{line_of, netlist_line, library_line, missing_line, line_kind_text};
ghost use Rattle.aqfp_top.specs.Lines.{design_kind_text, cell_fault_text, large_text, stream_kind_text};
ghost use Rattle.aqfp_top.specs.Lines.{named as named_line, Reports, IsCutShort, HasPlace};
ghost use Rattle.cell_library.specs.Kinds.{key_of};
ghost use Rattle.layout_rules.specs.RuleTable.{name_of};
ghost use Rattle.aqfp_top.specs.Code.Pieces.{pieces_text};

use crate::fault::{Fault, Large};
use crate::pieces::{Piece, put_pieces};
use crate::words::word;
use aq_base::Sink;
use blif_flat::FlatKind;
use blif_read::{BlifFault, LineKind};
use cell_library::{LibraryFault, kind_key};
use cell_netlist::CellFault;
use circuit::CellKind;
use gds_records::StreamKind;
use layout_rules::Rule;

fn line_kind(kind: &LineKind) -> &[u8]
    ensures { result.now ≡ line_kind_text kind.now }
{
    match kind {
        LineKind::Token => b"token",
        LineKind::Unsupported => b"unsupported",
        LineKind::SecondModel => b"second model",
        LineKind::RowShape => b"row shape",
        LineKind::RowValue => b"row value",
        LineKind::RowAlone => b"row alone",
        LineKind::Duplicate => b"duplicate",
        LineKind::Undefined => b"undefined",
        LineKind::NoOutputs => b"no outputs",
    }
}

fn design_kind(kind: &FlatKind) -> &[u8]
    ensures { result.now ≡ design_kind_text kind.now }
{
    match kind {
        FlatKind::ModelTwice => b"model twice",
        FlatKind::UnknownModel => b"unknown model",
        FlatKind::Ports => b"ports",
        FlatKind::Duplicate => b"duplicate",
        FlatKind::Undefined => b"undefined",
        FlatKind::Recursive => b"recursive",
        FlatKind::NoOutputs => b"no outputs",
    }
}

fn cell_fault(kind: &CellFault) -> &[u8]
    ensures { result.now ≡ cell_fault_text kind.now }
{
    match kind {
        CellFault::Cover => b"cover",
        CellFault::Uses => b"uses",
        CellFault::Level => b"level",
        CellFault::Outputs => b"outputs",
    }
}

// The key of a kind in a library, lent as long as the kind is.
fn library_key(kind: &CellKind) -> &[u8]
    ensures { result.now ≡ key_of kind.now }
{
    kind_key(*kind).as_bytes()
}

// The name of a rule, lent as long as the rule is.
fn rule_name(rule: &Rule) -> &[u8]
    ensures { result.now ≡ name_of rule.now }
{
    rule.name()
}

fn large(what: &Large) -> &[u8]
    ensures { result.now ≡ large_text what.now }
{
    match what {
        Large::Slots => b"slots",
        Large::Rows => b"rows",
        Large::Cells => b"cells",
        Large::Elements => b"elements",
        Large::Shapes => b"shapes",
        Large::Functions => b"functions",
        Large::Design => b"design",
    }
}

fn stream_kind(kind: &StreamKind) -> &[u8]
    ensures { result.now ≡ stream_kind_text kind.now }
{
    match kind {
        StreamKind::Truncated => b"truncated",
        StreamKind::Length => b"length",
        StreamKind::Order => b"order",
        StreamKind::DataType => b"data type",
        StreamKind::Value => b"value",
        StreamKind::Unsupported => b"unsupported",
        StreamKind::UnknownName => b"unknown name",
        StreamKind::NotRectangle => b"not a rectangle",
        StreamKind::SeveralTops => b"several tops",
        StreamKind::NoTop => b"no top",
    }
}

// A text that is the same for each fault of its kind; it is lent as long as the fault is.
fn text<'a, F>(_fault: &'a F, all: &'a [u8]) -> [Piece<'a>; 5]
    ensures { pieces_text result ≡ all.now }
{
    [
        Piece::Text(all),
        Piece::Text(b""),
        Piece::Text(b""),
        Piece::Text(b""),
        Piece::Text(b""),
    ]
}

fn named<'a>(words: &'a [String], place: u32, tail: &'a [u8]) -> [Piece<'a>; 5]
    requires { place < length words.now }
    ensures { pieces_text result ≡ named_line (spelled words.now) place tail.now }
{
    [
        Piece::Text(b"aqfp: "),
        Piece::Name(word(words, place as usize).as_bytes()),
        Piece::Text(tail),
        Piece::Text(b""),
        Piece::Text(b""),
    ]
}

fn netlist_pieces(fault: &BlifFault) -> [Piece<'_>; 5]
    ensures { pieces_text result ≡ netlist_line fault.now }
{
    match fault {
        BlifFault::Line { line, kind } => [
            Piece::Text(b"aqfp: line "),
            Piece::Number(*line),
            Piece::Text(b": "),
            Piece::Text(line_kind(kind)),
            Piece::Text(b"\n"),
        ],
        BlifFault::Cycle { line, signals } => [
            Piece::Text(b"aqfp: line "),
            Piece::Number(*line),
            Piece::Text(b": cycle"),
            Piece::Signals(signals),
            Piece::Text(b"\n"),
        ],
    }
}

fn missing_pieces(kind: &CellKind) -> [Piece<'_>; 5]
    ensures { pieces_text result ≡ missing_line kind.now }
{
    [
        Piece::Text(b"aqfp: library: missing "),
        Piece::Text(library_key(kind)),
        Piece::Text(b"\n"),
        Piece::Text(b""),
        Piece::Text(b""),
    ]
}

fn library_pieces(fault: &LibraryFault) -> [Piece<'_>; 5]
    ensures { pieces_text result ≡ library_line fault.now }
{
    match fault {
        LibraryFault::Text => text(fault, b"aqfp: library: text\n"),
        LibraryFault::Key { key } => [
            Piece::Text(b"aqfp: library: key "),
            Piece::Name(key.as_slice()),
            Piece::Text(b"\n"),
            Piece::Text(b""),
            Piece::Text(b""),
        ],
        LibraryFault::Value { key, value } => [
            Piece::Text(b"aqfp: library: "),
            Piece::Name(key.as_slice()),
            Piece::Text(b" = "),
            Piece::Integer(*value),
            Piece::Text(b"\n"),
        ],
        LibraryFault::Law { number } => [
            Piece::Text(b"aqfp: library: law "),
            Piece::Number(u64::from(*number)),
            Piece::Text(b"\n"),
            Piece::Text(b""),
            Piece::Text(b""),
        ],
        LibraryFault::Missing { kind } => missing_pieces(kind),
    }
}

// The pieces of a fault's line.
fn pieces_of<'a>(words: &'a [String], fault: &'a Fault) -> [Piece<'a>; 5]
    requires { HasPlace (spelled words.now) fault.now }
    ensures { pieces_text result ≡ line_of (spelled words.now) fault.now }
{
    match fault {
        Fault::Usage => [
            Piece::Text(
                b"aqfp: usage: build NET LIB OUT, compact NET LIB OUT, draw NET LIB OUT, verify GDS LIB WORDS, ",
            ),
            Piece::Text(b"trace GDS LIB WORDS, sample N, netlist GDS LIB OUT, equal GDS LIB NET, "),
            Piece::Text(b"report GDS LIB, shapes GDS A B\n"),
            Piece::Text(b""),
            Piece::Text(b""),
        ],
        Fault::Absent { word } => named(words, *word, b": absent\n"),
        Fault::TooLong { word, .. } => named(words, *word, b": too long\n"),
        Fault::ReadFault { word } => named(words, *word, b": read failed\n"),
        Fault::WriteFault { .. } => text(fault, b"aqfp: write failed\n"),
        Fault::BadBlif { fault } => netlist_pieces(fault),
        Fault::BadDesign { line, kind } => [
            Piece::Text(b"aqfp: line "),
            Piece::Number(*line),
            Piece::Text(b": subckt "),
            Piece::Text(design_kind(kind)),
            Piece::Text(b"\n"),
        ],
        Fault::BadLibrary { fault } => library_pieces(fault),
        Fault::MissingCell { kind } => missing_pieces(kind),
        Fault::TooLarge { what, count } => [
            Piece::Text(b"aqfp: too large: "),
            Piece::Number(*count),
            Piece::Text(b" "),
            Piece::Text(large(what)),
            Piece::Text(b"\n"),
        ],
        Fault::BadStream { offset, kind } => [
            Piece::Text(b"aqfp: stream: byte "),
            Piece::Number(*offset),
            Piece::Text(b": "),
            Piece::Text(stream_kind(kind)),
            Piece::Text(b"\n"),
        ],
        Fault::RuleBroken {
            rule,
            first,
            second,
        } => [
            Piece::Text(b"aqfp: rule "),
            Piece::Text(rule_name(rule)),
            Piece::Text(b": shapes "),
            Piece::Pair(*first, *second),
            Piece::Text(b"\n"),
        ],
        Fault::BadWords { line } => [
            Piece::Text(b"aqfp: words: line "),
            Piece::Number(*line),
            Piece::Text(b"\n"),
            Piece::Text(b""),
            Piece::Text(b""),
        ],
        Fault::Widths {
            chip_inputs,
            chip_outputs,
            net_inputs,
            net_outputs,
        } => [
            Piece::Text(b"aqfp: widths: "),
            Piece::Pair(*chip_inputs, *chip_outputs),
            Piece::Text(b" and "),
            Piece::Pair(*net_inputs, *net_outputs),
            Piece::Text(b"\n"),
        ],
        Fault::NoShape { number, count } => [
            Piece::Text(b"aqfp: no shape "),
            Piece::Number(*number),
            Piece::Text(b" of "),
            Piece::Number(*count),
            Piece::Text(b"\n"),
        ],
        Fault::NotCells { line, kind } => [
            Piece::Text(b"aqfp: line "),
            Piece::Number(*line),
            Piece::Text(b": cells "),
            Piece::Text(cell_fault(kind)),
            Piece::Text(b"\n"),
        ],
        Fault::Memory => text(fault, b"aqfp: out of memory\n"),
    }
}

/// Puts the line of the fault, as far as the sink takes it; it takes no memory.
pub fn say<E: Sink>(words: &[String], fault: &Fault, err: &mut E)
    requires { HasPlace (spelled words.now) fault.now }
    ensures { Reports IsCutShort (E.output err.old) (E.output err.new) (spelled words.now) (Some fault.now) }
{
    let pieces = pieces_of(words, fault);
    let _ = put_pieces(err, &pieces);
}
