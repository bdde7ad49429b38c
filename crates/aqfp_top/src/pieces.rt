// Texts that are put piece by piece, without taking memory: they wait on a page of the stack.
ghost use Rattle.std.specs.Prelude.{◌≡◌, ◌∷◌, ◌++◌, ◌<◌, OnOk, IfErr};
ghost use Rattle.std.specs.Fmt.{decimal};
ghost use Rattle.aq_base.specs.Output.{printed, PrintsPart};
ghost use Rattle.shown_names.specs.Names.{shown_name};
ghost use Rattle.aqfp_top.specs.Lines.{signals_text, integer_text, pair_text};
ghost use Rattle.aqfp_top.specs.Code.Pages.{Pends};
ghost use Rattle.aqfp_top.specs.Code.Pieces.{piece_text, pieces_text};

use crate::page::{Page, add_byte, add_text, put_page};
use aq_base::{List, Sink, StoreRefusal};
use short_bytes::ShortBytes;
use shown_names::ShownName;

/// A piece of a line.
#[derive(Clone, Copy)]
pub enum Piece<'a> {
    /// The bytes as they are.
    Text(&'a [u8]),
    /// The name of a file or the key of a library, as a line shows it.
    Name(&'a [u8]),
    /// A number in decimal digits.
    Number(u64),
    /// A number in decimal digits, after a minus sign where it is negative.
    Integer(i64),
    /// Two numbers, with a blank between them.
    Pair(u32, u32),
    /// Signals, each after a blank.
    Signals(&'a List<ShortBytes>),
}

// Adds a number in decimal digits.
#[tactic(auto, using(crate::proofs::Pending::numbers))]
fn add_decimal<S: Sink>(sink: &mut S, page: &mut Page, n: u64) -> Result<(), StoreRefusal>
    ensures pends { OnOk result (Pends (S.output sink.old) (S.output sink.new) page.new (page.old ++ decimal n)) }
    ensures part { IfErr result (PrintsPart (S.output sink.old) (S.output sink.new) (page.old ++ decimal n)) }
{
    if n < 10 {
        return add_byte(sink, page, b'0' + n as u8);
    }
    add_decimal(sink, page, n / 10)?;
    add_byte(sink, page, b'0' + (n % 10) as u8)
}

// Adds an integer in decimal digits, after a minus sign where it is negative.
#[tactic(auto, using(crate::proofs::Pending::numbers))]
fn add_integer<S: Sink>(sink: &mut S, page: &mut Page, n: i64) -> Result<(), StoreRefusal>
    ensures pends { OnOk result (Pends (S.output sink.old) (S.output sink.new) page.new (page.old ++ integer_text n)) }
    ensures part { IfErr result (PrintsPart (S.output sink.old) (S.output sink.new) (page.old ++ integer_text n)) }
{
    if n >= 0 {
        return add_decimal(sink, page, n as u64);
    }
    add_byte(sink, page, b'-')?;
    add_decimal(sink, page, n.unsigned_abs())
}

// Adds a number, after a blank.
#[tactic(auto, using(crate::proofs::Pending::numbers))]
fn add_after_blank<S: Sink>(sink: &mut S, page: &mut Page, number: u32) -> Result<(), StoreRefusal>
    ensures pends { OnOk result
        (Pends (S.output sink.old) (S.output sink.new) page.new (page.old ++ 32 ∷ decimal number)) }
    ensures part { IfErr result (PrintsPart (S.output sink.old) (S.output sink.new) (page.old ++ 32 ∷ decimal number)) }
{
    add_byte(sink, page, b' ')?;
    add_decimal(sink, page, u64::from(number))
}

// Adds two numbers, with a blank between them.
#[tactic(auto, using(crate::proofs::Pending::numbers))]
fn add_pair<S: Sink>(
    sink: &mut S,
    page: &mut Page,
    first: u32,
    second: u32,
) -> Result<(), StoreRefusal>
    ensures pends { OnOk result
        (Pends (S.output sink.old) (S.output sink.new) page.new (page.old ++ pair_text first second)) }
    ensures part { IfErr result
        (PrintsPart (S.output sink.old) (S.output sink.new) (page.old ++ pair_text first second)) }
{
    add_decimal(sink, page, u64::from(first))?;
    add_after_blank(sink, page, second)
}

// Adds a signal, after a blank.
#[tactic(auto, using(crate::proofs::Pending::numbers))]
fn add_signal<S: Sink>(
    sink: &mut S,
    page: &mut Page,
    signal: &ShortBytes,
) -> Result<(), StoreRefusal>
    ensures pends { OnOk result (Pends (S.output sink.old) (S.output sink.new) page.new (page.old ++ 32 ∷ signal.now)) }
    ensures part { IfErr result (PrintsPart (S.output sink.old) (S.output sink.new) (page.old ++ 32 ∷ signal.now)) }
{
    add_byte(sink, page, b' ')?;
    add_text(sink, page, signal.as_slice())
}

// Adds the signals, each after a blank.
#[tactic(auto, using(crate::proofs::Pending::numbers))]
fn add_signals<S: Sink>(
    sink: &mut S,
    page: &mut Page,
    signals: &List<ShortBytes>,
) -> Result<(), StoreRefusal>
    ensures pends { OnOk result
        (Pends (S.output sink.old) (S.output sink.new) page.new (page.old ++ signals_text signals.now)) }
    ensures part { IfErr result
        (PrintsPart (S.output sink.old) (S.output sink.new) (page.old ++ signals_text signals.now)) }
{
    for signal in signals.as_slice() {
        add_signal(sink, page, signal)?;
    }
    Ok(())
}

// Adds a name, its control bytes being spelled, and two dots in place of what is past 200 bytes.
#[tactic(auto, using(crate::proofs::Pending::numbers))]
fn add_name<S: Sink>(sink: &mut S, page: &mut Page, name: &[u8]) -> Result<(), StoreRefusal>
    ensures pends { OnOk result
        (Pends (S.output sink.old) (S.output sink.new) page.new (page.old ++ shown_name name.now)) }
    ensures part { IfErr result
        (PrintsPart (S.output sink.old) (S.output sink.new) (page.old ++ shown_name name.now)) }
{
    let shown = ShownName::of(name);
    add_text(sink, page, shown.as_slice())
}

// Adds a piece.
#[tactic(auto, using(crate::proofs::Pending::numbers))]
fn add_piece<S: Sink>(sink: &mut S, page: &mut Page, piece: &Piece<'_>) -> Result<(), StoreRefusal>
    ensures pends { OnOk result
        (Pends (S.output sink.old) (S.output sink.new) page.new (page.old ++ piece_text piece.now)) }
    ensures part { IfErr result
        (PrintsPart (S.output sink.old) (S.output sink.new) (page.old ++ piece_text piece.now)) }
{
    match piece {
        Piece::Text(text) => add_text(sink, page, text),
        Piece::Name(name) => add_name(sink, page, name),
        Piece::Number(number) => add_decimal(sink, page, *number),
        Piece::Integer(integer) => add_integer(sink, page, *integer),
        Piece::Pair(first, second) => add_pair(sink, page, *first, *second),
        Piece::Signals(signals) => add_signals(sink, page, signals),
    }
}

// Adds the pieces one after another.
#[tactic(auto, using(crate::proofs::Pending::numbers))]
fn add_pieces<S: Sink>(
    sink: &mut S,
    page: &mut Page,
    pieces: &[Piece<'_>],
) -> Result<(), StoreRefusal>
    ensures pends { OnOk result
        (Pends (S.output sink.old) (S.output sink.new) page.new (page.old ++ pieces_text pieces.now)) }
    ensures part { IfErr result
        (PrintsPart (S.output sink.old) (S.output sink.new) (page.old ++ pieces_text pieces.now)) }
{
    for piece in pieces {
        add_piece(sink, page, piece)?;
    }
    Ok(())
}

/// Puts the pieces one after another, as far as the sink takes them.
#[tactic(auto, using(crate::proofs::Pending::pending))]
pub fn put_pieces<S: Sink>(sink: &mut S, pieces: &[Piece<'_>]) -> Result<(), StoreRefusal>
    ensures added { OnOk result (S.output sink.new ≡ printed (pieces_text pieces.now) (S.output sink.old)) }
    ensures part { IfErr result (PrintsPart (S.output sink.old) (S.output sink.new) (pieces_text pieces.now)) }
{
    let mut page = Page::new();
    add_pieces(sink, &mut page, pieces)?;
    put_page(sink, &mut page)
}
