// Narrow spots: of rectangles whose coordinates have 32 bits, as nearly all of a stream have.
ghost use Rattle.std.specs.Prelude.{◌≡◌, IfSome};
ghost use Rattle.geom.specs.Rectangle.{IsProper};
ghost use Rattle.geom.specs.Code.Filed.{with_cell};

use crate::index::spots::Spot;
use crate::rectangle::Rect;
use std::marker::Model;

/// A spot in 24 bytes, where a wide one takes 40.
#[derive(Clone, Copy)]
pub struct NarrowSpot {
    x0: i32,
    y0: i32,
    x1: i32,
    y1: i32,
    number: u32,
    cell: u32,
}

impl Model for NarrowSpot {
    ghost use Rattle.geom.specs.Rectangle.{IsProper};
    ghost use Rattle.geom.specs.declared.index.spots.Spot.{Spot};

    ghost Value = { Spot };

    ghost view = { λ s. record {
      rect = record { x0 = s.x0; y0 = s.y0; x1 = s.x1; y1 = s.y1 };
      number = s.number;
      cell = s.cell;
    } };

    ghost invariant = { λ s. IsProper (record { x0 = s.x0; y0 = s.y0; x1 = s.x1; y1 = s.y1 }) };

    ghost inverse = { λ v. record {
      x0 = v.rect.x0;
      y0 = v.rect.y0;
      x1 = v.rect.x1;
      y1 = v.rect.y1;
      number = v.number;
      cell = v.cell;
    } };
}

/// The number in 32 bits, if it has no more.
fn narrow(number: i64) -> Option<i32>
    ensures { IfSome result (λ same. same ≡ number) }
{
    match i32::try_from(number) {
        Ok(same) => Some(same),
        Err(_) => None,
    }
}

impl NarrowSpot {
    /// A spot for the rectangle, with no number and no cell yet, if its coordinates have 32 bits.
    pub fn of(rect: &Rect) -> Option<NarrowSpot>
        ensures { IfSome result (λ spot. spot.rect ≡ rect.now) }
    {
        rect.known();
        Some(NarrowSpot {
            x0: narrow(rect.x0)?,
            y0: narrow(rect.y0)?,
            x1: narrow(rect.x1)?,
            y1: narrow(rect.y1)?,
            number: 0,
            cell: 0,
        })
    }

    /// What its rectangle keeps: it has a positive width and a positive height. It does nothing else.
    fn known(&self)
        ensures { IsProper self.now.rect }
    {
        let _ = &self.x0;
    }

    pub fn rect(&self) -> Rect
        ensures { result ≡ self.now.rect }
    {
        self.known();
        Rect {
            x0: self.x0 as i64,
            y0: self.y0 as i64,
            x1: self.x1 as i64,
            y1: self.y1 as i64,
        }
    }

    pub fn cell(&self) -> u32
        ensures { result ≡ self.now.cell }
    {
        self.cell
    }

    /// The same spot, wide.
    pub fn wide(&self) -> Spot
        ensures { result ≡ self.now }
    {
        Spot {
            rect: self.rect(),
            number: self.number,
            cell: self.cell,
        }
    }

    /// The spot with this number and in this cell.
    pub fn with(&self, number: u32, cell: u32) -> NarrowSpot
        ensures { result ≡ with_cell self.now number cell }
    {
        self.known();
        NarrowSpot {
            x0: self.x0,
            y0: self.y0,
            x1: self.x1,
            y1: self.y1,
            number,
            cell,
        }
    }
}
