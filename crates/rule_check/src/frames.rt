// Design rule check (DRC), the rule of frames: cells stand beside each other in rows. It looks at the frames alone.
ghost use Rattle.std.specs.Prelude.{◌≡◌, ◌<◌, ◌≤◌, ◌^◌, All, Contains, length, IfOk, IsTrue};
ghost use Rattle.geom.specs.declared.shapes.Shape.{Shape};
ghost use Rattle.geom.specs.Near.{rects_of};
ghost use Rattle.geom.specs.Rectangle.{meet_y};
ghost use Rattle.layout_rules.specs.GeometryRules.{collide, FramesBroken};
ghost use Rattle.layout_rules.specs.Layers.{is_frame};
ghost use Rattle.layout_rules.specs.Reports.{Passes};
ghost use Rattle.shape_extract.specs.Distinct.{AreAt};
ghost use Rattle.shape_extract.specs.Searches.{AreThose, Finds, FindsAt};
ghost use Rattle.rule_check.specs.Code.Cover.{any_at};
ghost use Rattle.rule_check.specs.Code.Bands.{band_of, AreBands, collide_across, CollidesWithNone};
ghost use Rattle.rule_check.specs.Code.FiledRows.{AreFiledRows};

use crate::sheet::named;
use aq_base::{List, Memory};
use geom::{Buckets, Rect, Shape, file_shapes, overlaps};
use shape_extract::{PairTest, Part, Report, first_of, is_frame, list_partners};
use std::alloc::Global;

fn meets_in_y(a: &Rect, b: &Rect) -> bool
    ensures { result ≡ meet_y a.now b.now }
{
    a.y0 < b.y1 && b.y0 < a.y1
}

/// Whether the two stand in different rows though their heights meet.
fn collides_across(a: &Rect, b: &Rect) -> bool
    ensures { result ≡ collide_across a.now b.now }
{
    meets_in_y(a, b) && !(a.y0 == b.y0 && a.y1 == b.y1)
}

/// Whether the two are frames that overlap or stand in different rows though their heights meet.
fn collide(a: &Shape, b: &Shape) -> bool
    ensures { result ≡ collide a.now b.now }
{
    is_frame(a) && is_frame(b) && (overlaps(&a.rect, &b.rect) || collides_across(&a.rect, &b.rect))
}

/// Two frames that overlap.
struct Overlap;

impl PairTest for Overlap {
    ghost use Rattle.rule_check.specs.Code.Bands.{frames_overlap};

    ghost passes = { λ t a b. frames_overlap a b };

    ghost reach = { λ t. 0 };

    fn passes(&self, a: &Shape, b: &Shape) -> bool {
        is_frame(a) && is_frame(b) && overlaps(&a.rect, &b.rect)
    }

    fn reach(&self) -> u64 {
        0
    }
}

/// The band over which a frame reaches, drawn one nanometre wide at the left.
fn band_of(frame: &Shape) -> Shape
    ensures { result ≡ band_of frame.now }
{
    let rect = &frame.rect;
    Shape {
        layer: frame.layer,
        datatype: 0,
        rect: Rect {
            x0: 0,
            y0: rect.y0,
            x1: 1,
            y1: rect.y1,
        },
    }
}

/// The band of each frame.
fn all_bands(alloc: Global, shapes: &[Shape]) -> Result<Vec<Shape>, Memory>
    ensures are { IfOk result (λ bands. AreBands shapes.now bands.items) }
    ensures few { IfOk result (λ bands. length bands.items ≤ length shapes.now) }
{
    let mut bands = Vec::new(alloc);
    for shape in shapes {
        if is_frame(shape) {
            bands.push(band_of(shape))?;
        }
    }
    Ok(bands)
}

fn is_last(bands: &[Shape], band: &Shape) -> bool
    ensures { IsTrue result → Contains bands.now band.now }
{
    if bands.is_empty() {
        return false;
    }
    bands[bands.len() - 1] == *band
}

/// The bands without those that are the same as the one before.
fn distinct(alloc: Global, bands: &[Shape]) -> Result<Vec<Shape>, Memory>
    ensures same { IfOk result (λ kept. (band : Shape) → Contains bands.now band → Contains kept.items band) }
    ensures few { IfOk result (λ kept. length kept.items ≤ length bands.now) }
{
    let mut kept = Vec::new(alloc);
    for band in bands {
        if !is_last(kept.as_slice(), band) {
            kept.push(*band)?;
        }
    }
    Ok(kept)
}

/// The bands of all frames, most of them once.
fn list_bands(alloc: Global, shapes: &[Shape]) -> Result<List<Shape>, Memory>
    requires { length shapes.now < 2 ^ 32 }
    ensures are { IfOk result (AreBands shapes.now) }
    ensures few { IfOk result (λ bands. length bands < 2 ^ 32) }
{
    let mut bands = all_bands(alloc, shapes)?;
    bands.sort_unstable_by_key(|band| band.rect.y0);
    let bands = distinct(alloc, bands.as_slice())?;
    Ok(List::from_vec(bands))
}

fn is_across(frame: &Rect, band: &Shape) -> bool
    ensures { result ≡ collide_across frame.now band.now.rect }
{
    collides_across(frame, &band.rect)
}

/// Whether one of these bands is that of another row, and its heights meet the frame's.
fn any_across(bands: &[Shape], numbers: &[u32], frame: &Rect) -> bool
    requires { All (λ n. n < length bands.now) numbers.now }
    ensures { result ≡ any_at (λ band. collide_across frame.now band.rect) bands.now numbers.now }
{
    for number in numbers {
        if is_across(frame, &bands[*number as usize]) {
            return true;
        }
    }
    false
}

/// Shapes, and the bands of all frames among them, both with an index.
#[derive(Clone, Copy)]
pub struct Rows<'a> {
    pub shapes: &'a [Shape],
    pub index: &'a Buckets,
    pub bands: &'a [Shape],
    pub band_index: &'a Buckets,
}

/// Whether it is clear that the frame collides with no other.
fn is_free(rows: &Rows<'_>, a: u32, found: &mut Vec<u32>) -> Result<bool, Memory>
    requires rows { AreFiledRows rows.now }
    requires frame { Passes is_frame rows.now.shapes.now a }
    requires within { a < length rows.now.shapes.now }
    ensures { IfOk result (λ yes. IsTrue yes → CollidesWithNone rows.now.shapes.now a) }
{
    let frame = &rows.shapes[a as usize];
    frame.rect.known();
    list_partners(&Overlap, rows.shapes, rows.index, a, found)?;
    let partners = found.as_slice();
    if partners.len() > 1 {
        return Ok(false);
    }
    let band = band_of(frame);
    rows.band_index.list_near(&band.rect, 0, found)?;
    Ok(!any_across(rows.bands, found.as_slice(), &frame.rect))
}

/// The least number above a of a frame that collides with the frame of this number.
fn first_colliding(shapes: &[Shape], a: u32) -> Option<u32>
    requires few { length shapes.now < 2 ^ 32 }
    requires within { a < length shapes.now }
    ensures { FindsAt (FramesBroken shapes.now) a result }
{
    let frame = &shapes[a as usize];
    for b in a + 1..shapes.len() as u32 {
        if collide(frame, &shapes[b as usize]) {
            return Some(b);
        }
    }
    None
}

/// Frames that collide, each pair at its lesser number.
#[derive(Drop)]
struct Frames<'a> {
    rows: &'a Rows<'a>,
}

impl<'a> Part for Frames<'a> {
    ghost use Rattle.rule_check.specs.Code.FiledRows.{AreFiledRows};

    ghost valid = { λ s. AreFiledRows s.rows.now };

    ghost count = { λ s. length s.rows.now.shapes.now };

    ghost reported = { λ s. FramesBroken s.rows.now.shapes.now };

    fn count(&self) -> u32 {
        self.rows.shapes.len() as u32
    }

    fn second(&self, a: u32, found: &mut Vec<u32>) -> Result<Option<u32>, Memory> {
        if !is_frame(&self.rows.shapes[a as usize]) {
            return Ok(None);
        }
        if is_free(self.rows, a, found)? {
            return Ok(None);
        }
        let other = first_colliding(self.rows.shapes, a);
        Ok(other)
    }
}

/// The first two of these frames that collide.
fn find_among(alloc: Global, shapes: &[Shape], index: &Buckets) -> Result<Option<Report>, Memory>
    requires few { length shapes.now < 2 ^ 32 }
    requires filed { index.now ≡ rects_of shapes.now }
    ensures { IfOk result (Finds (FramesBroken shapes.now)) }
{
    let bands = list_bands(alloc, shapes)?;
    let band_index = file_shapes(alloc, &bands)?;
    let rows = Rows {
        shapes,
        index,
        bands: bands.as_slice(),
        band_index: &band_index,
    };
    first_of(alloc, &Frames { rows: &rows })
}

/// The numbers of the frames.
fn frame_numbers(alloc: Global, shapes: &[Shape]) -> Result<Vec<u32>, Memory>
    requires { length shapes.now < 2 ^ 32 }
    ensures { IfOk result (λ numbers. AreThose (Passes is_frame shapes.now) numbers.items) }
{
    let mut numbers = Vec::new(alloc);
    for (number, shape) in shapes.iter().enumerate() {
        if is_frame(shape) {
            numbers.push(number as u32)?;
        }
    }
    Ok(numbers)
}

/// The shapes of these numbers, in their order.
fn shapes_at(alloc: Global, shapes: &[Shape], numbers: &[u32]) -> Result<Vec<Shape>, Memory>
    requires { All (λ n. n < length shapes.now) numbers.now }
    ensures { IfOk result (λ some. AreAt shapes.now numbers.now some.items) }
{
    let mut some = Vec::with_capacity(alloc, numbers.len())?;
    for number in numbers {
        some.push(shapes[*number as usize])?;
    }
    Ok(some)
}

/// The first two frames that collide.
pub fn find_colliding(alloc: Global, shapes: &[Shape]) -> Result<Option<Report>, Memory>
    requires { length shapes.now < 2 ^ 32 }
    ensures { IfOk result (Finds (FramesBroken shapes.now)) }
{
    let numbers = frame_numbers(alloc, shapes)?;
    let frames = List::from_vec(shapes_at(alloc, shapes, numbers.as_slice())?);
    let index = file_shapes(alloc, &frames)?;
    let found = find_among(alloc, frames.as_slice(), &index)?;
    Ok(named(numbers.as_slice(), found))
}
