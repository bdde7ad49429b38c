// Laws of streams, for the crates above.
ghost use Rattle.std.specs.Prelude.{◌≡◌, List, ℕ, suc, length, Option, Some, None, [], ◌∷◌, ◌<◌, ◌^◌, true, false};
ghost use Rattle.geom.specs.declared.layout.Layout.{Layout};
ghost use Rattle.geom.specs.Writable.{IsWritable};
ghost use Rattle.geom.specs.FirstChip.{first_layout, first_flat};
ghost use Rattle.poly_cut.specs.FlatForm.{wide_flat};
ghost use Rattle.gds_records.specs.Stream.{IsStream, IsWideStream, wide_layout_of};
ghost use Rattle.gds_records.specs.Records.{Record, kinds};
ghost use Rattle.gds_records.specs.WideDrawing.{AreFit};
ghost use Rattle.gds_records.specs.Faults.{StreamFault, IsStreamOrFaulty, WideFault};
ghost use Rattle.gds_records.specs.Writing.{bytes_of};
ghost use Rattle.gds_records.specs.Scan.{first_fault, layout_in, wide_layout_in, IsBytes, Whole};
ghost use Rattle.poly_cut.specs.declared.layout.WideLayout.{WideLayout};
ghost use Rattle.poly_cut.specs.declared.layout.Point.{Point};
ghost use Rattle.poly_cut.specs.declared.layout.Figure.TheVariants.{Ring};
ghost use Rattle.poly_cut.specs.Figures.{IsFigure, IsBent};
ghost use Rattle.poly_cut.specs.Conditions.{far};
ghost use Rattle.gds_records.specs.WideValues.{points, is_ring, is_path, turns, is_multiple};
ghost use Rattle.gds_records.specs.WideDrawing.{step};
ghost use Rattle.gds_records.specs.Values.{at, is_rectangle};
ghost use Rattle.gds_records.specs.Drawing.{box_of};
ghost use Rattle.poly_cut.specs.Cuts.{ring_cut};
ghost use Rattle.gds_records.specs.Profiles.{Profile, IsProfile, strict, wide};
ghost use Rattle.gds_records.specs.Profiled.{AreGoodIn, IsReadIn, IsFirstFaultIn, first_fault_in, scan_in};
ghost use Rattle.gds_records.specs.Steps.{all_steps, told};
ghost use Rattle.gds_records.specs.Language.{Speaks};
ghost use Rattle.gds_records.specs.Whole.{Outline, whole_fault};
ghost use Rattle.gds_records.specs.WideWhole.{goes_down, first_long, wide_whole_fault};
ghost use Rattle.gds_records.specs.Loops.{IsWay};
ghost use Rattle.gds_records.specs.Grammar.{stream, wide_stream};
ghost use Rattle.gds_records.specs.FirstChip.{first_bytes};
ghost use Rattle.gds_records.specs.declared.fault.StreamKind.{StreamKind};

/// Where the scan finds no fault, the bytes are a stream.
pub fn no_fault_is_stream()
    ensures { (bytes : List ℕ) → IsBytes bytes → first_fault bytes ≡ None → IsStream bytes (layout_in bytes) }
{}

/// What the scan of a profile finds is the first fault.
pub fn found_is_fault()
    ensures { (p : Profile) (bytes : List ℕ) (offset : ℕ) (kind : StreamKind) → IsProfile p → IsBytes bytes
        → first_fault_in p bytes ≡ Some (offset, kind) → IsFirstFaultIn p bytes offset kind }
{}

/// Where the scan arrives at ENDLIB, the bytes are the records before it, a sentence of good records, and then a rest.
pub fn whole_is_read()
    ensures { (p : Profile) (bytes : List ℕ) (records : List Record) (rest : List ℕ) → IsProfile p → IsBytes bytes
        → scan_in p (suc (length bytes)) [] bytes ≡ Whole records rest → IsReadIn p bytes records rest }
{}

/// A stream has no fault, and its layout is the one that is found.
pub fn stream_is_found()
    ensures fault { (bytes : List ℕ) (layout : Layout) → IsStream bytes layout → first_fault bytes ≡ None }
    ensures layout { (bytes : List ℕ) (layout : Layout) → IsStream bytes layout → layout ≡ layout_in bytes }
{}

/// A fault is the one that the scan finds, so there is one at most, and none in a stream.
pub fn fault_is_found()
    ensures { (bytes : List ℕ) (offset : ℕ) (kind : StreamKind) → StreamFault bytes offset kind
        → first_fault bytes ≡ Some (offset, kind) }
{}

/// A scan is told by its steps, which keep no records.
pub fn steps_tell_scan()
    ensures { (p : Profile) (bytes : List ℕ) → IsProfile p
        → all_steps p bytes ≡ told (scan_in p (suc (length bytes)) [] bytes) }
{}

/// The bytes of a layout that can be written are a stream of it.
pub fn written_is_read()
    ensures { (layout : Layout) → IsWritable layout → IsStream (bytes_of layout) layout }
{}

/// Bytes are a stream of one layout at most.
pub fn one_layout()
    ensures { (bytes : List ℕ) (layout other : Layout) → IsStream bytes layout → IsStream bytes other → layout ≡ other }
{}

/// Bytes are a stream or have a fault, never both, and they have one first fault.
pub fn one_of_both()
    ensures some { (bytes : List ℕ) → IsBytes bytes → IsStreamOrFaulty bytes }
    ensures one { (bytes : List ℕ) (layout : Layout) (offset : ℕ) (kind : StreamKind) → IsStream bytes layout
        → StreamFault bytes offset kind → ⊥ }
    ensures fault { (bytes : List ℕ) (offset other : ℕ) (kind second : StreamKind) → StreamFault bytes offset kind
        → StreamFault bytes other second → (offset ≡ other) × (kind ≡ second) }
{}

/// The first chip, a buffer in each of two rows: the bytes of its layout, of which they are a stream.
#[tactic(auto, using(crate::proofs::FirstStream::first_written))]
pub fn first_chip_is_stream()
    ensures bytes { bytes_of first_layout ≡ first_bytes }
    ensures stream { IsStream first_bytes first_layout }
{
    written_is_read();
    geom::first_chip_is_writable();
}

/// Bytes are a wide stream of one layout, which a scan finds, or have one first fault, which it finds, and never both.
pub fn one_wide_reading()
    ensures stream { (bytes : List ℕ) → IsBytes bytes → first_fault_in wide bytes ≡ None
        → IsWideStream bytes (wide_layout_in bytes) }
    ensures layout { (bytes : List ℕ) (layout : WideLayout) → IsWideStream bytes layout
        → layout ≡ wide_layout_in bytes }
    ensures no_fault { (bytes : List ℕ) (layout : WideLayout) → IsWideStream bytes layout
        → first_fault_in wide bytes ≡ None }
    ensures fault { (bytes : List ℕ) (offset : ℕ) (kind : StreamKind) → IsBytes bytes
        → first_fault_in wide bytes ≡ Some (offset, kind) → WideFault bytes offset kind }
    ensures one_fault { (bytes : List ℕ) (offset : ℕ) (kind : StreamKind) → WideFault bytes offset kind
        → first_fault_in wide bytes ≡ Some (offset, kind) }
{}

/// The first chip is a wide stream too, with the same flat form.
pub fn first_chip_is_wide()
    ensures fault { first_fault_in wide first_bytes ≡ None }
    ensures flat { wide_flat (wide_layout_in first_bytes) ≡ first_flat }
{}

/// What the values of a wide stream say of an XY makes a figure that can be cut and a grid of whole steps.
pub fn wide_values_are_drawn()
    ensures ring { (ps : List Point) → is_ring ps ≡ true → IsFigure (Ring ps) }
    ensures path { (ps : List Point) → is_path ps ≡ true → IsBent (turns ps) }
    ensures grid { (n : ℕ) (p q : Point) → is_multiple n p.x q.x ≡ true → is_multiple n p.y q.y ≡ true
        → far n (step n p q) p ≡ q }
{}

/// A strict sentence is a wide one, and records that meet the strict conditions on the whole meet the wide ones.
pub fn strict_is_within_wide()
    ensures sentence { (w : List ℕ) → Speaks stream w → Speaks wide_stream w }
    ensures whole { (rs : List Record) → whole_fault rs ≡ None → wide_whole_fault rs ≡ None }
{}

/// A boundary that is a rectangle is a ring that is cut into that rectangle alone.
pub fn rectangles_are_rings()
    ensures cut { (xy : List ℕ) → ((k : ℕ) → at xy k < 2 ^ 32) → is_rectangle xy ≡ true
        → ring_cut (points xy) ≡ box_of xy ∷ [] }
    ensures ring { (xy : List ℕ) → ((k : ℕ) → at xy k < 2 ^ 32) → is_rectangle xy ≡ true → is_ring (points xy) ≡ true }
{
    poly_cut::rectangle_is_cut_whole();
}

/// Records of a strict stream, whose coordinates have four bytes, are good in a wide one.
pub fn strict_records_are_good()
    ensures { (rs : List Record) → Speaks stream (kinds rs) → AreFit rs → AreGoodIn strict [] rs
        → AreGoodIn wide [] rs }
{
    rectangles_are_rings();
}

/// A strict stream is a wide one.
pub fn strict_streams_are_wide()
    ensures { (bytes : List ℕ) (layout : Layout) → IsBytes bytes → (s : IsStream bytes layout)
        → IsWideStream bytes (wide_layout_of s.records) }
{
    strict_is_within_wide();
    strict_records_are_good();
}

/// A loop of references is a chain without an end: from a structure in one, and from one above it, chains of any length
/// go down, and where no chain of more than 64 does, no structure is in a loop.
pub fn loops_are_long()
    ensures long { (k : ℕ) (ss : List Outline) (from : List ℕ) (above : List (List ℕ)) (name : List ℕ)
        (names : List (List ℕ)) → IsWay ss from above name → IsWay ss name names name
        → goes_down k ss from ≡ true }
    ensures none { (ss : List Outline) (name : List ℕ) (names : List (List ℕ)) → first_long ss ss ≡ None
        → IsWay ss name names name → ⊥ }
{}
