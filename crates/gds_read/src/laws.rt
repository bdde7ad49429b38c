// Laws of reading, for the crates above.
ghost use Rattle.std.specs.Prelude.{◌≡◌, ◌⊎◌, ◌<◌, ◌≤◌, ℕ, List};
ghost use Rattle.geom.specs.declared.layout.Layout.{Layout};
ghost use Rattle.geom.specs.FlatForm.{flat_of, shape_limit};
ghost use Rattle.gds_records.specs.declared.fault.StreamKind.{StreamKind};
ghost use Rattle.gds_records.specs.Stream.{IsStream, IsWideStream};
ghost use Rattle.gds_records.specs.Scan.{IsBytes, wide_layout_in};
ghost use Rattle.poly_cut.specs.FlatForm.{wide_flat};
ghost use Rattle.poly_cut.specs.declared.layout.WideLayout.{WideLayout};
ghost use Rattle.poly_cut.specs.Counts.{wide_count, told};
ghost use Rattle.gds_records.specs.Faults.{WideFault};
ghost use Rattle.gds_read.specs.declared.refusal.StreamRefusal.{StreamRefusal};
ghost use Rattle.gds_read.specs.declared.refusal.StreamRefusal.TheVariants.{Bad, TooManyShapes, Memory};
ghost use Rattle.gds_read.specs.WideReading.{IsWideReadAs, IsWideRefusedFor};

use gds_records::{one_wide_reading, rectangles_are_rings, strict_streams_are_wide};

/// Want of memory apart, each answer of `read_wide` comes exactly where it may: a wide stream of a size that is taken
/// is not refused, a larger one only by its number of shapes, and bytes with a fault are refused by the first one
/// alone.
pub fn wide_reading_is_exact()
    ensures taken { (bytes : List ℕ) (layout : WideLayout) (refusal : StreamRefusal)
        → IsWideStream bytes layout → wide_count layout ≤ shape_limit → IsWideRefusedFor bytes refusal → refusal ≡ Memory }
    ensures large { (bytes : List ℕ) (layout : WideLayout) (refusal : StreamRefusal)
        → IsWideStream bytes layout → shape_limit < wide_count layout → IsWideRefusedFor bytes refusal
        → (refusal ≡ TooManyShapes (told (wide_count layout))) ⊎ (refusal ≡ Memory) }
    ensures faulty { (bytes : List ℕ) (offset : ℕ) (kind : StreamKind) (refusal : StreamRefusal)
        → WideFault bytes offset kind → IsWideRefusedFor bytes refusal
        → (refusal ≡ Bad offset kind) ⊎ (refusal ≡ Memory) }
    ensures unread_large { (bytes : List ℕ) (layout other : WideLayout)
        → IsWideStream bytes layout → shape_limit < wide_count layout → IsWideReadAs bytes other → ⊥ }
    ensures unread_faulty { (bytes : List ℕ) (offset : ℕ) (kind : StreamKind) (layout : WideLayout)
        → WideFault bytes offset kind → IsWideReadAs bytes layout → ⊥ }
{
    one_wide_reading();
}

/// A strict stream is a wide one, with the same flat form.
pub fn strict_reading_is_wide()
    ensures stream { (bytes : List ℕ) (layout : Layout) → IsBytes bytes → IsStream bytes layout
        → IsWideStream bytes (wide_layout_in bytes) }
    ensures flat { (bytes : List ℕ) (layout : Layout) → IsBytes bytes → IsStream bytes layout
        → wide_flat (wide_layout_in bytes) ≡ flat_of layout }
{
    rectangles_are_rings();
    strict_streams_are_wide();
    one_wide_reading();
}
