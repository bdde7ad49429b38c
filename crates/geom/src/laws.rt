// Laws of layouts, for the crates above.
ghost use Rattle.std.specs.Prelude.{◌≡◌};
ghost use Rattle.geom.specs.FlatForm.{flat_of};
ghost use Rattle.geom.specs.Writable.{IsWritable};
ghost use Rattle.geom.specs.FirstChip.{first_layout, first_flat};

/// The shapes and labels of the first chip, a buffer in each of two rows.
#[tactic(auto, using(crate::proofs::FirstFlat::first_flat_form))]
pub fn first_chip_flat()
    ensures { flat_of first_layout ≡ first_flat }
{}

/// The first chip can be written as a stream.
#[tactic(auto, using(crate::proofs::FirstWritable::first_is_writable))]
pub fn first_chip_is_writable()
    ensures { IsWritable first_layout }
{}
