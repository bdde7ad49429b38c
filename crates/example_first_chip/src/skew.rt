// The skew of the first chip. The function does nothing.
ghost use Rattle.geom.specs.FirstChip.{first_flat};
ghost use Rattle.circuit_extracted.specs.FirstCircuit.{first_circuit};
ghost use Rattle.layout_realises.specs.Rates.{IsSkewOf};

use layout_rules::laws::first_chip_has_lines;
use pulse_sim::skew_is_computed;
use shape_extract::first_chip_extracted;

/// The skew of the first chip is 8,000 nanometres, the width of a buffer: both cells stand where their lines begin.
pub fn first_chip_has_skew()
    ensures { IsSkewOf first_flat first_circuit 8000 }
{
    first_chip_has_lines();
    first_chip_extracted();
    skew_is_computed();
}
