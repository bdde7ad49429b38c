// The first chip: a buffer in each of two rows, and one wire between them.
ghost use Rattle.geom.specs.FirstChip.{first_flat};
ghost use Rattle.circuit_extracted.specs.Circuits.{KeepsFacts};
ghost use Rattle.circuit_extracted.specs.FirstCircuit.{first_circuit};
ghost use Rattle.shape_extract.specs.Extraction.{IsCircuitOf};

/// The circuit of the first chip's flat form is that of two buffers, and it keeps what every extracted circuit keeps.
pub fn first_chip_extracted()
    ensures circuit { IsCircuitOf first_flat first_circuit }
    ensures keeps { KeepsFacts first_circuit }
{
    circuit_extracted::first_circuit_keeps();
}
