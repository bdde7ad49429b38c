// The laws of circuits of flat forms that keep the rules. The functions do nothing.
ghost use Rattle.std.specs.Prelude.{◌<◌, ◌^◌, length};
ghost use Rattle.geom.specs.declared.shapes.Flat.{Flat};
ghost use Rattle.circuit_extracted.specs.Circuits.{CircuitView, KeepsFacts};
ghost use Rattle.shape_extract.specs.Extraction.{IsCircuitOf};
ghost use Rattle.shape_extract.specs.Extracts.{KeepsFive};

/// The circuit of a flat form that keeps the five rules of circuits, and whose shapes and cells can be named by 32-bit
/// numbers, keeps what every extracted circuit keeps, whoever found it.
pub fn extracted_keeps()
    ensures { (flat : Flat) (circuit : CircuitView)
        → length flat.shapes < 2 ^ 32 → length circuit.cells < 2 ^ 32
        → KeepsFive flat → IsCircuitOf flat circuit → KeepsFacts circuit }
{}

/// A flat form that keeps the five rules of circuits has a circuit.
pub fn some_circuit()
    ensures { (flat : Flat) → KeepsFive flat → (circuit : CircuitView) × IsCircuitOf flat circuit }
{}
