// What the definitions come to.
ghost use Rattle.std.specs.Prelude.{◌≡◌, codes, filter, List, Some};
ghost use Rattle.geom.specs.declared.shapes.Shape.{Shape};
ghost use Rattle.geom.specs.declared.shapes.Flat.{Flat};
ghost use Rattle.geom.specs.Rectangle.{Rectangle};
ghost use Rattle.layout_rules.specs.Layers.{is_frame};
ghost use Rattle.layout_rules.specs.Limits.{Limits};
ghost use Rattle.layout_rules.specs.Rules.{KeepsRules};
ghost use Rattle.geom.specs.FirstChip.{first_flat};
ghost use Rattle.circuit_extracted.specs.Circuits.{CircuitView};
ghost use Rattle.circuit_extracted.specs.FirstCircuit.{first_circuit};
ghost use Rattle.shape_extract.specs.Extraction.{IsCircuitOf};
ghost use Rattle.text_report.specs.FirstReport.{first_report, first_near, first_far};
ghost use Rattle.text_report.specs.Outline.{outline, IsLeastHolding};
ghost use Rattle.text_report.specs.ReportText.{report_text};
ghost use Rattle.text_report.specs.ShapeLines.{shape_line};
ghost use Rattle.text_report.specs.Wires.{wires_of_rows};

/// The report of the first chip, and the lines of its first frame, of a start and of its last label. It does nothing.
pub fn first_chip_report()
    ensures report { report_text first_flat first_circuit first_near first_far 180000 ≡ first_report }
    ensures frame { shape_line first_flat 0 ≡ codes "shape 0 layer 20 datatype 1 box 0 0 8000 10000\n" }
    ensures start { shape_line first_flat 3 ≡ codes "shape 3 layer 14 datatype 2 box -4000 0 0 10000\n" }
    ensures label { shape_line first_flat 16 ≡ codes "label 16 layer 30 at 5000 23500\n" }
{}

/// The outline of which a report tells the size is the least rectangle that holds all frames. It does nothing.
pub fn outline_is_least()
    ensures { (shapes : List Shape) (r : Rectangle) → outline shapes ≡ Some r
        → IsLeastHolding (filter is_frame shapes) r }
{}

/// The wires that a report tells row by row add up to those of its counts line. It does nothing.
pub fn wires_add_up()
    ensures { (flat : Flat) (circuit : CircuitView) (limits : Limits) → IsCircuitOf flat circuit
        → KeepsRules flat limits → wires_of_rows flat circuit circuit.rows ≡ circuit.wires }
{}
