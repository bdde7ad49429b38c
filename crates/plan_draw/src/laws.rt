// The laws of the plan of a netlist of cells.
ghost use Rattle.std.specs.Prelude.{◌≡◌, ◌≢◌, ◌⊎◌};
ghost use Rattle.blif_read.specs.Parts.{NetView};
ghost use Rattle.blif_read.specs.Netlist.{IsNetlist};
ghost use Rattle.rowed.specs.RowNets.{RowView};
ghost use Rattle.rowed.specs.PlacedNets.{PlacedView};
ghost use Rattle.cell_library.specs.Library.{LibraryView};
ghost use Rattle.cell_library.specs.Laws.{IsLibrary};
ghost use Rattle.layout_make.specs.MayDraw.{MayDraw};
ghost use Rattle.plan_build.specs.Laws.{AnswersAs};
ghost use Rattle.plan_draw.specs.CellPlans.{KeepsSize, IsCellChip};
ghost use Rattle.plan_draw.specs.Refusals.{PassesSize, RefusesCells};
ghost use Rattle.plan_draw.specs.declared.refusal.CellPlanRefusal.TheVariants.{Memory as NoMemory};
ghost use Rattle.plan_draw.specs.declared.refusal.CellPlanRefusal.{CellPlanRefusal};

/// The chip of a netlist of cells that keeps the limits can be drawn, and answers every word as the netlist does. The
/// chip of rows keeps the limits or passes one. A netlist has one chip or one refusal, never both, but for want of
/// memory.
pub fn cell_plan_laws()
    ensures draws { (l : LibraryView) (net : NetView) (chip : PlacedView) → IsLibrary l → IsNetlist net
        → IsCellChip l net chip → MayDraw chip l }
    ensures answers { (l : LibraryView) (net : NetView) (chip : PlacedView) → IsLibrary l → IsNetlist net
        → IsCellChip l net chip → AnswersAs net chip }
    ensures decided { (l : LibraryView) (rows : RowView)
        → KeepsSize l rows ⊎ ((refusal : CellPlanRefusal) × PassesSize l rows refusal) }
    ensures one { (l : LibraryView) (net : NetView) (chip other : PlacedView) → IsCellChip l net chip
        → IsCellChip l net other → chip ≡ other }
    ensures past { (l : LibraryView) (net : NetView) (refusal : CellPlanRefusal) (chip : PlacedView)
        → refusal ≢ NoMemory → RefusesCells l net refusal → IsCellChip l net chip → ⊥ }
    ensures only { (l : LibraryView) (net : NetView) (one other : CellPlanRefusal) → one ≢ NoMemory
        → other ≢ NoMemory → RefusesCells l net one → RefusesCells l net other → one ≡ other }
{}
