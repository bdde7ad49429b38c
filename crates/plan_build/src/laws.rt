// The laws of the plan.
ghost use Rattle.std.specs.Prelude.{◌≡◌, ◌≢◌, ◌⊎◌};
ghost use Rattle.blif_read.specs.Parts.{NetView};
ghost use Rattle.blif_read.specs.Netlist.{IsNetlist};
ghost use Rattle.cell_library.specs.Library.{LibraryView};
ghost use Rattle.cell_library.specs.Laws.{IsLibrary};
ghost use Rattle.layout_make.specs.MayDraw.{MayDraw};
ghost use Rattle.plan_build.specs.Plans.{IsWithin, chip_of};
ghost use Rattle.plan_build.specs.Refusals.{Refuses};
ghost use Rattle.plan_build.specs.Laws.{AnswersAs, IsRefused};
ghost use Rattle.plan_build.specs.declared.refusal.PlanRefusal.{PlanRefusal};
ghost use Rattle.plan_build.specs.declared.refusal.PlanRefusal.TheVariants.{Memory as NoMemory};

/// The chip of a netlist that keeps the limits can be drawn, and answers every word as the netlist does. Each netlist
/// keeps the limits or is refused, never both, and its refusal is the only one but want of memory.
#[tactic(auto, using(crate::proofs::ChipLaws::chip_may_draw, crate::proofs::ChipLaws::chip_answers, crate::proofs::Exact::past_limit, crate::proofs::Exact::only_refusal, crate::proofs::Decided::decided))]
pub fn plan_laws()
    ensures draws { (l : LibraryView) (net : NetView) → IsLibrary l → IsNetlist net → IsWithin l net
        → MayDraw (chip_of l net) l }
    ensures answers { (l : LibraryView) (net : NetView) → IsLibrary l → IsNetlist net → IsWithin l net
        → AnswersAs net (chip_of l net) }
    ensures decided { (l : LibraryView) (net : NetView) → IsWithin l net ⊎ IsRefused l net }
    ensures past { (l : LibraryView) (net : NetView) (refusal : PlanRefusal) → refusal ≢ NoMemory
        → Refuses l net refusal → IsWithin l net → ⊥ }
    ensures only { (l : LibraryView) (net : NetView) (one other : PlanRefusal) → one ≢ NoMemory → other ≢ NoMemory
        → Refuses l net one → Refuses l net other → one ≡ other }
{}
