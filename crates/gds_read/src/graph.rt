// The references of structures by number.
ghost use Rattle.std.specs.Prelude.{◌≡◌, map, IfOk};
ghost use Rattle.gds_records.specs.Drawing.{place_of};
ghost use Rattle.gds_read.specs.Code.Numbering.{IsNumbering};
ghost use Rattle.gds_read.specs.Code.Outlining.{names_in};
ghost use Rattle.gds_read.specs.Code.Graphs.{graph_of};

use crate::element::named;
use crate::numbers::Numbers;
use crate::outline::{NamedOutline, NamedUse};
use aq_base::{List, Memory};
use std::alloc::Global;

// The numbers of the structures that references name.
fn targets(
    alloc: Global,
    structures: &[NamedOutline<'_>],
    numbers: &Numbers<'_>,
    uses: &[NamedUse<'_>],
) -> Result<List<u32>, Memory>
    requires { IsNumbering numbers.now.entries (names_in structures.now) }
    ensures { IfOk result (λ found. found ≡ map (λ u. place_of u.name.now (names_in structures.now)) uses.now) }
{
    let mut found = List::new(alloc);
    for item in uses {
        found.push(named(structures, numbers, item.name))?;
    }
    Ok(found)
}

/// The references of structures by number.
pub fn graph(
    alloc: Global,
    structures: &[NamedOutline<'_>],
    numbers: &Numbers<'_>,
) -> Result<List<List<u32>>, Memory>
    requires { IsNumbering numbers.now.entries (names_in structures.now) }
    ensures { IfOk result (λ graph. graph ≡ graph_of structures.now) }
{
    let mut graph = List::new(alloc);
    for outline in structures {
        graph.push(targets(alloc, structures, numbers, outline.uses.as_slice())?)?;
    }
    Ok(graph)
}
