// The calls of models with what their names stand for, found once for all the places where a call is expanded: so the
// length of a name costs as often as the text says it.
ghost use Rattle.std.specs.Prelude.{◌≡◌, ◌++◌, ◌<◌, length, map, reverse, replicate, [], IfOk, OnOk};
ghost use Rattle.std.specs.List.{filter};
ghost use Rattle.blif_read.specs.Parts.{is_defined};
ghost use Rattle.blif_read.specs.Code.Seen.{texts};
ghost use Rattle.blif_flat.specs.Designs.{formals, actual_of};
ghost use Rattle.blif_flat.specs.Code.Calls.{IsCallOrder};
ghost use Rattle.blif_flat.specs.Code.Joins.{actual_in};
ghost use Rattle.blif_flat.specs.Code.Linked.{IsLinkOf, AreLinks, HasLinks};

use crate::models::indexed::Design;
use crate::models::joins::{actual_in, ports_for};
use crate::models::names::Names;
use aq_base::{List, Memory};
use blif_read::{BlifModel, Call};
use std::alloc::Global;

/// A call, the number of the model that it names, and the signals of the caller that outputs of this model are joined
/// to, in the order of the outputs.
#[derive(Drop)]
pub struct Link<'a> {
    pub call: &'a Call,
    pub model: Option<u32>,
    pub actuals: Vec<&'a [u8]>,
}

/// The links of a model's calls, in their order.
pub type Links<'a> = List<Link<'a>>;

/// Adds the actual of a port that is there.
fn push_actual<'a>(
    names: &mut Vec<&'a [u8]>,
    call: &'a Call,
    port: Option<usize>,
) -> Result<(), Memory>
    ensures { OnOk result (texts names.new.items ≡ texts names.old.items ++ actual_in call.now port) }
{
    if let Some(actual) = actual_in(call, port) {
        names.push(actual)?;
    }
    Ok(())
}

/// The actuals of those of some outputs that a port of the call names, in the order of the outputs.
fn actuals_of<'a>(
    alloc: Global,
    outputs: &Names<'_>,
    call: &'a Call,
) -> Result<Vec<&'a [u8]>, Memory>
    ensures { IfOk result (λ names. texts names.items
        ≡ map (actual_of call.now) (filter (is_defined (formals call.now)) outputs.now)) }
{
    let ports = ports_for(alloc, outputs, call)?;
    let mut names = Vec::new(alloc);
    for port in &ports {
        push_actual(&mut names, call, *port)?;
    }
    Ok(names)
}

/// The link of a call.
fn link_of<'a>(alloc: Global, design: &Design<'_>, call: &'a Call) -> Result<Link<'a>, Memory>
    ensures { IfOk result (IsLinkOf design.now call.now) }
{
    let model = design.number(call);
    let actuals = match design.model(model) {
        Some(model) => actuals_of(alloc, model.outputs(), call)?,
        None => Vec::new(alloc),
    };
    Ok(Link {
        call,
        model,
        actuals,
    })
}

fn links_of<'a>(alloc: Global, design: &Design<'_>, calls: &'a [Call]) -> Result<Links<'a>, Memory>
    ensures { IfOk result (AreLinks design.now calls.now) }
{
    let mut links = List::new(alloc);
    for call in calls {
        let link = link_of(alloc, design, call)?;
        links.push(link)?;
    }
    Ok(links)
}

fn no_links<'a>(alloc: Global, count: usize) -> Result<List<Links<'a>>, Memory>
    ensures { IfOk result (λ table. table ≡ replicate count []) }
{
    let mut table = List::from_vec(Vec::with_capacity(alloc, count)?);
    for _number in 0..count {
        table.push(List::new(alloc))?;
    }
    Ok(table)
}

/// The links of the models that stand in an order, by the numbers of models. What it takes grows with the size of the
/// design, since a link looks at all outputs of the model that is called.
pub fn link_table<'a>(
    alloc: Global,
    design: &Design<'_>,
    models: &'a [BlifModel],
    order: &[u32],
) -> Result<List<Links<'a>>, Memory>
    requires same { design.now ≡ models.now }
    requires order { IsCallOrder models.now order.now }
    ensures { IfOk result (HasLinks models.now (reverse order.now)) }
{
    let mut table = no_links(alloc, models.len())?;
    for number in order {
        let at = *number as usize;
        let links = links_of(alloc, design, models[at].calls.as_slice())?;
        table.set(at, links);
    }
    Ok(table)
}
