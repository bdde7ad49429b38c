// Whether the ports of a call fit the model that it names.
ghost use Rattle.std.specs.Prelude.{◌≡◌, ◌++◌, [], map, IfOk, false};
ghost use Rattle.std.specs.List.{list_all};
ghost use Rattle.blif_read.specs.Parts.{is_defined};
ghost use Rattle.blif_read.specs.Faults.{adds_again};
ghost use Rattle.blif_read.specs.Code.Seen.{texts};
ghost use Rattle.blif_flat.specs.Designs.{names_in, formals};
ghost use Rattle.blif_flat.specs.DesignFaults.{fits};

use crate::models::indexed::IndexedModel;
use aq_base::Memory;
use blif_read::{Call, Named, Port};
use indexmap::IndexSet;
use name_hash::NameHash;
use std::alloc::Global;

/// The formals of ports. The hash is keyed by the text.
type Formals<'a> = IndexSet<&'a [u8], NameHash>;

/// Each port is joined to an input or an output.
fn are_known(model: &IndexedModel<'_>, ports: &[Port]) -> bool
    ensures { result ≡ list_all
        (λ p. is_defined (names_in model.now.inputs ++ names_in model.now.outputs) p.formal) ports.now }
{
    for port in ports {
        if !model.has(port.formal.as_slice()) {
            return false;
        }
    }
    true
}

/// Adds the formals of ports up to the first that is there already, and answers whether there is one.
fn add_formals<'a>(formals: &mut Formals<'a>, ports: &'a [Port]) -> Result<bool, Memory>
    ensures again { IfOk result (λ again. again
        ≡ adds_again (texts formals.old.keys) (map (λ p. p.formal) ports.now)) }
    ensures keys { IfOk result (λ again. again ≡ false → texts formals.new.keys
        ≡ texts formals.old.keys ++ map (λ p. p.formal) ports.now) }
{
    for port in ports {
        let (_, new) = formals.insert_full(port.formal.as_slice())?;
        if !new {
            return Ok(true);
        }
    }
    Ok(false)
}

/// Whether a name is one of the formals.
fn is_among(formals: &Formals<'_>, name: &[u8]) -> bool
    ensures { result ≡ is_defined (texts formals.now.keys) name.now }
{
    formals.contains(&name)
}

/// Each input has a port. No more inputs are looked at than there are ports, and one.
fn are_joined(inputs: &[Named], formals: &Formals<'_>) -> bool
    ensures { result ≡ list_all (λ n. is_defined (texts formals.now.keys) n.name) inputs.now }
{
    for input in inputs {
        if !is_among(formals, input.name.as_slice()) {
            return false;
        }
    }
    true
}

/// Whether the ports of a call fit a model.
pub fn fits(
    alloc: Global,
    hash: NameHash,
    model: &IndexedModel<'_>,
    call: &Call,
) -> Result<bool, Memory>
    ensures { IfOk result (λ is. is ≡ fits model.now call.now) }
{
    if !call.well_formed || !model.is_apart() || !are_known(model, call.ports.as_slice()) {
        return Ok(false);
    }
    let mut formals = IndexSet::with_hasher(alloc, hash);
    if add_formals(&mut formals, call.ports.as_slice())? {
        return Ok(false);
    }
    Ok(are_joined(model.inputs(), &formals))
}
