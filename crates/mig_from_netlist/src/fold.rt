// Lists of literals, joined.
ghost use Rattle.std.specs.Prelude.{◌≡◌, ◌<◌, cond, map, IfOk};
ghost use Rattle.mig.specs.Graphs.{literal_value};
ghost use Rattle.mig.specs.Building.{Grown, Gives, limit, AllThere};
ghost use Rattle.mig_from_netlist.specs.Code.Joins.{join, none, joined};

use crate::gates::{and, or};
use mig::{Builder, GraphRefusal};

/// Which operation joins literals.
#[derive(Clone, Copy)]
pub(crate) enum Join {
    And,
    Or,
}

fn join_two(builder: &mut Builder, which: Join, x: u32, y: u32) -> Result<u32, GraphRefusal>
    requires x { x < limit builder.old }
    requires y { y < limit builder.old }
    ensures grown { Grown builder.old builder.new }
    ensures given { IfOk result (λ l. Gives builder.new l (λ v. join which (literal_value v x) (literal_value v y))) }
{
    match which {
        Join::And => and(builder, x, y),
        Join::Or => or(builder, x, y),
    }
}

/// The literal of the constant that no literals give.
fn none_joined(which: Join) -> u32
    ensures { result ≡ cond (none which) 1 0 }
{
    match which {
        Join::And => 1,
        Join::Or => 0,
    }
}

/// The literals joined: the first half, rounded up, then the rest, and then both.
pub(crate) fn fold(
    builder: &mut Builder,
    which: Join,
    literals: &[u32],
) -> Result<u32, GraphRefusal>
    requires { AllThere builder.old literals.now }
    ensures grown { Grown builder.old builder.new }
    ensures given { IfOk result (λ l. Gives builder.new l
        (λ v. joined which (map (literal_value v) literals.now))) }
{
    if literals.len() == 0 {
        return Ok(none_joined(which));
    }
    if literals.len() == 1 {
        return Ok(literals[0]);
    }
    let (left, right) = literals.split_at((literals.len() + 1) / 2);
    let first = fold(builder, which, left)?;
    let second = fold(builder, which, right)?;
    join_two(builder, which, first, second)
}
