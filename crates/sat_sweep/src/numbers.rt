// The numbers of a graph's nodes.
ghost use Rattle.std.specs.Prelude.{◌≡◌, ◌+◌, ◌*◌};
ghost use Rattle.mig.specs.Building.{limit};

use mig::Builder;

/// The number of the first majority: the constant and the inputs come before it.
pub(crate) fn first_node(graph: &Builder) -> u32
    ensures { result ≡ 1 + graph.now.inputs }
{
    graph.known();
    graph.inputs() + 1
}

/// The first number that no node has.
pub(crate) fn node_limit(graph: &Builder) -> u32
    ensures { 2 * result ≡ limit graph.now }
{
    graph.known();
    graph.inputs() + 1 + graph.node_count() as u32
}
