// The tables of trees.
ghost use Rattle.std.specs.Prelude.{◌<◌, ◌^◌, length, IfSome, IsNone};
ghost use Rattle.union_find.specs.Forests.{trees};
ghost use Rattle.union_find.specs.Code.Shapes.{tables_of, AreTables, IsFound, MayBeHung, Unites};
ghost use Rattle.union_find.specs.Code.Shapes.{Rises, IsGrounded};

/// A node's root, and the height of the node above the lowest of its tree.
#[derive(Clone, Copy)]
pub(crate) struct Found {
    pub(crate) root: u32,
    pub(crate) height: u64,
}

/// The root of a node, by the parents, and the node's height.
pub(crate) fn find(parent: &[u32], above: &[u64], height: &[u64], _size: &[u64], node: u32) -> Found
    requires tables { AreTables (tables_of parent.now above.now height.now _size.now) }
    requires node { node < length parent.now }
    ensures { IsFound (trees (tables_of parent.now above.now height.now _size.now)) node result.root result.height }
{
    let count = parent.len() as u64;
    let mut at = node;
    let mut gained = count;
    while parent[at as usize] != at {
        gained = gained + above[at as usize] - count;
        at = parent[at as usize];
    }
    Found {
        root: at,
        height: height[at as usize] + gained - count,
    }
}

/// A root whose tree rises as a whole.
#[derive(Clone, Copy)]
pub(crate) struct Lifted {
    pub(crate) root: u32,
    pub(crate) rise: u64,
}

/// Hangs the tree of a root on another root.
pub(crate) fn hang(
    parent: &mut [u32],
    above: &mut [u64],
    height: &mut [u64],
    size: &mut [u64],
    low: Lifted,
    high: Lifted,
)
    requires tables { AreTables (tables_of parent.old above.old height.old size.old) }
    requires may { MayBeHung (trees (tables_of parent.old above.old height.old size.old)) low.root high.root low.rise
        high.rise }
    ensures tables { AreTables (tables_of parent.new above.new height.new size.new) }
    ensures unites { Unites (trees (tables_of parent.old above.old height.old size.old))
        (trees (tables_of parent.new above.new height.new size.new)) low.root high.root low.rise high.rise }
{
    let count = parent.len() as u64;
    let root = low.root as usize;
    let child = high.root as usize;
    let top = height[root] + low.rise;
    above[child] = height[child] + high.rise + count - top;
    parent[child] = low.root;
    height[root] = top;
    size[root] = size[root] + size[child];
}

/// How much the trees of two nodes rise so that the first is at the height that is wanted; `None` where the ground
/// would have to.
pub(crate) fn rises(high: Found, low: Found, wanted: u64, base: u32) -> Option<(Lifted, Lifted)>
    requires { high.height < 2 ^ 62 }
    ensures some { IfSome result (λ rises. Rises high.root low.root high.height wanted base
        rises.0.root rises.1.root rises.0.rise rises.1.rise) }
    ensures none { IsNone result → IsGrounded high.root low.root high.height wanted base }
{
    let up = wanted.saturating_sub(high.height);
    let down = high.height.saturating_sub(wanted);
    if up > 0 && high.root == base {
        return None;
    }
    if down > 0 && low.root == base {
        return None;
    }
    Some((
        Lifted {
            root: high.root,
            rise: up,
        },
        Lifted {
            root: low.root,
            rise: down,
        },
    ))
}
