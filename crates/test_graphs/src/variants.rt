// Netlists that are read from texts, and their graphs: how many nodes and levels each has, and a number that tells it
// apart. What is expected was computed by another program, written from the description of the steps; only the graphs
// whose carries are one majority each, by table, are as the code gave them, and were read node by node.
ghost use Rattle.std.specs.Prelude.{◌≤◌, ◌^◌, length};

use aq_base::Memory;
use blif_read::blif_read;
use mig::Graph;
use plan_compact::graph_variants;
use std::alloc::Global;
use std::test::Fail;

/// A number that tells graphs apart.
fn print_of(graph: &Graph) -> u64 {
    let mut print = graph.node_count() as u64;
    for node in graph.nodes() {
        print = print.wrapping_mul(1_000_003).wrapping_add(node.x as u64);
        print = print.wrapping_mul(1_000_003).wrapping_add(node.y as u64);
        print = print.wrapping_mul(1_000_003).wrapping_add(node.z as u64);
    }
    for output in graph.outputs() {
        print = print.wrapping_mul(1_000_003).wrapping_add(*output as u64);
    }
    print
}

/// Whether there are graphs of these sizes and levels, with these numbers.
fn are(alloc: Global, graphs: &[Graph], wanted: &[(usize, u32, u64)]) -> Result<bool, Memory> {
    if graphs.len() != wanted.len() {
        return Ok(false);
    }
    for (graph, (nodes, depth, print)) in graphs.iter().zip(wanted) {
        if graph.node_count() != *nodes || print_of(graph) != *print {
            return Ok(false);
        }
        if graph.depth(alloc)? != *depth {
            return Ok(false);
        }
    }
    Ok(true)
}

/// Whether a netlist has these graphs.
fn has(alloc: Global, text: &[u8], wanted: &[(usize, u32, u64)]) -> Result<bool, Memory>
    requires { length text.now ≤ 2 ^ 28 }
{
    let Ok(net) = blif_read(alloc, text) else {
        return Ok(false);
    };
    let graphs = graph_variants(alloc, &net)?;
    are(alloc, graphs.as_slice(), wanted)
}

#[test]
fn graphs_of_netlists(rt: HostRuntime) -> Result<(), Fail> {
    let netlists = [
        // exclusive or, nothing to gain
        (
            ".inputs a b\n.outputs y\n.names a b y\n10 1\n01 1\n",
            [
                (3, 2, 138_544_014_264_326_349),
                (3, 2, 11_296_752_869_554_324_305),
            ]
            .as_slice(),
        ),
        // full adder
        (
            ".inputs a b c\n.outputs s d\n.names a b c s\n100 1\n010 1\n001 1\n111 1\n.names a b c d\n\
             11- 1\n1-1 1\n-11 1\n",
            [
                (3, 2, 9_722_388_328_912_073_811),
                (7, 4, 13_954_035_969_896_811_571),
            ]
            .as_slice(),
        ),
        // an adder of four bits
        (
            ".inputs a0 b0 a1 b1 a2 b2 a3 b3\n.outputs s0 s1 s2 s3 c3\n.names a0 b0 s0\n10 1\n01 1\n\
             .names a0 b0 c0\n11 1\n.names a1 b1 p1\n10 1\n01 1\n.names p1 c0 s1\n10 1\n01 1\n\
             .names a1 b1 c0 c1\n11- 1\n1-1 1\n-11 1\n.names a2 b2 p2\n10 1\n01 1\n.names p2 c1 s2\n\
             10 1\n01 1\n.names a2 b2 c1 c2\n11- 1\n1-1 1\n-11 1\n.names a3 b3 p3\n10 1\n01 1\n\
             .names p3 c2 s3\n10 1\n01 1\n.names a3 b3 c2 c3\n11- 1\n1-1 1\n-11 1\n",
            [
                (12, 5, 4_539_747_609_998_357_996),
                (14, 4, 10_000_424_775_101_114_670),
                (24, 5, 11_229_124_426_518_170_974),
                (26, 4, 7_693_531_645_286_158_396),
            ]
            .as_slice(),
        ),
        // eight inputs by cubes, six by table
        (
            ".inputs a b c d e f g h\n.outputs y z\n.names a b c d e f g h y\n1-0-1-1- 0\n-11-0--1 0\n\
             .names a b c d e f z\n11---- 1\n--11-- 1\n----11 1\n",
            [
                (12, 3, 14_936_833_102_640_397_590),
                (12, 5, 2_094_372_072_133_825_754),
                (14, 4, 9_393_356_360_723_559_115),
            ]
            .as_slice(),
        ),
        // six inputs
        (
            ".inputs a b c d e f\n.outputs y\n.names a b c d e f y\n1-1-1- 1\n0--1-1 1\n-10-0- 1\n",
            [
                (10, 4, 15_818_754_259_854_666_257),
                (11, 6, 17_414_862_165_761_533_961),
                (11, 5, 2_869_972_129_276_838_135),
            ]
            .as_slice(),
        ),
        // constants and a complement
        (
            ".inputs a b\n.outputs o z y n\n.names o\n1\n.names z\n.names a b y\n-- 1\n.names a n\n0 1\n",
            [
                (0, 0, 1_000_009_000_028_000_033),
                (0, 0, 1_000_009_000_028_000_033),
            ]
            .as_slice(),
        ),
        // a chain of sixteen
        (
            ".inputs a b c d e f g h i j k l m n o p\n.outputs y\n.names a b B\n11 1\n.names B c C\n\
             11 1\n.names C d D\n11 1\n.names D e E\n11 1\n.names E f F\n11 1\n.names F g G\n11 1\n\
             .names G h H\n11 1\n.names H i I\n11 1\n.names I j J\n11 1\n.names J k K\n11 1\n\
             .names K l L\n11 1\n.names L m M\n11 1\n.names M n N\n11 1\n.names N o O\n11 1\n\
             .names O p y\n11 1\n",
            [
                (15, 8, 8_511_137_117_391_090_187),
                (15, 5, 17_145_688_283_931_847_287),
                (15, 15, 2_185_547_580_505_123_771),
                (15, 5, 3_707_740_722_502_943_387),
            ]
            .as_slice(),
        ),
    ];
    for (text, wanted) in netlists {
        let bytes = text.as_bytes();
        assert!(rt; bytes.len() < 500);
        assert!(rt; has(rt.alloc(), bytes, wanted)?, "{text}");
    }
    Ok(())
}
