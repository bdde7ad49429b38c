// The netlist of a chip's circuit, stored and built again.
use std::alloc::Global;
use std::test::Fail;
use test_runs::{FIRST_NETLIST, LIBRARY_A, Outcome, STREAM, ran, stored, with_chip};

// The first chip's netlist, stored under `net`.
fn written(alloc: Global) -> Result<Outcome, Fail> {
    let files = with_chip(alloc)?;
    Ok(ran(alloc, files, "netlist chip lib net")?)
}

#[test]
fn the_netlist_of_the_first_chip(rt: HostRuntime) -> Result<(), Fail> {
    let ran = written(rt.alloc())?;
    assert_eq!(rt; ran.status, 0);
    assert_eq!(rt; ran.files.bytes("net"), Some(FIRST_NETLIST.as_bytes()));
    assert_eq!(rt;
        ran.out.bytes(),
        b"rows 2 cells 2 wires 1 delay 1\n".as_slice()
    );
    assert_eq!(rt; ran.files.calls(), 5);
    Ok(())
}

#[test]
fn what_is_written_is_built_again(rt: HostRuntime) -> Result<(), Fail> {
    let alloc = rt.alloc();
    let built = ran(alloc, written(alloc)?.files, "build net lib again")?;
    assert_eq!(rt; built.status, 0);
    assert!(rt; built.files.bytes("again") == Some(STREAM.as_slice()));
    Ok(())
}

// The netlist of the chip of a netlist.
fn rewritten(alloc: Global, net: &str) -> Result<Outcome, Fail> {
    let files = stored(alloc, net, LIBRARY_A, "")?;
    let built = ran(alloc, files, "build net lib chip")?;
    Ok(ran(alloc, built.files, "netlist chip lib out")?)
}

// Cells of each kind above others, worked by hand. Inputs keep their order; the majority takes the third before the
// second.
#[test]
fn netlists_of_each_kind_of_cell(rt: HostRuntime) -> Result<(), Fail> {
    let cases = [
        (
            ".inputs a\n.outputs y\n.names a y\n0 1\n",
            ".inputs I0\n.outputs O0\n.names I0 n0\n1 1\n.names n0 n1\n0 1\n.names n1 n2\n1 1\n.names n2 O0\n1 1\n",
        ),
        (
            ".inputs a\n.outputs a k o\n.names k\n.names o\n1\n",
            ".inputs I0\n.outputs O0 O1 O2\n.names I0 n0\n1 1\n.names n1\n.names n2\n1\n.names n0 n3\n1 1\n.names n1 n4\n1 1\n.names n2 n5\n1 1\n.names n3 O0\n1 1\n.names n4 O1\n1 1\n.names n5 O2\n1 1\n",
        ),
        (
            ".inputs a\n.outputs a a\n",
            ".inputs I0\n.outputs O0 O1\n.names I0 n0\n1 1\n.names n0 n1\n1 1\n.names n1 n2\n1 1\n.names n1 n3\n1 1\n.names n2 O0\n1 1\n.names n3 O1\n1 1\n",
        ),
        (
            ".inputs a\n.outputs a a a\n",
            ".inputs I0\n.outputs O0 O1 O2\n.names I0 n0\n1 1\n.names n0 n1\n1 1\n.names n1 n2\n1 1\n.names n1 n3\n1 1\n.names n1 n4\n1 1\n.names n2 O0\n1 1\n.names n3 O1\n1 1\n.names n4 O2\n1 1\n",
        ),
        (
            ".inputs a b c\n.outputs y\n.names a b c y\n11- 1\n1-1 1\n-11 1\n",
            ".inputs I0 I1 I2\n.outputs O0\n.names I0 n0\n1 1\n.names I1 n1\n1 1\n.names I2 n2\n1 1\n.names n0 n2 n1 n3\n11- 1\n1-1 1\n-11 1\n.names n3 n4\n1 1\n.names n4 O0\n1 1\n",
        ),
    ];
    for (net, lines) in cases {
        let text = format!(in rt.alloc(); ".model aqfp\n{lines}.end\n")?;
        let ran = rewritten(rt.alloc(), net)?;
        assert!(rt; ran.files.bytes("out") == Some(text.as_bytes()), "{net}");
    }
    Ok(())
}
