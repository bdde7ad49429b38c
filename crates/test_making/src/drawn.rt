// Chips of netlists of cells, over a store in memory: what is drawn again of what `netlist` writes, and what is
// refused.
use std::alloc::Global;
use std::test::Fail;
use test_runs::{AND, LIBRARY_A, Outcome, Refusal, WIRE, XOR, is_refused, ran, stored};

// The netlist of the chip of a netlist, under `net`, with library A, of which one part is replaced; the netlist itself
// is under `words`.
fn written(alloc: Global, net: &str, from: &str, to: &str) -> Result<Outcome, Fail> {
    let lib = LIBRARY_A.replace(alloc, from, to)?;
    let built = ran(
        alloc,
        stored(alloc, net, lib.as_str(), net)?,
        "build net lib chip",
    )?;
    Ok(ran(alloc, built.files, "netlist chip lib net")?)
}

// Whether the cells of that chip, drawn again, are told so, and answer as the netlist does.
fn is_drawn_again(
    alloc: Global,
    net: &str,
    from: &str,
    to: &str,
    told: &str,
) -> Result<bool, Fail> {
    let drawn = ran(
        alloc,
        written(alloc, net, from, to)?.files,
        "draw net lib out",
    )?;
    let counted = drawn.status == 0 && drawn.out.bytes() == told.as_bytes();
    let compared = ran(alloc, drawn.files, "equal out lib words")?;
    Ok(counted && compared.out.bytes() == b"equal\n".as_slice())
}

#[test]
fn what_is_written_is_drawn_again(rt: HostRuntime) -> Result<(), Fail> {
    let same = "capacity = 28";
    let cases = [
        (XOR, same, "rows 6 cells 13 wires 14 delay 5\n"),
        (
            ".inputs a b\n.outputs a a\n",
            same,
            "rows 3 cells 5 wires 3 delay 2\n",
        ),
        (
            ".inputs a\n.outputs a k\n.names k\n",
            same,
            "rows 2 cells 4 wires 2 delay 1\n",
        ),
        (
            ".model one\n.outputs y\n.names y\n1\n.end\n",
            same,
            "rows 2 cells 2 wires 1 delay 1\n",
        ),
        (
            ".inputs a b\n.outputs y\n.names b a y\n11 1\n",
            "capacity = 4",
            "rows 5 cells 11 wires 10 delay 4\n",
        ),
    ];
    for (net, to, told) in cases {
        assert!(rt; is_drawn_again(rt.alloc(), net, same, to, told)?, "{told}");
    }
    Ok(())
}

// A cell of each kind by hand: an inverter above a splitter of two, and a constant beside a majority.
#[test]
fn cells_are_drawn_as_they_stand(rt: HostRuntime) -> Result<(), Fail> {
    let alloc = rt.alloc();
    let net =
        ".inputs a b\n.outputs x y\n.names a m\n1 1\n.names b n\n1 1\n.names k\n1\n.names m k n c\n11- 1\n1-1 1\n-11 1\n.names c s\n1 1\n.names s i\n0 1\n.names s p\n1 1\n.names i q\n1 1\n.names p r\n1 1\n.names q x\n1 1\n.names r y\n1 1\n";
    let drawn = ran(
        alloc,
        stored(alloc, net, LIBRARY_A, "00\n01\n10\n11\n")?,
        "draw net lib out",
    )?;
    assert_eq!(rt; drawn.status, 0);
    let shown = ran(alloc, drawn.files, "verify out lib words")?;
    let told = b"rows 5 cells 9 wires 8 delay 4\n10\n01\n01\n01\n";
    assert_eq!(rt; shown.out.bytes(), told.as_slice());
    Ok(())
}

#[test]
fn other_netlists_are_refused(rt: HostRuntime) -> Result<(), Fail> {
    let cases = [
        (AND, "line 3: cells cover"),
        (WIRE, "line 0: cells uses"),
        (
            ".inputs a\n.outputs y\n.names a i\n0 1\n.names i s\n1 1\n.names s y\n1 1\n",
            "line 3: cells level",
        ),
        (
            ".inputs a\n.outputs m\n.names a m\n1 1\n",
            "line 0: cells outputs",
        ),
    ];
    for (net, told) in cases {
        let files = stored(rt.alloc(), net, LIBRARY_A, "")?;
        let refusal = Refusal { status: 19, told };
        let good = is_refused(rt.alloc(), files, "draw net lib out", refusal)?;
        assert!(rt; good, "{told}");
    }
    Ok(())
}
