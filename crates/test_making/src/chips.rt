// Chips whose counts, answers and bytes were worked out by another program, and a chip with two wires that touch.
use std::alloc::{AllocError, Global};
use std::test::Fail;
use test_runs::{
    AND, LIBRARY_A, Outcome, Refusal, is_answered, is_refused, ran, stored, stored_chip, wires,
};

// Each chip is built, verified with its library, and answers as its recipe.
#[test]
fn three_inputs_answer(rt: HostRuntime) -> Result<(), Fail> {
    let alloc = rt.alloc();
    let cases = [
        (
            "11- 1\n1-1 1\n-11 1\n",
            "000\n110\n011\n100\n",
            "rows 3 cells 5 wires 4 delay 2\n0\n1\n1\n0\n",
        ),
        (
            "100 1\n010 1\n001 1\n111 1\n",
            "000\n100\n110\n111\n",
            "rows 10 cells 32 wires 35 delay 9\n0\n1\n0\n1\n",
        ),
    ];
    for (recipe, words, told) in cases {
        let net = format!(in alloc; ".inputs a b c\n.outputs y\n.names a b c y\n{recipe}")?;
        assert!(rt; is_answered(alloc, net.as_str(), words, told)?, "{recipe}");
    }
    Ok(())
}

// Without splitters of three, three outputs of one signal take two splitters of two.
#[test]
fn splitters_of_two_serve_three(rt: HostRuntime) -> Result<(), Fail> {
    let alloc = rt.alloc();
    let given = "[split3]\ninputs = [1]\noutputs = [2, 6, 10]\n";
    let lib = LIBRARY_A.replace(alloc, given, "")?;
    let net = ".inputs a\n.outputs a a a\n";
    let files = stored(alloc, net, lib.as_str(), "")?;
    let built = ran(alloc, files, "build net lib out")?;
    assert_eq!(rt;
        built.out.bytes(),
        b"rows 4 cells 7 wires 6 delay 3\n".as_slice()
    );
    Ok(())
}

// A stream that is longer than a piece is appended in two.
#[test]
fn two_hundred_wires_are_stored(rt: HostRuntime) -> Result<(), Fail> {
    let alloc = rt.alloc();
    let net = wires(alloc, 200)?;
    let files = stored(alloc, net.as_str(), LIBRARY_A, "")?;
    let built = ran(alloc, files, "build net lib out")?;
    assert_eq!(rt;
        built.out.bytes(),
        b"rows 2 cells 400 wires 200 delay 1\n".as_slice()
    );
    assert_eq!(rt;
        built.files.bytes("out").map(|bytes| bytes.len()),
        Some(91754)
    );
    assert_eq!(rt; built.files.calls(), 6);
    Ok(())
}

// A boundary on the layer M2, from 5500, 11500 to 10500, 12500.
const BRIDGE: [u8; 64] = [
    0, 4, 8, 0, 0, 6, 13, 2, 0, 12, 0, 6, 14, 2, 0, 0, 0, 44, 16, 3, 0, 0, 21, 124, 0, 0, 44, 236,
    0, 0, 41, 4, 0, 0, 44, 236, 0, 0, 41, 4, 0, 0, 48, 212, 0, 0, 21, 124, 0, 0, 48, 212, 0, 0, 21,
    124, 0, 0, 44, 236, 0, 4, 17, 0,
];

// The stream with one more shape at the end of its last structure, the top.
fn with_bridge(alloc: Global, stream: &[u8]) -> Result<Vec<u8>, AllocError> {
    let (elements, end) = stream.split_at(stream.len().saturating_sub(8));
    let mut bytes = Vec::new(alloc);
    bytes.extend_from_slice(elements)?;
    bytes.extend_from_slice(&BRIDGE)?;
    bytes.extend_from_slice(end)?;
    Ok(bytes)
}

// Whether the netlist's chip, with one more shape, is refused so.
fn is_bad_bridged(alloc: Global, built: &Outcome, refusal: Refusal<'_>) -> Result<bool, Fail> {
    let bridged = with_bridge(alloc, built.files.bytes("out").unwrap_or(&[]))?;
    let files = stored_chip(alloc, bridged.as_slice(), "", LIBRARY_A, "00\n")?;
    is_refused(alloc, files, "verify chip lib words", refusal)
}

// The wires of the two inputs of an and, joined by one more shape.
#[test]
fn wires_that_touch_are_refused(rt: HostRuntime) -> Result<(), Fail> {
    let alloc = rt.alloc();
    let files = stored(alloc, AND, LIBRARY_A, "")?;
    let built = ran(alloc, files, "build net lib out")?;
    let refusal = Refusal {
        status: 12,
        told: "rule E3: shapes 2 4",
    };
    assert!(rt; is_bad_bridged(alloc, &built, refusal)?);
    Ok(())
}
