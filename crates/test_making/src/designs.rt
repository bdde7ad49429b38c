// Designs of several models: built, checked against themselves, and large by number or depth.
use std::alloc::{AllocError, Global};
use std::test::Fail;
use test_runs::{LIBRARY_A, Refusal, is_refused, ran, store};

/// A half adder in a model of its own.
const HALF_ADDER: &str =
    ".model top\n.inputs a b\n.outputs s c\n.subckt half x=a y=b p=s q=c\n.end\n.model half\n.inputs x y\n.outputs p q\n.names x y p\n10 1\n01 1\n.names x y q\n11 1\n.end\n";

#[test]
fn a_design_is_built(rt: HostRuntime) -> Result<(), Fail> {
    let mut files = store(rt.alloc(), HALF_ADDER.as_bytes(), LIBRARY_A.as_bytes())?;
    files.add("words", b"00\n01\n10\n11\n")?;
    let built = ran(rt.alloc(), files, "build net lib chip")?;
    assert_eq!(rt; built.status, 0);
    let checked = ran(rt.alloc(), built.files, "verify chip lib words")?;
    assert_eq!(rt;
        checked.out.bytes(),
        b"rows 6 cells 18 wires 20 delay 5\n00\n10\n10\n01\n".as_slice()
    );
    let compared = ran(rt.alloc(), checked.files, "equal chip lib net")?;
    assert_eq!(rt; compared.out.bytes(), b"equal\n".as_slice());
    Ok(())
}

// A wire through so many models, each of which calls the next.
fn nested(alloc: Global, depth: u32) -> Result<String, AllocError> {
    let mut net = String::from_str(alloc, "")?;
    for model in 0..depth {
        let head = format!(in alloc; ".model m{model}\n.inputs i\n.outputs o\n")?;
        net.push_str(head.as_str())?;
        if model + 1 < depth {
            let call = format!(in alloc; ".subckt m{} i=i o=o\n", model + 1)?;
            net.push_str(call.as_str())?;
        } else {
            net.push_str(".names i o\n1 1\n")?;
        }
    }
    Ok(net)
}

// A wire, and so many calls of a model whose output has a name of so many bytes, all for nothing.
fn named_at_length(alloc: Global, bytes: u32, calls: u32) -> Result<String, AllocError> {
    let mut net = String::from_str(alloc, ".model top\n.inputs a\n.outputs a\n")?;
    for _ in 0..calls {
        net.push_str(".subckt b\n")?;
    }
    let mut name = String::from_str(alloc, "")?;
    for _ in 0..bytes {
        name.push('x')?;
    }
    let model = format!(in alloc;
        ".model b\n.outputs {}\n.names {}\n1\n",
        name.as_str(),
        name.as_str()
    )?;
    net.push_str(model.as_str())?;
    Ok(net)
}

// Each model from this one on calls the next twice, up to the last, which is a constant.
fn doubled(alloc: Global, from: u32, times: u32) -> Result<String, AllocError> {
    let mut net = String::from_str(alloc, "")?;
    for model in from..times {
        let next = model + 1;
        let calls = format!(in alloc;
            ".model m{model}\n.outputs o\n.subckt m{next} o=o\n.subckt m{next}\n"
        )?;
        net.push_str(calls.as_str())?;
    }
    let last = format!(in alloc; ".model m{times}\n.outputs o\n.names o\n1\n")?;
    net.push_str(last.as_str())?;
    Ok(net)
}

// A wire, and calls of doubled models and a definition for nothing: a design of size 16,777,146, and one more for each
// input of that definition.
fn sized(alloc: Global, inputs: u32) -> Result<String, AllocError> {
    let mut net = String::from_str(alloc, ".model top\n.inputs a\n.outputs a\n.subckt m1\n")?;
    for model in [1, 2, 4, 6, 8, 10, 12, 14, 16, 18] {
        let call = format!(in alloc; ".subckt m{model}\n")?;
        net.push_str(call.as_str())?;
    }
    net.push_str(".names")?;
    for _ in 0..inputs {
        net.push_str(" a")?;
    }
    net.push_str(" b\n")?;
    let models = doubled(alloc, 1, 20)?;
    net.push_str(models.as_str())?;
    Ok(net)
}

#[test]
fn depth_names_and_size_cost_what_they_are(rt: HostRuntime) -> Result<(), Fail> {
    let nets = [
        nested(rt.alloc(), 10_000)?,
        named_at_length(rt.alloc(), 1_000_000, 100_000)?,
        sized(rt.alloc(), 70)?,
    ];
    for net in nets {
        let files = store(rt.alloc(), net.as_bytes(), LIBRARY_A.as_bytes())?;
        let built = ran(rt.alloc(), files, "build net lib out")?;
        assert_eq!(rt;
            built.out.bytes(),
            b"rows 2 cells 2 wires 1 delay 1\n".as_slice()
        );
    }
    Ok(())
}

#[test]
fn too_large_designs_are_refused(rt: HostRuntime) -> Result<(), Fail> {
    let cases = [
        (doubled(rt.alloc(), 0, 21)?, "too large: 25165814 design"),
        (
            doubled(rt.alloc(), 0, 100)?,
            "too large: 18446744073709551615 design",
        ),
        (sized(rt.alloc(), 71)?, "too large: 16777217 design"),
    ];
    for (net, told) in cases {
        let files = store(rt.alloc(), net.as_bytes(), LIBRARY_A.as_bytes())?;
        let refusal = Refusal { status: 10, told };
        assert!(rt;
            is_refused(rt.alloc(), files, "build net lib out", refusal)?,
            "{told}"
        );
    }
    Ok(())
}
