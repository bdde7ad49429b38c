// Inputs that are large by number, or stand for many.
use std::alloc::{AllocError, Global};
use std::test::Fail;
use test_runs::{LIBRARY_A, Refusal, STREAM, holding, is_refused, ran, store};

// An input, an output, and so many definitions between them, each of the one that comes next.
fn chain(alloc: Global, links: u32) -> Result<String, AllocError> {
    let mut net = String::from_str(alloc, ".inputs a\n.outputs x0\n")?;
    for link in 1..links {
        let definition = format!(in alloc; ".names x{link} x{}\n1 1\n", link - 1)?;
        net.push_str(definition.as_str())?;
    }
    let last = format!(in alloc; ".names a x{}\n1 1\n", links.saturating_sub(1))?;
    net.push_str(last.as_str())?;
    Ok(net)
}

// Names of one signal take no cell.
#[test]
fn a_long_chain_is_a_wire(rt: HostRuntime) -> Result<(), Fail> {
    let net = chain(rt.alloc(), 200_000)?;
    let files = store(rt.alloc(), net.as_bytes(), LIBRARY_A.as_bytes())?;
    let built = ran(rt.alloc(), files, "build net lib out")?;
    assert_eq!(rt;
        built.out.bytes(),
        b"rows 2 cells 2 wires 1 delay 1\n".as_slice()
    );
    Ok(())
}

// One input that is so many outputs.
fn shown(alloc: Global, outputs: u32) -> Result<String, AllocError> {
    let mut net = String::from_str(alloc, ".inputs a\n.outputs")?;
    for _ in 0..outputs {
        net.push_str(" a")?;
    }
    net.push('\n')?;
    Ok(net)
}

#[test]
fn too_many_splitters_are_refused(rt: HostRuntime) -> Result<(), Fail> {
    let net = shown(rt.alloc(), 2_000_000)?;
    let files = store(rt.alloc(), net.as_bytes(), LIBRARY_A.as_bytes())?;
    let refusal = Refusal {
        status: 10,
        told: "too large: 3000008 cells",
    };
    assert!(rt; is_refused(rt.alloc(), files, "build net lib out", refusal)?);
    Ok(())
}

// A structure of 4,000 frames, and a top that refers to it so many times.
fn crowd(alloc: Global, chip: &[u8], references: u32) -> Result<Vec<u8>, AllocError> {
    let mut bytes = Vec::new(alloc);
    let (head, rest) = chip.split_at(98.min(chip.len()));
    let (frame, rest) = rest.split_at(64.min(rest.len()));
    let (_, rest) = rest.split_at(128.min(rest.len()));
    let (top, rest) = rest.split_at(40.min(rest.len()));
    let (reference, _) = rest.split_at(28.min(rest.len()));
    bytes.extend_from_slice(head)?;
    for _ in 0..4_000 {
        bytes.extend_from_slice(frame)?;
    }
    bytes.extend_from_slice(top)?;
    for _ in 0..references {
        bytes.extend_from_slice(reference)?;
    }
    bytes.extend_from_slice(b"\x00\x04\x07\x00\x00\x04\x04\x00")?;
    Ok(bytes)
}

// They are counted, and not made.
#[test]
fn too_many_shapes_are_refused(rt: HostRuntime) -> Result<(), Fail> {
    let crowd = crowd(rt.alloc(), STREAM.as_slice(), 2_001)?;
    let files = holding(rt.alloc(), crowd.as_slice())?;
    let refusal = Refusal {
        status: 10,
        told: "too large: 8004000 shapes",
    };
    assert!(rt; is_refused(rt.alloc(), files, "verify chip lib words", refusal)?);
    Ok(())
}
