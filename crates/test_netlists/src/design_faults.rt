// Texts of models and calls, with the first fault of a line, and such as have none.
ghost use Rattle.std.specs.Prelude.{◌≤◌, ◌^◌, length};

use blif_flat::{FlatKind, FlatRefusal, read_design};
use blif_read::{BlifFault, LineKind};
use std::alloc::Global;
use std::test::Fail;

/// Why a text says no netlist; nothing where it says one.
fn refusal_of(alloc: Global, text: &[u8]) -> Option<FlatRefusal>
    requires { length text.now ≤ 2 ^ 24 }
{
    match read_design(alloc, text) {
        Ok(_net) => None,
        Err(refusal) => Some(refusal),
    }
}

#[test]
fn faults_of_models_and_calls(rt: HostRuntime) -> Result<(), Fail> {
    let texts = [
        (".model a\n.end\n.model a\n", 3, FlatKind::ModelTwice),
        (
            ".model a\n.model b\n.model b\n.model a\n",
            3,
            FlatKind::ModelTwice,
        ),
        (".subckt\n", 1, FlatKind::UnknownModel),
        (".model a\n.subckt b x=y\n", 2, FlatKind::UnknownModel),
        (".model\n.subckt\n.model\n", 2, FlatKind::UnknownModel),
        (
            ".names y\n.outputs y\n.subckt b y=z\n",
            3,
            FlatKind::UnknownModel,
        ),
        (
            ".inputs i\n.subckt m x=i y=o z\n.model m\n.inputs x\n.outputs y\n.names x y\n",
            2,
            FlatKind::Ports,
        ),
        (
            ".inputs i\n.subckt m x=i y=o z=i\n.model m\n.inputs x\n.outputs y\n.names x y\n",
            2,
            FlatKind::Ports,
        ),
        (
            ".inputs i\n.subckt m x=i y=o x=i\n.model m\n.inputs x\n.outputs y\n.names x y\n",
            2,
            FlatKind::Ports,
        ),
        (
            ".inputs i\n.subckt m y=o\n.model m\n.inputs x\n.outputs y\n.names x y\n",
            2,
            FlatKind::Ports,
        ),
        (
            ".inputs i\n.subckt m x=i\n.model m\n.inputs x\n.outputs x\n",
            2,
            FlatKind::Ports,
        ),
        (
            ".inputs i\n.subckt m x=i y=i z\n.model m\n.inputs x\n.outputs y\n.names x y\n",
            2,
            FlatKind::Ports,
        ),
        (
            ".inputs i\n.subckt m x=i y=o\n.names o\n.model m\n.inputs x\n.outputs y\n.names x y\n",
            3,
            FlatKind::Duplicate,
        ),
        (
            ".inputs i\n.subckt m x=i y=i\n.model m\n.inputs x\n.outputs y\n.names x y\n",
            2,
            FlatKind::Duplicate,
        ),
        (
            ".subckt m x=o y=i\n.inputs i o\n.model m\n.inputs x\n.outputs y\n.names x y\n",
            2,
            FlatKind::Duplicate,
        ),
        (
            ".inputs i\n.subckt m y=o z=o\n.model m\n.outputs y z\n.names y\n.names z\n",
            2,
            FlatKind::Duplicate,
        ),
        (
            ".subckt m y=o\n.subckt m y=o\n.inputs o\n.model m\n.outputs y\n.names y\n",
            2,
            FlatKind::Duplicate,
        ),
        // a text of two models, since one of a single model is told otherwise
        (
            ".model a\n.outputs y\n.names x y\n.model b\n",
            3,
            FlatKind::Undefined,
        ),
        (
            ".model a\n.inputs x\n.outputs y\n.model b\n",
            3,
            FlatKind::Undefined,
        ),
        (
            ".subckt m x=u y=o\n.model m\n.inputs x\n.outputs y\n.names x y\n",
            1,
            FlatKind::Undefined,
        ),
        (
            ".outputs u\n.subckt b\n.model m\n.end\n.model m\n",
            1,
            FlatKind::Undefined,
        ),
    ];
    for (text, line, kind) in texts {
        let bytes = text.as_bytes();
        assert!(rt; bytes.len() < 300);
        let told = FlatRefusal::Design { line, kind };
        assert_eq!(rt; refusal_of(rt.alloc(), bytes), Some(told), "{text}");
    }
    Ok(())
}

// Models that call themselves, and a first model without outputs, are told where no line has a fault.
#[test]
fn faults_of_whole_designs(rt: HostRuntime) -> Result<(), Fail> {
    let texts = [
        (
            ".model a\n.inputs x\n.outputs y\n.subckt a x=x y=y\n",
            4,
            FlatKind::Recursive,
        ),
        (
            ".outputs y\n.subckt b y=y\n.model b\n.outputs y\n.subckt c y=y\n.model c\n.outputs y\n.subckt b y=y\n",
            8,
            FlatKind::Recursive,
        ),
        (".model a\n.end\n.model b\n", 0, FlatKind::NoOutputs),
        (".model\n.model\n.model a\n", 0, FlatKind::NoOutputs),
    ];
    for (text, line, kind) in texts {
        let bytes = text.as_bytes();
        assert!(rt; bytes.len() < 300);
        let told = FlatRefusal::Design { line, kind };
        assert_eq!(rt; refusal_of(rt.alloc(), bytes), Some(told), "{text}");
    }
    Ok(())
}

#[test]
fn faults_of_texts(rt: HostRuntime) -> Result<(), Fail> {
    let texts = [
        ("", 0, LineKind::NoOutputs),
        (".model a\n.inputs x\n", 0, LineKind::NoOutputs),
        (".model a\n.latch\n.model b\n", 2, LineKind::Unsupported),
    ];
    for (text, line, kind) in texts {
        let bytes = text.as_bytes();
        assert!(rt; bytes.len() < 300);
        let told = FlatRefusal::Text(BlifFault::Line { line, kind });
        assert_eq!(rt; refusal_of(rt.alloc(), bytes), Some(told), "{text}");
    }
    Ok(())
}

// An output that stands twice, and one of a called model that its call leaves out.
#[test]
fn outputs_twice_and_unused_are_no_faults(rt: HostRuntime) -> Result<(), Fail> {
    let text =
        b".inputs i\n.outputs o\n.subckt m x=i y=o\n.model m\n.inputs x\n.outputs y y z\n.names x y\n.names z\n";
    assert_eq!(rt; refusal_of(rt.alloc(), text), None);
    Ok(())
}
