// Texts of several models, with the models that they say and their faults.
ghost use Rattle.std.specs.Prelude.{◌≤◌, ◌^◌, length};

use aq_base::List;
use blif_read::{BlifFault, BlifModel, BlifRefusal, LineKind, Named, read_models};
use short_bytes::ShortBytes;
use std::alloc::{AllocError, Global};
use std::test::Fail;

fn add_number(told: &mut Vec<u8>, number: u64) -> Result<(), AllocError> {
    let alloc = *told.allocator();
    let number = format!(in alloc; "{number}")?;
    told.extend_from_slice(number.as_str().as_bytes())
}

fn add_name(told: &mut Vec<u8>, mark: u8, name: &ShortBytes) -> Result<(), AllocError> {
    told.push(mark)?;
    told.extend_from_slice(name.as_slice())
}

fn add_named(told: &mut Vec<u8>, mark: u8, names: &List<Named>) -> Result<(), AllocError> {
    for named in names.as_slice() {
        add_name(told, mark, &named.name)?;
        told.push(b'@')?;
        add_number(told, named.line)?;
    }
    Ok(())
}

fn add_defs(told: &mut Vec<u8>, model: &BlifModel) -> Result<(), AllocError> {
    for def in model.defs.as_slice() {
        told.push(b' ')?;
        add_number(told, def.line)?;
        for input in def.inputs.as_slice() {
            add_name(told, b',', input)?;
        }
        add_name(told, if def.on { b'=' } else { b'!' }, &def.output)?;
        for cube in def.cubes.as_slice() {
            add_name(told, b'/', &cube.plane)?;
        }
    }
    Ok(())
}

fn add_calls(told: &mut Vec<u8>, model: &BlifModel) -> Result<(), AllocError> {
    for call in model.calls.as_slice() {
        told.push(b' ')?;
        add_number(told, call.line)?;
        add_name(
            told,
            if call.well_formed { b'$' } else { b'?' },
            &call.model,
        )?;
        for port in call.ports.as_slice() {
            add_name(told, b',', &port.formal)?;
            add_name(told, b'~', &port.actual)?;
        }
    }
    Ok(())
}

/// The models in one line: name and line, inputs, outputs, definitions and calls.
fn told(alloc: Global, models: &List<BlifModel>) -> Result<Vec<u8>, AllocError> {
    let mut told = Vec::new(alloc);
    for model in models.as_slice() {
        add_name(&mut told, b'[', &model.name)?;
        told.push(b'@')?;
        add_number(&mut told, model.line)?;
        add_named(&mut told, b'<', &model.inputs)?;
        add_named(&mut told, b'>', &model.outputs)?;
        add_defs(&mut told, model)?;
        add_calls(&mut told, model)?;
        told.push(b']')?;
    }
    Ok(told)
}

/// The models of a text in one line; nothing where it has a fault.
fn told_of(alloc: Global, text: &[u8]) -> Result<Option<Vec<u8>>, AllocError>
    requires { length text.now ≤ 2 ^ 28 }
{
    match read_models(alloc, text) {
        Ok(models) => Ok(Some(told(alloc, &models)?)),
        Err(_) => Ok(None),
    }
}

#[test]
fn models(rt: HostRuntime) -> Result<(), Fail> {
    let texts = [
        ("", "[@0]"),
        (".model\n.model b c\n", "[@1][b@2]"),
        (
            ".inputs a\n.end\n.model late\n.inputs b\n",
            "[@0<a@1][late@3<b@4]",
        ),
        (
            ".model top\n.inputs a b\n.outputs s c s\n.subckt half x=a y=b p=s q=c\n.end\n.model half\n.inputs x \\\n y\n.outputs p q\n.names x y p\n10 1\n01 1\n.names x y q\n0- 0\n-0 0\n.end\n",
            "[top@1<a@2<b@2>s@3>c@3>s@3 4$half,x~a,y~b,p~s,q~c][half@6<x@7<y@7>p@9>q@9 10,x,y=p/10/01 13,x,y!q/0-/-0]",
        ),
        (
            ".subckt\n.subckt m a=b=c ==d =e f= g h=#\n.subckt m\n.names k\n.subckt n i=j\n",
            "[@0 4=k 1? 2?m,a~b=c 3$m 5$n,i~j]",
        ),
    ];
    for (text, want) in texts {
        let text = text.as_bytes();
        assert!(rt; text.len() < 300);
        match told_of(rt.alloc(), text)? {
            Some(told) => assert_eq!(rt; told.as_slice(), want.as_bytes()),
            None => assert!(rt; false, "no models: {want}"),
        }
    }
    Ok(())
}

/// The fault of a text's models, if one has a fault.
fn fault_of(alloc: Global, text: &[u8]) -> Option<BlifFault>
    requires { length text.now ≤ 2 ^ 28 }
{
    match read_models(alloc, text) {
        Err(BlifRefusal::Bad(fault)) => Some(fault),
        Err(BlifRefusal::Memory) => None,
        Ok(_models) => None,
    }
}

#[test]
fn faults_of_models(rt: HostRuntime) -> Result<(), Fail> {
    let texts = [
        (".model a\n.subckt b \u{1}=c\n", 2, LineKind::Token),
        (".model a\n.end\n.model b\n.names\n", 4, LineKind::Token),
        (".model a\n.latch a b 0\n", 2, LineKind::Unsupported),
        (".model a\n.end\n.subckt b\n", 3, LineKind::Unsupported),
        (".names y\n.subckt b\n1\n", 3, LineKind::RowAlone),
        (".names y\n.model b\n1\n", 3, LineKind::RowAlone),
        (".model a\n.names x y\n11 1\n", 3, LineKind::RowShape),
        (".model a\n.names y\n1\n0\n", 4, LineKind::RowValue),
        (
            ".inputs x\n.model b\n.inputs x\n.names x\n",
            4,
            LineKind::Duplicate,
        ),
        (
            ".model a\n.subckt b p=y\n.names y\n.names y\n.model b\n.names\n",
            4,
            LineKind::Duplicate,
        ),
    ];
    for (text, line, kind) in texts {
        let bytes = text.as_bytes();
        assert!(rt; bytes.len() < 300);
        let told = BlifFault::Line { line, kind };
        assert_eq!(rt; fault_of(rt.alloc(), bytes), Some(told), "{text}");
    }
    Ok(())
}
