// Netlists made from parts.
ghost use Rattle.std.specs.Prelude.{◌<◌};

use aq_base::{List, Memory};
use blif_read::{Cube, Def, MakeRefusal, Netlist, make_netlist};
use circuit::Answers;
use short_bytes::ShortBytes;
use std::alloc::Global;
use std::test::Fail;

/// One input `a`, and the output `y` that negates the signal of this number: 0 is `a`, and 1 is `y`.
fn inverter_of(alloc: Global, feed: u32) -> Result<Netlist, MakeRefusal>
    requires { feed < 2 }
{
    let mut names = List::new(alloc);
    names.push(ShortBytes::copy(alloc, &[b'a'])?)?;
    names.push(ShortBytes::copy(alloc, &[b'y'])?)?;
    let mut inputs = List::new(alloc);
    inputs.push(feed)?;
    let mut cubes = List::new(alloc);
    let plane = ShortBytes::copy(alloc, &[b'0'])?;
    cubes.push(Cube { plane })?;
    let mut defs = List::new(alloc);
    defs.push(Def {
        line: 7,
        inputs,
        on: true,
        cubes,
    })?;
    let mut outputs = List::new(alloc);
    outputs.push(1)?;
    make_netlist(alloc, 1, &names, &defs, &outputs)
}

#[test]
fn made_netlists(rt: HostRuntime) -> Result<(), Fail> {
    match inverter_of(rt.alloc(), 0) {
        Ok(net) => {
            assert_eq!(rt; net.name_count(), 2);
            assert_eq!(rt; net.input_count(), 1);
            assert_eq!(rt; net.output_count(), 1);
        }
        Err(_) => assert!(rt; false),
    }
    match inverter_of(rt.alloc(), 1) {
        Err(MakeRefusal::Cycle { signals }) => assert_eq!(rt; signals.as_slice(), [1].as_slice()),
        _other => assert!(rt; false),
    }
    Ok(())
}
