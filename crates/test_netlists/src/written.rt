// The netlist of the first chip.
ghost use Rattle.std.specs.Prelude.{IsSome};
ghost use Rattle.aq_base.specs.MemoryStore.{store_of};

use aq_base::{Files, MemFiles};
use blif_flat::{WriteBlifRefusal, write_blif, written_answers};
use circuit_extracted::two_buffers;
use std::alloc::Global;

const FIRST: &[u8] =
    b".model aqfp\n.inputs I0\n.outputs O0\n.names I0 n0\n1 1\n.names n0 n1\n1 1\n.names n1 O0\n1 1\n.end\n";

fn written(alloc: Global, files: &mut MemFiles) -> Result<(), WriteBlifRefusal>
    requires { IsSome (store_of files.old).opened }
{
    written_answers();
    let circuit = two_buffers(alloc)?;
    write_blif(alloc, &circuit, files)
}

#[test]
fn netlist_of_the_first_chip(rt: HostRuntime) {
    let mut files = MemFiles::new(rt.alloc());
    assert!(rt; files.create("net").is_ok());
    assert!(rt; written(rt.alloc(), &mut files).is_ok());
    let bytes = files.bytes("net").expect(&rt, "the file");
    assert!(rt; bytes == FIRST);
    assert_eq!(rt; files.calls(), 2);
}

#[test]
fn a_refused_append_leaves_first_bytes(rt: HostRuntime) {
    let mut files = MemFiles::new(rt.alloc());
    assert!(rt; files.fail_at(1, 30).is_ok());
    assert!(rt; files.create("net").is_ok());
    assert_eq!(rt;
        written(rt.alloc(), &mut files),
        Err(WriteBlifRefusal::Failed)
    );
    let bytes = files.bytes("net").expect(&rt, "the file");
    assert!(rt; bytes == &FIRST[..30]);
}
