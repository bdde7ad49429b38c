//! `bench_plans NET LIB`: how many gates, rows and cells each pass gives that lays a netlist out, how many elements its
//! drawing has, and how many milliseconds each takes. Without words an exclusive or is laid out with library A, and no
//! time is printed, so that the lines are always the same.
#![tactic(auto)]

mod bench;
mod fault;
mod size;

ghost use Rattle.std.specs.Prelude.{◌≤◌, ◌^◌, length, IfOk};

use aq_base::{Disk, Files, Memory, StdFiles};
use bench::Bench;
use blif_read::blif_read;
use cell_library::{library_a, read_library};
use fault::Fault;
use std::env;
use std::process::ExitCode;

/// How many bytes a file may have.
const LONGEST: u64 = 268_435_456;

const EXCLUSIVE_OR: &[u8] = b".inputs a b\n.outputs y\n.names a b y\n10 1\n01 1\n";

fn load(rt: &HostRuntime, name: &String) -> Result<Vec<u8>, Fault>
    ensures { IfOk result (λ bytes. length bytes.items ≤ 2 ^ 28) }
{
    let mut bytes = Vec::new(rt.alloc());
    let mut files = StdFiles::new(rt.alloc(), Disk::new(rt.alloc(), rt));
    match files.load(name.as_str(), LONGEST, &mut bytes) {
        Ok(()) => Ok(bytes),
        Err(refusal) => {
            let name = name.clone().map_err(Memory::from)?;
            Err(Fault::File { name, refusal })
        }
    }
}

fn run(rt: &HostRuntime) -> Result<(), Fault> {
    let alloc = rt.alloc();
    let words: Vec<String> = env::args(rt)?.skip(1).collect(alloc).map_err(Memory::from)?;
    let (net, cells) = match words.as_slice() {
        [] => (blif_read(alloc, EXCLUSIVE_OR)?, library_a(alloc)?),
        [net, lib] => {
            let net = blif_read(alloc, &load(rt, net)?)?;
            (net, read_library(alloc, &load(rt, lib)?)?)
        }
        _ => return Err(Fault::Usage),
    };
    let shows_time = !words.is_empty();
    Bench { rt, shows_time }.lay_out(&net, &cells)
}

fn main(rt: HostRuntime) -> ExitCode {
    match run(&rt) {
        Ok(()) => ExitCode::SUCCESS,
        Err(fault) => {
            let _ = eprintln!(rt; "bench_plans: {fault}");
            ExitCode::FAILURE
        }
    }
}
