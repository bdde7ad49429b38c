//! Runs of the program over stores in memory, for tests: what they are given, and what they leave.
#![tactic(auto)]

ghost use Rattle.std.specs.Prelude.{◌≡◌, None, IfOk};
ghost use Rattle.aq_base.specs.MemoryStore.{store_of};

use aq_base::{MemFiles, MemSink, Memory};
use aqfp_top::aqfp_run;
use std::alloc::{AllocError, Global};
use std::test::Fail;

/// The netlist of the first chip.
pub const WIRE: &str = ".model wire\n.inputs a\n.outputs a\n.end\n";

/// The netlist that is stored of the first chip.
pub const FIRST_NETLIST: &str =
    ".model aqfp\n.inputs I0\n.outputs O0\n.names I0 n0\n1 1\n.names n0 n1\n1 1\n.names n1 O0\n1 1\n.end\n";

/// The text of library A.
pub const LIBRARY_A: &str =
    "wire = 1000\nspace = 1000\nvia = 600\nenclose = 200\npin = 1000\nheight = 10000\npitch = 2000\ncolumns = 4\ncapacity = 28\nlimit = 180000\n[buffer]\ninputs = [1]\noutputs = [2]\n[inverter]\ninputs = [1]\noutputs = [2]\n[zero]\ninputs = []\noutputs = [2]\n[one]\ninputs = []\noutputs = [2]\n[split2]\ninputs = [1]\noutputs = [2, 6]\n[split3]\ninputs = [1]\noutputs = [2, 6, 10]\n[majority]\ninputs = [1, 5, 9]\noutputs = [2]\n";

/// The and of two inputs.
pub const AND: &str = ".inputs a b\n.outputs y\n.names a b y\n11 1\n";

/// Their exclusive or.
pub const XOR: &str = ".inputs a b\n.outputs y\n.names a b y\n10 1\n01 1\n";

/// The stream of the first chip, as the GDSII manual spells it.
/// A record is its length in two bytes, its type, its data type, and its data. They begin at these offsets: HEADER 0,
/// BGNLIB 6, LIBNAME 34, UNITS 42; structure BUF: BGNSTR 62, STRNAME 90, boundaries 98 (LAYER 102, XY 114, ENDEL 158),
/// 162 and 226, ENDSTR 290; structure TOP: BGNSTR 294, STRNAME 322, references 330 and 806 (SNAME 334 and 810, XY 342
/// and 818), boundaries from 358 and from 834, labels 962 and 1000 (XY 978 and 1016), ENDSTR 1038, ENDLIB 1042.
pub const STREAM: [u8; 1046] = [
    0, 6, 0, 2, 2, 88, 0, 28, 1, 2, 7, 178, 0, 1, 0, 1, 0, 0, 0, 0, 0, 0, 7, 178, 0, 1, 0, 1, 0, 0,
    0, 0, 0, 0, 0, 8, 2, 6, 65, 81, 70, 80, 0, 20, 3, 5, 62, 65, 137, 55, 75, 198, 167, 240, 57,
    68, 184, 47, 160, 155, 90, 84, 0, 28, 5, 2, 7, 178, 0, 1, 0, 1, 0, 0, 0, 0, 0, 0, 7, 178, 0, 1,
    0, 1, 0, 0, 0, 0, 0, 0, 0, 8, 6, 6, 66, 85, 70, 0, 0, 4, 8, 0, 0, 6, 13, 2, 0, 20, 0, 6, 14, 2,
    0, 1, 0, 44, 16, 3, 0, 0, 0, 0, 0, 0, 0, 0, 0, 0, 31, 64, 0, 0, 0, 0, 0, 0, 31, 64, 0, 0, 39,
    16, 0, 0, 0, 0, 0, 0, 39, 16, 0, 0, 0, 0, 0, 0, 0, 0, 0, 4, 17, 0, 0, 4, 8, 0, 0, 6, 13, 2, 0,
    21, 0, 6, 14, 2, 0, 0, 0, 44, 16, 3, 0, 0, 9, 196, 0, 0, 0, 0, 0, 0, 13, 172, 0, 0, 0, 0, 0, 0,
    13, 172, 0, 0, 3, 232, 0, 0, 9, 196, 0, 0, 3, 232, 0, 0, 9, 196, 0, 0, 0, 0, 0, 4, 17, 0, 0, 4,
    8, 0, 0, 6, 13, 2, 0, 22, 0, 6, 14, 2, 0, 0, 0, 44, 16, 3, 0, 0, 17, 148, 0, 0, 35, 40, 0, 0,
    21, 124, 0, 0, 35, 40, 0, 0, 21, 124, 0, 0, 39, 16, 0, 0, 17, 148, 0, 0, 39, 16, 0, 0, 17, 148,
    0, 0, 35, 40, 0, 4, 17, 0, 0, 4, 7, 0, 0, 28, 5, 2, 7, 178, 0, 1, 0, 1, 0, 0, 0, 0, 0, 0, 7,
    178, 0, 1, 0, 1, 0, 0, 0, 0, 0, 0, 0, 8, 6, 6, 84, 79, 80, 0, 0, 4, 10, 0, 0, 8, 18, 6, 66, 85,
    70, 0, 0, 12, 16, 3, 0, 0, 0, 0, 0, 0, 0, 0, 0, 4, 17, 0, 0, 4, 8, 0, 0, 6, 13, 2, 0, 14, 0, 6,
    14, 2, 0, 2, 0, 44, 16, 3, 255, 255, 240, 96, 0, 0, 0, 0, 0, 0, 0, 0, 0, 0, 0, 0, 0, 0, 0, 0,
    0, 0, 39, 16, 255, 255, 240, 96, 0, 0, 39, 16, 255, 255, 240, 96, 0, 0, 0, 0, 0, 4, 17, 0, 0,
    4, 8, 0, 0, 6, 13, 2, 0, 14, 0, 6, 14, 2, 0, 0, 0, 44, 16, 3, 0, 0, 0, 0, 0, 0, 0, 0, 0, 0, 31,
    64, 0, 0, 0, 0, 0, 0, 31, 64, 0, 0, 39, 16, 0, 0, 0, 0, 0, 0, 39, 16, 0, 0, 0, 0, 0, 0, 0, 0,
    0, 4, 17, 0, 0, 4, 8, 0, 0, 6, 13, 2, 0, 10, 0, 6, 14, 2, 0, 0, 0, 44, 16, 3, 0, 0, 17, 148, 0,
    0, 35, 40, 0, 0, 21, 124, 0, 0, 35, 40, 0, 0, 21, 124, 0, 0, 48, 212, 0, 0, 17, 148, 0, 0, 48,
    212, 0, 0, 17, 148, 0, 0, 35, 40, 0, 4, 17, 0, 0, 4, 8, 0, 0, 6, 13, 2, 0, 10, 0, 6, 14, 2, 0,
    0, 0, 44, 16, 3, 0, 0, 9, 196, 0, 0, 44, 236, 0, 0, 13, 172, 0, 0, 44, 236, 0, 0, 13, 172, 0,
    0, 58, 152, 0, 0, 9, 196, 0, 0, 58, 152, 0, 0, 9, 196, 0, 0, 44, 236, 0, 4, 17, 0, 0, 4, 8, 0,
    0, 6, 13, 2, 0, 12, 0, 6, 14, 2, 0, 0, 0, 44, 16, 3, 0, 0, 9, 196, 0, 0, 44, 236, 0, 0, 21,
    124, 0, 0, 44, 236, 0, 0, 21, 124, 0, 0, 48, 212, 0, 0, 9, 196, 0, 0, 48, 212, 0, 0, 9, 196, 0,
    0, 44, 236, 0, 4, 17, 0, 0, 4, 8, 0, 0, 6, 13, 2, 0, 11, 0, 6, 14, 2, 0, 0, 0, 44, 16, 3, 0, 0,
    18, 92, 0, 0, 45, 180, 0, 0, 20, 180, 0, 0, 45, 180, 0, 0, 20, 180, 0, 0, 48, 12, 0, 0, 18, 92,
    0, 0, 48, 12, 0, 0, 18, 92, 0, 0, 45, 180, 0, 4, 17, 0, 0, 4, 8, 0, 0, 6, 13, 2, 0, 11, 0, 6,
    14, 2, 0, 0, 0, 44, 16, 3, 0, 0, 10, 140, 0, 0, 45, 180, 0, 0, 12, 228, 0, 0, 45, 180, 0, 0,
    12, 228, 0, 0, 48, 12, 0, 0, 10, 140, 0, 0, 48, 12, 0, 0, 10, 140, 0, 0, 45, 180, 0, 4, 17, 0,
    0, 4, 10, 0, 0, 8, 18, 6, 66, 85, 70, 0, 0, 12, 16, 3, 0, 0, 0, 0, 0, 0, 54, 176, 0, 4, 17, 0,
    0, 4, 8, 0, 0, 6, 13, 2, 0, 15, 0, 6, 14, 2, 0, 2, 0, 44, 16, 3, 255, 255, 240, 96, 0, 0, 54,
    176, 0, 0, 0, 0, 0, 0, 54, 176, 0, 0, 0, 0, 0, 0, 93, 192, 255, 255, 240, 96, 0, 0, 93, 192,
    255, 255, 240, 96, 0, 0, 54, 176, 0, 4, 17, 0, 0, 4, 8, 0, 0, 6, 13, 2, 0, 15, 0, 6, 14, 2, 0,
    0, 0, 44, 16, 3, 0, 0, 0, 0, 0, 0, 54, 176, 0, 0, 31, 64, 0, 0, 54, 176, 0, 0, 31, 64, 0, 0,
    93, 192, 0, 0, 0, 0, 0, 0, 93, 192, 0, 0, 0, 0, 0, 0, 54, 176, 0, 4, 17, 0, 0, 4, 12, 0, 0, 6,
    13, 2, 0, 30, 0, 6, 22, 2, 0, 0, 0, 12, 16, 3, 0, 0, 11, 184, 0, 0, 1, 244, 0, 6, 25, 6, 73,
    48, 0, 4, 17, 0, 0, 4, 12, 0, 0, 6, 13, 2, 0, 30, 0, 6, 22, 2, 0, 0, 0, 12, 16, 3, 0, 0, 19,
    136, 0, 0, 91, 204, 0, 6, 25, 6, 79, 48, 0, 4, 17, 0, 0, 4, 7, 0, 0, 4, 4, 0,
];

fn store_of_bytes(alloc: Global, net: &[u8], lib: &[u8], words: &[u8]) -> Result<MemFiles, Memory>
    ensures { IfOk result (λ files. (store_of files).opened ≡ None) }
{
    let mut files = MemFiles::new(alloc);
    files.add("net", net)?;
    files.add("lib", lib)?;
    files.add("words", words)?;
    Ok(files)
}

/// A store of a netlist, a library and words, under `net`, `lib` and `words`.
pub fn stored(alloc: Global, net: &str, lib: &str, words: &str) -> Result<MemFiles, Memory>
    ensures { IfOk result (λ files. (store_of files).opened ≡ None) }
{
    store_of_bytes(alloc, net.as_bytes(), lib.as_bytes(), words.as_bytes())
}

/// A store of a netlist and a library, and of two words for one input.
pub fn store(alloc: Global, net: &[u8], lib: &[u8]) -> Result<MemFiles, Memory>
    ensures { IfOk result (λ files. (store_of files).opened ≡ None) }
{
    store_of_bytes(alloc, net, lib, b"0\n1\n")
}

/// A store of a netlist, a library, words and a chip, under `chip`.
pub fn stored_chip(
    alloc: Global,
    chip: &[u8],
    net: &str,
    lib: &str,
    words: &str,
) -> Result<MemFiles, Memory>
    ensures { IfOk result (λ files. (store_of files).opened ≡ None) }
{
    let mut files = stored(alloc, net, lib, words)?;
    files.add("chip", chip)?;
    Ok(files)
}

/// What a run left.
#[derive(Drop)]
pub struct Outcome {
    pub status: u8,
    pub files: MemFiles,
    pub out: MemSink,
    pub err: MemSink,
    ghost shut: { (store_of files).opened ≡ None },
}

/// The words of a line, which stand between blanks.
pub fn words_in(alloc: Global, line: &str) -> Result<Vec<String>, AllocError> {
    let mut words = Vec::new(alloc);
    for word in line.split_whitespace() {
        words.push(word.to_string(alloc)?)?;
    }
    Ok(words)
}

/// Runs a command line over a store, into a sink.
pub fn ran_into(
    alloc: Global,
    mut files: MemFiles,
    mut out: MemSink,
    line: &str,
) -> Result<Outcome, AllocError>
    requires { (store_of files).opened ≡ None }
{
    let words = words_in(alloc, line)?;
    let mut err = MemSink::new(alloc);
    let ending = aqfp_run(alloc, &words, &mut files, &mut out, &mut err);
    Ok(Outcome {
        status: ending.status,
        files,
        out,
        err,
    })
}

/// Runs a command line over a store.
pub fn ran(alloc: Global, files: MemFiles, line: &str) -> Result<Outcome, AllocError>
    requires { (store_of files).opened ≡ None }
{
    ran_into(alloc, files, MemSink::new(alloc), line)
}

/// A store with these bytes under `chip`.
pub fn holding(alloc: Global, chip: &[u8]) -> Result<MemFiles, Memory>
    ensures { IfOk result (λ files. (store_of files).opened ≡ None) }
{
    stored_chip(alloc, chip, WIRE, LIBRARY_A, "0\n1\n")
}

/// A store with the first chip under `chip`.
pub fn with_chip(alloc: Global) -> Result<MemFiles, Memory>
    ensures { IfOk result (λ files. (store_of files).opened ≡ None) }
{
    holding(alloc, &STREAM)
}

// Whether what was built is verified, and both runs print this text, the build its first line.
fn is_verified(alloc: Global, built: Outcome, told: &str) -> Result<bool, AllocError> {
    let printed = built.status == 0 && told.as_bytes().starts_with(built.out.bytes());
    let checked = ran(alloc, built.files, "verify out lib words")?;
    Ok(printed && checked.status == 0 && checked.out.bytes() == told.as_bytes())
}

/// Whether the chip of a netlist, built and verified with library A, answers words with this text.
pub fn is_answered(alloc: Global, net: &str, words: &str, told: &str) -> Result<bool, Fail> {
    let files = stored(alloc, net, LIBRARY_A, words)?;
    let built = ran(alloc, files, "build net lib out")?;
    Ok(is_verified(alloc, built, told)?)
}

/// A netlist of so many inputs that are all shown.
pub fn wires(alloc: Global, inputs: u32) -> Result<String, AllocError> {
    let mut names = String::new(alloc);
    for input in 0..inputs {
        let name = format!(in alloc; " x{input}")?;
        names.push_str(name.as_str())?;
    }
    format!(in alloc; ".inputs{names}\n.outputs{names}\n")
}

/// A refusal: its status, and its line without the program's name.
#[derive(Clone, Copy)]
pub struct Refusal<'a> {
    pub status: u8,
    pub told: &'a str,
}

/// Whether a run is refused so, prints nothing and makes no `out`.
pub fn is_refused(
    alloc: Global,
    files: MemFiles,
    line: &str,
    refusal: Refusal<'_>,
) -> Result<bool, Fail>
    requires { (store_of files).opened ≡ None }
{
    let run = ran(alloc, files, line)?;
    let told = format!(in alloc; "aqfp: {}\n", refusal.told)?;
    Ok(
        run.status == refusal.status
            && run.err.bytes() == told.as_bytes()
            && run.out.bytes().is_empty()
            && run.files.bytes("out").is_none(),
    )
}

/// Bytes of which some at a place are taken out and others are put in.
#[derive(Clone, Copy)]
pub struct Edit<'a> {
    pub at: usize,
    pub taken: usize,
    pub put: &'a [u8],
}

/// The bytes after the edit.
pub fn edited(alloc: Global, bytes: &[u8], edit: Edit<'_>) -> Result<Vec<u8>, AllocError> {
    let mut new = Vec::new(alloc);
    let (before, rest) = bytes.split_at(edit.at.min(bytes.len()));
    let (_, after) = rest.split_at(edit.taken.min(rest.len()));
    new.extend_from_slice(before)?;
    new.extend_from_slice(edit.put)?;
    new.extend_from_slice(after)?;
    Ok(new)
}

/// Some bytes at a place in the stead of those that stand there.
pub fn put_at(at: usize, taken: usize, put: &[u8]) -> Edit<'_> {
    Edit { at, taken, put }
}
