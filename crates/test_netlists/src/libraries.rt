// Texts of libraries, and what is wrong with them.
use cell_library::{Library, LibraryFault, LibraryRefusal, kind_key, library_a, read_library};
use circuit::CellKind;
use std::test::Fail;

const LIBRARY_A: &str =
    "wire = 1000\nspace = 1000\nvia = 600\nenclose = 200\npin = 1000\nheight = 10000\npitch = 2000\ncolumns = 4\ncapacity = 28\nlimit = 180000\n[buffer]\ninputs = [1]\noutputs = [2]\n[inverter]\ninputs = [1]\noutputs = [2]\n[zero]\ninputs = []\noutputs = [2]\n[one]\ninputs = []\noutputs = [2]\n[split2]\ninputs = [1]\noutputs = [2, 6]\n[split3]\ninputs = [1]\noutputs = [2, 6, 10]\n[majority]\ninputs = [1, 5, 9]\noutputs = [2]\n";

// Narrower wires, another place for the pins of the inverter, and no splitter of three.
const DENSE: &str =
    "name = \"dense\"\nwire = 600\nspace = 400\nvia = 300\nenclose = 100\npin = 600\nheight = 8000\npitch = 1000\ncolumns = 4\ncapacity = 20\nlimit = 70000\n[buffer]\ninputs = [1]\noutputs = [2]\n[inverter]\ninputs = [3]\noutputs = [0]\n[zero]\ninputs = []\noutputs = [2]\n[one]\ninputs = []\noutputs = [2]\n[split2]\ninputs = [1]\noutputs = [2, 6]\n[majority]\ninputs = [1, 5, 9]\noutputs = [2]\n";

// The fault of a text in a few words, or `read`.
fn told(rt: &HostRuntime, text: &[u8]) -> Result<String, Fail> {
    if text.len() > 100_000 {
        return Err("a longer text".into());
    }
    let fault = match read_library(rt.alloc(), text) {
        Ok(_) => return Ok(String::from_str(rt.alloc(), "read")?),
        Err(LibraryRefusal::Memory) => return Err("out of memory".into()),
        Err(LibraryRefusal::Bad(fault)) => fault,
    };
    Ok(match fault {
        LibraryFault::Text => String::from_str(rt.alloc(), "text")?,
        LibraryFault::Key { key } => {
            let key = std::str::from_utf8(key.as_slice())?;
            format!(in rt.alloc(); "key {key}")?
        }
        LibraryFault::Value { key, value } => {
            let key = std::str::from_utf8(key.as_slice())?;
            format!(in rt.alloc(); "{key} = {value}")?
        }
        LibraryFault::Law { number } => format!(in rt.alloc(); "law {number}")?,
        LibraryFault::Missing { kind } => {
            let key = kind_key(kind);
            format!(in rt.alloc(); "missing {key}")?
        }
    })
}

// A text with one part replaced.
fn changed(rt: &HostRuntime, text: &str, old: &str, new: &str) -> Result<String, Fail> {
    match text.split_once(old) {
        Some((before, after)) => Ok(format!(in rt.alloc(); "{before}{new}{after}")?),
        None => Err("a part that the text doesn't have".into()),
    }
}

// The fault of library A with one part replaced.
fn told_of_change(rt: &HostRuntime, old: &str, new: &str) -> Result<String, Fail> {
    let text = changed(rt, LIBRARY_A, old, new)?;
    told(rt, text.as_bytes())
}

#[test]
fn whole_texts(rt: HostRuntime) -> Result<(), Fail> {
    for (text, fault) in [
        ("", "key wire"),
        ("= =", "text"),
        ("wire = 1.5", "key wire"),
        ("wire = 0", "wire = 0"),
        ("wire = -7", "wire = -7"),
        ("wire = 1000\nspace = 9223372036854775808", "text"),
        ("wire = 1\nwire = 1", "text"),
        ("via = 1\nzinc = 2\ncolor = 3", "key color"),
        ("wire.width = 1", "key wire"),
    ] {
        assert_eq!(rt; told(&rt, text.as_bytes())?.as_str(), fault, "{text}");
    }
    assert_eq!(rt; told(&rt, b"wire = 1 # \xff")?.as_str(), "text");
    Ok(())
}

#[test]
fn changes_of_library_a(rt: HostRuntime) -> Result<(), Fail> {
    for (old, new, fault) in [
        ("wire", "wire", "read"),
        ("wire", "name = [1, {a = 2}]\nwire", "read"),
        ("wire", "color = 1\nwire", "key color"),
        ("wire", "\"\" = 1\nwire", "key "),
        ("[buffer]", "[buffer]\nx = 1", "key buffer.x"),
        (
            "[buffer]\ninputs = [1]",
            "[buffer]\ninputs = [\"a\"]",
            "key buffer.inputs",
        ),
        (
            "[buffer]\ninputs = [1]",
            "[buffer]\ninputs = [3000]",
            "buffer.inputs = 3000",
        ),
        (
            "[buffer]\ninputs = [1]",
            "[buffer]\ninputs = [1, 2]",
            "law 6",
        ),
        ("[buffer]\ninputs = [1]", "[buffer]\ninputs = [5]", "law 7"),
        ("[buffer]\ninputs = [1]", "[buffer]\ninputs = [0]", "law 9"),
        (
            "[buffer]\ninputs = [1]\n",
            "[buffer]\n",
            "key buffer.inputs",
        ),
        (
            "[buffer]\ninputs = [1]\noutputs = [2]\n",
            "buffer.inputs = [1]\nbuffer.outputs = [2]\n",
            "read",
        ),
        ("via = 600", "via = 601", "law 1"),
        ("columns = 4", "columns = 3", "law 2"),
        ("wire = 1000", "wire = 998", "law 3"),
        ("pitch = 2000", "pitch = 1998", "law 4"),
        ("height = 10000", "height = 2998", "law 5"),
        ("outputs = [2, 6]", "outputs = [2, 10]", "law 8"),
        ("outputs = [2, 6]", "outputs = [2, 5]", "law 10"),
        ("limit = 180000", "limit = 77999", "law 11"),
        ("limit = 180000", "limit = 78000", "read"),
        ("pin = 1000", "pin = 998", "law 12"),
        ("capacity = 28", "capacity = 2", "law 14"),
        (
            "[majority]\ninputs = [1, 5, 9]\noutputs = [2]\n",
            "",
            "missing majority",
        ),
        ("[split3]\ninputs = [1]\noutputs = [2, 6, 10]\n", "", "read"),
        (
            "[split3]\ninputs = [1]\noutputs = [2, 6, 10]\n",
            "split3 = 1\n",
            "key split2.split3",
        ),
        ("[one]", "[[one]]", "key one"),
    ] {
        let told = told_of_change(&rt, old, new)?;
        assert_eq!(rt; told.as_str(), fault, "{old} to {new}");
    }
    Ok(())
}

#[test]
fn a_cell_too_wide(rt: HostRuntime) -> Result<(), Fail> {
    let mut text = String::from_str(rt.alloc(), LIBRARY_A)?;
    for (old, new) in [
        ("columns = 4", "columns = 1000"),
        ("pitch = 2000", "pitch = 1000000"),
        ("capacity = 28", "capacity = 1"),
        ("limit = 180000", "limit = 2147483647"),
        ("inputs = [1, 5, 9]", "inputs = [1, 1001, 2001]"),
        ("outputs = [2, 6]", "outputs = [2, 1002]"),
        ("outputs = [2, 6, 10]", "outputs = [2, 1002, 2002]"),
    ] {
        text = changed(&rt, text.as_str(), old, new)?;
    }
    assert_eq!(rt; told(&rt, text.as_bytes())?.as_str(), "law 13");
    Ok(())
}

// The library that a text says.
fn library(rt: &HostRuntime, text: &str) -> Result<Library, Fail> {
    if text.len() > 100_000 {
        return Err("a longer text".into());
    }
    match read_library(rt.alloc(), text.as_bytes()) {
        Ok(library) => Ok(library),
        Err(_) => Err("no library".into()),
    }
}

#[test]
fn the_text_of_library_a(rt: HostRuntime) -> Result<(), Fail> {
    let library_of_text = library(&rt, LIBRARY_A)?;
    match library_a(rt.alloc()) {
        Ok(library) => assert!(rt; library_of_text.is_same(&library)),
        Err(_) => return Err("out of memory".into()),
    }
    Ok(())
}

// Where the third input and the output of a majority stand.
fn majority_columns(library: &Library) -> Option<(u32, u32)> {
    if !library.has(CellKind::Majority) {
        return None;
    }
    Some((
        library.input_column(CellKind::Majority, 2),
        library.output_column(CellKind::Majority, 0),
    ))
}

#[test]
fn numbers_of_library_a(rt: HostRuntime) -> Result<(), Fail> {
    let library = library(&rt, LIBRARY_A)?;
    library.known();
    assert_eq!(rt; library.reach(), 14);
    assert!(rt; library.has_three());
    assert_eq!(rt; majority_columns(&library), Some((9, 2)));
    assert_eq!(rt;
        (
            library.wire(),
            library.space(),
            library.via(),
            library.enclose(),
            library.pin()
        ),
        (1_000, 1_000, 600, 200, 1_000)
    );
    assert_eq!(rt;
        (
            library.height(),
            library.pitch(),
            library.columns(),
            library.capacity(),
            library.limit()
        ),
        (10_000, 2_000, 4, 28, 180_000)
    );
    Ok(())
}

// How far a wire may move with a library, and whether it has splitters of three.
fn reach_and_three(rt: &HostRuntime, text: &str) -> Result<(u64, bool), Fail> {
    let library = library(rt, text)?;
    Ok((library.reach(), library.has_three()))
}

#[test]
fn reaches_of_libraries(rt: HostRuntime) -> Result<(), Fail> {
    let near = changed(&rt, LIBRARY_A, "limit = 180000", "limit = 78000")?;
    assert_eq!(rt; reach_and_three(&rt, near.as_str())?, (2, true));
    assert_eq!(rt; reach_and_three(&rt, DENSE)?, (10, false));
    Ok(())
}
