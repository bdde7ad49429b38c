// What the help says.
use crate::help::HELP;
use std::test::Fail;

#[test]
fn help_has_each_command_and_each_status(rt: HostRuntime) -> Result<(), Fail> {
    let commands = [
        "build NET LIB OUT",
        "compact NET LIB OUT",
        "draw NET LIB OUT",
        "verify GDS LIB WORDS",
        "trace GDS LIB WORDS",
        "sample N",
        "netlist GDS LIB OUT",
        "equal GDS LIB NET",
        "report GDS LIB",
        "shapes GDS A B",
    ];
    for command in commands {
        assert!(rt; HELP.contains(command), "{command}");
    }
    let statuses = [
        "0  done",
        "1  the command line",
        "2  a file is absent",
        "3  a file is longer",
        "4  a file could not be read",
        "5  a file or standard output",
        "6  the netlist",
        "7  the library has",
        "8  the library lacks",
        "10  the design",
        "11  the layout's bytes",
        "12  the layout breaks",
        "13  a line of WORDS",
        "14  out of memory",
        "16  the models",
        "17  chip and netlist",
        "18  the layout has no shape",
        "19  the netlist that is to be drawn",
    ];
    for status in statuses {
        assert!(rt; HELP.contains(status), "{status}");
    }
    Ok(())
}
