// The texts of `--help` and `--version`.

/// What the program is, its commands, its files and its statuses.
pub const HELP: &str = "aqfp - physical design of adiabatic quantum-flux-parametron (AQFP) chips

usage: aqfp build NET LIB OUT
       aqfp compact NET LIB OUT
       aqfp draw NET LIB OUT
       aqfp verify GDS LIB WORDS
       aqfp trace GDS LIB WORDS
       aqfp sample N
       aqfp netlist GDS LIB OUT
       aqfp equal GDS LIB NET
       aqfp report GDS LIB
       aqfp shapes GDS A B
       aqfp --help
       aqfp --version

build   reads the netlist NET with the cells of the library LIB, stores the
        layout of its chip under OUT and prints the counts of its rows, cells
        and wires and its delay in phases. OUT may have the name of NET or LIB.
compact the same, but searches for a smaller chip: one that answers as the
        netlist does and has at most as many cells and junctions as that of
        build. It may be wider or higher.
draw    the same of a netlist whose definitions are the chip's cells: buffers,
        splitters, inverters, constants and majorities, each one row above what
        it names. They are kept as they are; their order is searched for, and
        rows of buffers are added where wires are too long.
verify  reads the layout GDS, tries all rules of layouts with the numbers
        of the library LIB, and prints the counts and, for each word of WORDS,
        the answer that the chip's pulses show.
trace   the same, but prints the flux of each cell at each time.
sample  builds an adder of N bits, N from 1 to 64, with a library of its own,
        prints N and the counts, and the adder's answers to eight words. It
        reads and stores no file.
netlist reads GDS and LIB as verify does, stores the chip's circuit as a netlist
        under OUT and prints the counts. OUT may have the name of GDS or LIB.
equal   reads GDS and LIB as verify does, and prints whether the chip answers
        every word as the netlist NET: equal, or differ Ok at W, k being the
        least output on which they differ and W the least word for it. Of
        circuits too large for that the line may end in: perhaps not the least
report  reads GDS and LIB as verify does, and prints the counts, the cells by
        kind, the junctions, the size of the chip and the length of the longest
        wire in nanometres, and a line for each row: its phase, its cells, the
        wires that leave it and the length of the longest of these.
shapes  prints layer and place of the shapes or labels of the numbers A and B in
        the layout GDS, those that a broken rule names: aqfp: rule G3: shapes A B

NET     a combinational netlist in the Berkeley Logic Interchange Format (BLIF),
        of one model or of several that call one another by .subckt, of which
        the first is taken; at most 16777216 bytes
LIB     a cell library in TOML, at most 1048576 bytes
OUT     a layout in the GDSII Stream Format, in database units of 1 nm; of
        netlist, a netlist in BLIF. A file that stands there stays as it was
        until the new one is whole. Not the file that standard output or
        standard error goes to, which is refused
GDS     a layout in the GDSII Stream Format, at most 268435456 bytes
WORDS   lines with a 0 or 1 for each input, at most 16777216 bytes

status  0  done
        1  the command line matches no command
        2  a file is absent
        3  a file is longer than its limit
        4  a file could not be read
        5  a file or standard output could not be written
        6  the netlist has a fault
        7  the library has a fault
        8  the library lacks a kind of cell
       10  the design is too large, or the chip has too many slots, rows, cells,
           elements or shapes, or chip and netlist too many subfunctions to be
           compared
       11  the layout's bytes are no stream that is read
       12  the layout breaks a rule
       13  a line of WORDS is no word for the chip
       14  out of memory
       16  the models and calls of the netlist have a fault
       17  chip and netlist have other numbers of inputs or outputs
       18  the layout has no shape or label of a number
       19  the netlist that is to be drawn is none of cells
A status above 0 comes with one line on standard error.
";

/// The program's name and version.
pub const VERSION: &str = "aqfp 0.12.1\n";
