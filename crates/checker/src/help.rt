// What the program takes and prints.
use printing::say;
use printing::stdout::Buffered;

// The calls on graphs.
fn say_calls(stdout: &mut Buffered) {
    say!(
        stdout,
        "checker judge GRAPH PROPERTY                                does the graph satisfy the property?\n\
         checker compare FIRST SECOND                                does the second graph simulate the first?\n\
         checker model INTERFACE PROPERTY                            the most general module that the property allows\n\
         checker join INTERFACE1 GRAPH1 INTERFACE2 GRAPH2            two sides as one graph\n\
         checker show GRAPH1 GRAPH2 NUMBER                           the record of a joined node\n\
         checker watch INTERFACE GRAPH RULES START                   does any run from method START turn the monitor bad?\n\
         checker compose INTERFACE GRAPH OTHER PROPERTY RULES START  the same with every module of the other interface that satisfies the property\n\
         checker compose-both INTERFACE1 PROPERTY1 INTERFACE2 PROPERTY2 RULES START\n                                                            the same with every two modules of these interfaces that satisfy their properties\n"
    );
}

// The calls on deliveries.
fn say_deliveries(stdout: &mut Buffered) {
    say!(
        stdout,
        "checker assemble DELIVERIES                                 the graph of the deliveries that stand\n\
         checker judge-deliveries DELIVERIES PROPERTY                does that graph satisfy the property?\n"
    );
}

// Listings and pictures.
fn say_views(stdout: &mut Buffered) {
    say!(
        stdout,
        "checker text FILE                                           a file as a readable listing\n\
         checker pack LISTING                                        a readable listing, decimals and # comments, as bytes\n\
         checker dot GRAPH [TRAIL]                                   a graph in Graphviz' language, with the trail in red\n\
         checker dot-sheet GRAPH SHEET                               the same with a fault sheet's false rows and their causes in red\n\
         checker help                                                this text\n"
    );
}

// What a delivery is, and how long a file may be.
fn say_files(stdout: &mut Buffered) {
    say!(
        stdout,
        "\n\
         A delivery is a record 6, method, revision 1 to 255, 0, 0, 0, then that method's nodes and edges, its nodes numbered from 0. A file of deliveries holds any number of them;\n\
         for each method the highest revision stands, and a sheet has the numbers of the graph that assemble writes. A file of deliveries, and one for text or pack, is read up to\n\
         6,670,800 bytes, every other up to 65,536.\n"
    );
}

pub fn say_help(stdout: &mut Buffered) {
    say_calls(stdout);
    say_deliveries(stdout);
    say_views(stdout);
    say!(
        stdout,
        "\n\
         Files are named in this order. The first line is the verdict; its first word is holds, fails, yes, no, written, shown, clean, bad, impossible, refused or error. Sheet, relation,\n\
         graph, record or trail follow as decimals, a record a line, in a sheet, relation or trail with a note behind a #; with -o FILE as the last two\n\
         arguments their bytes go to FILE instead.\n"
    );
    say_files(stdout);
}
