// `checker dot` and `checker dot-sheet`: a graph in the language of Graphviz, a box for each method, its nodes in it by number. An entry is grey, a return node has a double line.
use crate::arrows::say_arrows;
use crate::lit::{Lit, is_in, is_lit, say_at_node, say_red};
use crate::load::{load, load_two};
use crate::refusals::say_refused;
use files::check::check;
use files::offence::FileKind;
use files::record::Limits;
use printing::input::large_buffer;
use printing::stdout::Buffered;
use printing::{Fields, records, say};

// Node i by its number, then the lines that a trail or a sheet adds.
fn say_node(stdout: &mut Buffered, lit: Lit, i: usize, returns: u8, entry: u8) {
    let node = (i % 256) as u8;
    say!(stdout, "    {i} [label=\"{i}");
    say_at_node(stdout, lit, node);
    say!(stdout, "\"");
    if returns == 1 {
        say!(stdout, ", peripheries=2");
    }
    if entry == 1 {
        say!(stdout, ", style=filled");
    }
    if is_lit(lit, node) {
        say!(stdout, ", color=red, fontcolor=red");
    }
    say!(stdout, "];\n");
}

// The box of a method, where it has nodes.
fn say_method(stdout: &mut Buffered, nodes: &[Fields], lit: Lit, method: u8) {
    if !is_in(nodes, 1, method) {
        return;
    }
    say!(
        stdout,
        "  subgraph cluster_{method} {{\n    label=\"method {method}\";\n"
    );
    for (i, node) in nodes.iter().enumerate() {
        let [_, of, returns, entry, ..] = *node;
        if of == method {
            say_node(stdout, lit, i, returns, entry);
        }
    }
    say!(stdout, "  }}\n");
}

fn say_methods(stdout: &mut Buffered, nodes: &[Fields], lit: Lit) {
    for method in 1..9 {
        say_method(stdout, nodes, lit, method);
    }
}

// Sizes by which a joined graph of 24 nodes fits a screen.
fn say_head(stdout: &mut Buffered) {
    say!(stdout, "digraph flow {{\n  nodesep=0.3;\n  ranksep=0.4;\n");
    say!(
        stdout,
        "  node [fontsize=11, width=0.3, height=0.3, margin=0.04, fillcolor=lightgrey];\n"
    );
    say!(stdout, "  edge [fontsize=10];\n");
}

// The legend stands last: what is set for the whole picture holds for the boxes that follow it.
fn say_legend(stdout: &mut Buffered, lit: Lit) {
    say!(
        stdout,
        "  fontsize=10;\n  label=\"grey: entry, double line: return\\n0: internal step, 1-8: call of that method"
    );
    match lit {
        Lit::Nothing => {}
        Lit::Trail(_) => say!(stdout, "\\nred: the trail, step by step"),
        Lit::Sheet(_) => say!(stdout, "\\nred: rows that are false, and why"),
    }
    say!(stdout, "\";\n}}\n");
}

fn draw(stdout: &mut Buffered, graph: &[u8], lit: Lit) {
    match check(FileKind::Graph, graph, 1, Limits::desk()) {
        Err(r) => say_refused(stdout, r),
        Ok(counts) => {
            let graph = records(graph);
            let (nodes, edges) = graph.split_at(counts.nodes.min(graph.len()));
            say_head(stdout);
            say_methods(stdout, nodes, lit);
            say_arrows(stdout, edges);
            say_red(stdout, lit);
            say_legend(stdout, lit);
        }
    }
}

pub fn dot(stdout: &mut Buffered) {
    let mut graph = large_buffer();
    if let Some(graph) = load(stdout, 2, &mut graph) {
        draw(stdout, graph, Lit::Nothing);
    }
}

pub fn dot_trail(stdout: &mut Buffered) {
    let mut graph = large_buffer();
    let mut trail = large_buffer();
    if let Some((graph, trail)) = load_two(stdout, 2, &mut graph, &mut trail) {
        draw(stdout, graph, Lit::trail(trail));
    }
}

pub fn dot_sheet(stdout: &mut Buffered) {
    let mut graph = large_buffer();
    let mut sheet = large_buffer();
    if let Some((graph, sheet)) = load_two(stdout, 2, &mut graph, &mut sheet) {
        draw(stdout, graph, Lit::sheet(sheet));
    }
}
