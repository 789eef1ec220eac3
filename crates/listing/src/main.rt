// The model program: reads an interface record and a property on standard input and prints the maximal model, six decimals to a line, or a refusal's number.
#![tactic(auto)]

ghost use Rattle.std.specs.Prelude.{◌≡◌, length, take, drop};
ghost use Rattle.files.specs.Places.{graph_room};
ghost use Rattle.maximal.specs.Places.{model_room};

use files::record::{Limits, Record};
use maximal::places::Places;
use printing::input::read_full;
use printing::stdout::Buffered;
use printing::{say, say_graph, zeros};
use std::io;

// Bytes past these stay unread.
const LONGEST: usize = 60000;

// Room for every model.
const OUTPUT: usize = Record::LEN * (Limits::NODES + Limits::EDGES);

fn output() -> [u8; OUTPUT]
    ensures { graph_room ≡ length result }
{
    zeros()
}

fn work_buffer() -> [u8; Places::ROOM]
    ensures { model_room ≡ length result }
{
    zeros()
}

// The interface file is the first six bytes, or all of a shorter input; the property is what follows.
fn cut(input: &[u8]) -> (&[u8], &[u8])
    ensures { (result.0.now ≡ take 6 input.now) × (result.1.now ≡ drop 6 input.now) }
{
    input.split_at(input.len().min(Record::LEN))
}

fn list(stdout: &mut Buffered, input: &[u8], out: &mut [u8], work: &mut [u8]) {
    let (interface, property) = cut(input);
    match maximal::model(interface, property, out, work) {
        Ok(model) => say_graph(stdout, out, model.nodes, model.edges),
        Err(refusal) => say!(stdout, "{}\n", refusal.number),
    }
}

fn main(rt: HostRuntime) -> io::Result<()> {
    let mut input = zeros::<LONGEST>();
    let input = read_full(&mut rt.stdin(), &mut input);
    let mut out = output();
    let mut work = work_buffer();
    let mut stdout = Buffered::new(rt);
    list(&mut stdout, input, &mut out, &mut work);
    stdout.finish()
}
