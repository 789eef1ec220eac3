// The command-line program: one call of the library on files by name. It holds no rule of its own: what it prints is what the proved calls answer and write.
#![tactic(auto)]

use arguments::{is_word, say_argument};
use command::Command;
use help::say_help;
use printing::input::{arg, arg_count, buffer};
use printing::say;
use printing::stdout::Buffered;
use std::io;

mod arguments;
mod arrows;
mod buffers;
mod command;
mod commands;
mod dot;
mod help;
mod lengths;
mod lit;
mod load;
mod long;
mod notes;
mod pack;
mod ranges;
mod refusals;
mod results;
mod text;

// The command has as many arguments as it takes, or a line says how many.
fn takes(stdout: &mut Buffered, command: Command, given: usize) -> bool {
    let wanted = command.arguments();
    if given != wanted {
        let noun = if wanted == 1 { "argument" } else { "arguments" };
        say!(stdout, "error ");
        say_argument(stdout, 1);
        say!(stdout, " takes {wanted} {noun}; checker help tells which\n");
    }
    given == wanted
}

// Argument `at` names the file that the result goes to, if there is one.
fn run_command(stdout: &mut Buffered, command: Command, at: Option<usize>) {
    match command {
        Command::Judge => commands::judge(stdout, at),
        Command::Compare => commands::compare(stdout, at),
        Command::Model => commands::model(stdout, at),
        Command::Join => commands::join(stdout, at),
        Command::Show => commands::show(stdout, at),
        Command::Watch => commands::watch(stdout, at),
        Command::Compose(unwritten) => commands::compose(stdout, at, unwritten),
        Command::Long(long) => long::run(stdout, long, at),
        Command::Dot => dot::dot(stdout),
        Command::DotTrail => dot::dot_trail(stdout),
        Command::DotSheet => dot::dot_sheet(stdout),
    }
}

// The argument that names the output file: it stands last, after -o.
fn output_at(stdout: &Buffered, count: usize) -> Option<usize> {
    if count >= 4 && is_word(stdout, count - 2, b"-o") {
        Some(count - 1)
    } else {
        None
    }
}

// The command that the first argument names.
fn command_named(stdout: &Buffered, given: usize) -> Option<Command> {
    let mut room = buffer();
    Command::of(arg(stdout.rt, 1, &mut room), given)
}

// What the arguments ask for.
fn run(stdout: &mut Buffered) {
    let count = arg_count(stdout.rt);
    if count < 2 || is_word(stdout, 1, b"help") {
        say_help(stdout);
        return;
    }
    let at = output_at(stdout, count);
    let given = count.saturating_sub(if at.is_some() { 4 } else { 2 });
    let Some(command) = command_named(stdout, given) else {
        say!(stdout, "error no such command: ");
        say_argument(stdout, 1);
        say!(stdout, "; checker help lists them\n");
        return;
    };
    if takes(stdout, command, given) {
        run_command(stdout, command, at);
    }
}

fn main(rt: HostRuntime) -> io::Result<()> {
    let mut stdout = Buffered::new(rt);
    run(&mut stdout);
    stdout.finish()
}
