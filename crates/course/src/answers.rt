// The line of each call's answer, and what it wrote as decimals.
use files::check::{FileCounts, check};
use files::offence::FileKind;
use files::record::Limits;
use files::refusal::Refusal;
use files::view::GraphView;
use judging::answers::{Compared, Judged};
use printing::stdout::Buffered;
use printing::{say, say_graph, say_lines, say_records};
use runs::answers::{Joined, Verdict};

pub(crate) fn say_refused(stdout: &mut Buffered, r: Refusal) {
    let Refusal {
        number,
        file,
        record,
    } = r;
    say!(stdout, ": refused {number} {file} {record}\n");
}

pub(crate) fn say_checked(stdout: &mut Buffered, kind: FileKind, file: &[u8]) {
    match check(kind, file, 1, Limits::desk()) {
        Ok(FileCounts { nodes, records }) => say!(stdout, ": accepted {nodes} {records}\n"),
        Err(r) => say_refused(stdout, r),
    }
}

pub(crate) fn say_judged(stdout: &mut Buffered, answer: Result<Judged, Refusal>, out: &[u8]) {
    match answer {
        Ok(Judged::Holds) => say!(stdout, ": holds\n"),
        Ok(Judged::Fails(n)) => {
            say!(stdout, ": fails {n}\n");
            say_records(stdout, out, n);
        }
        Err(r) => say_refused(stdout, r),
    }
}

pub(crate) fn say_compared(stdout: &mut Buffered, answer: Result<Compared, Refusal>, out: &[u8]) {
    match answer {
        Ok(Compared::Yes) => {
            say!(stdout, ": yes\n");
            say_lines(stdout, out);
        }
        Ok(Compared::No(g)) => {
            say!(stdout, ": no {g}\n");
            say_lines(stdout, out);
        }
        Err(r) => say_refused(stdout, r),
    }
}

// A graph that was written: a model, or the standing graph.
pub(crate) fn say_written(stdout: &mut Buffered, answer: Result<GraphView, Refusal>, out: &[u8]) {
    match answer {
        Ok(GraphView { nodes, edges }) => {
            say!(stdout, ": written {nodes} {edges}\n");
            say_graph(stdout, out, nodes, edges);
        }
        Err(r) => say_refused(stdout, r),
    }
}

pub(crate) fn say_joined(stdout: &mut Buffered, answer: Result<Joined, Refusal>, out: &[u8]) {
    match answer {
        Ok(
            Joined {
                nodes,
                edges,
                provided,
                required,
            },
        ) => {
            say!(stdout, ": written {nodes} {edges} {provided} {required}\n");
            say_graph(stdout, out, nodes, edges);
        }
        Err(r) => say_refused(stdout, r),
    }
}

pub(crate) fn say_watched(stdout: &mut Buffered, answer: Result<Verdict, Refusal>, out: &[u8]) {
    match answer {
        Ok(Verdict::Clean) => say!(stdout, ": clean\n"),
        Ok(Verdict::Bad(n)) => {
            say!(stdout, ": bad {n}\n");
            say_records(stdout, out, n);
        }
        Ok(Verdict::Impossible) => say!(stdout, ": impossible\n"),
        Err(r) => say_refused(stdout, r),
    }
}
