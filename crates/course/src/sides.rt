// Examples of two sides: joining them, and showing a joined node.
use crate::answers::{say_joined, say_refused};
use crate::lengths::{OUTPUT, two_bytes};
use printing::stdout::Buffered;
use printing::{say, say_bytes, zeros};

// The first three files, of the lengths that the head tells, and the fourth.
fn four_files<'a>(
    head: &[u8; 8],
    files: &'a [u8],
) -> Option<(&'a [u8], &'a [u8], &'a [u8], &'a [u8])> {
    let (interface1, files) = files.split_at_checked(two_bytes(head, 0) as usize)?;
    let (graph1, files) = files.split_at_checked(two_bytes(head, 2) as usize)?;
    let (interface2, graph2) = files.split_at_checked(two_bytes(head, 4) as usize)?;
    Some((interface1, graph1, interface2, graph2))
}

// Joining. The example starts with the lengths of the first three files and of the output, two bytes each, low byte first; the four files follow.
pub(crate) fn join_sides(stdout: &mut Buffered, example: &[u8]) {
    let Some((head, files)) = example.split_first_chunk::<8>() else {
        return;
    };
    let Some((interface1, graph1, interface2, graph2)) = four_files(head, files) else {
        return;
    };
    let mut out = zeros::<OUTPUT>();
    let out = &mut out[..two_bytes(head, 6) as usize];
    let answer = runs::join(interface1, graph1, interface2, graph2, out);
    say_joined(stdout, answer, out);
}

// Showing. The example starts with the first graph's length and the number, two bytes each, low byte first; both graphs follow.
pub(crate) fn show_node(stdout: &mut Buffered, example: &[u8]) {
    let Some((head, files)) = example.split_first_chunk::<4>() else {
        return;
    };
    let Some((graph1, graph2)) = files.split_at_checked(two_bytes(head, 0) as usize) else {
        return;
    };
    let number = two_bytes(head, 2) as usize;
    match runs::show_refusal(graph1, graph2, number) {
        Ok(()) => {
            say!(stdout, ": shown\n");
            say_bytes(stdout, runs::show(graph1, graph2, number));
        }
        Err(r) => say_refused(stdout, r),
    }
}
