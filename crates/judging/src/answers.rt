// What the calls of this layer answer where they do not refuse. The definitions `judged_answer` and `compared_answer` of specs/ give the paper's number and values for each case.

// Whether a graph satisfies a property; a failure carries the number of records of its fault sheet.
#[derive(Clone, Copy)]
pub enum Judged {
    Holds,
    Fails(usize),
}

// Whether the second graph simulates the first; a "no" carries the lowest uncovered entry.
#[derive(Clone, Copy)]
pub enum Compared {
    Yes,
    No(usize),
}
