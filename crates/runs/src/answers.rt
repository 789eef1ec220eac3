// What the calls of this layer answer where they do not refuse. The definitions `joined_answer` and `watched_answer` of specs/ give the paper's number and values for each case.

// The joined graph was written: its nodes and edges counted, and the united interface's two bytes.
#[derive(Clone, Copy)]
pub struct Joined {
    pub nodes: usize,
    pub edges: usize,
    pub provided: u8,
    pub required: u8,
}

// No run turns the monitor bad, or some does, with a trail of so many records. Of composed verdicts also: no module can be loaded on a side that is not written.
#[derive(Clone, Copy)]
pub enum Verdict {
    Clean,
    Bad(usize),
    Impossible,
}
