// The lengths that the program reads, and the numbers that it counts to. specs/Places.antt has those that contracts name.
use files::record::{Limits, Record};

#[derive(Drop)]
pub struct Lengths {}

impl Lengths {
    // The longest file of deliveries that is read: all 255 revisions of all eight methods, each round of them within the limits, with its openings.
    pub const FILE: usize = Record::LEN * (255 * (8 + (Limits::NODES + Limits::EDGES)));

    // A number past every one that a call takes: larger ones count as this.
    pub const NUMBER: usize = 1000000;
}
