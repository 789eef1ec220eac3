// Sets of numbers below 256 as rows of bits (files/src/cells.rt), printed as ranges, `0-2, 5`: the labels of an arrow, the rows that fail at a node, a line of a relation.
ghost use Rattle.std.specs.Prelude.{◌<◌};

use files::cells::has_bit;
use files::encode::LINE;
use std::fmt;
use std::fmt::{Display, Formatter, Write};

fn has(set: &[u8; LINE], h: usize) -> bool
    requires { h < 256 }
{
    has_bit(set, 0, h)
}

// How many numbers the set has.
pub fn members(set: &[u8; LINE]) -> u32 {
    let mut n = 0;
    for row in set {
        n += row.count_ones();
    }
    n
}

// The numbers of a set as ranges, with `first` before the first of them and `comma` before every other.
#[derive(Clone, Copy)]
pub struct Ranges<'a> {
    pub set: &'a [u8; LINE],
    pub first: &'a str,
    pub comma: &'a str,
}

impl Display for Ranges<'_> {
    fn fmt<W: Write>(&self, f: &mut Formatter<W>) -> fmt::Result {
        let Ranges { set, first, comma } = *self;
        let mut any = false;
        for h in 0..256 {
            if has(set, h) {
                if h == 0 || !has(set, h - 1) {
                    let before = if any { comma } else { first };
                    write!(f, "{before}{h}")?;
                    any = true;
                } else if h == 255 || !has(set, h + 1) {
                    write!(f, "-{h}")?;
                }
            }
        }
        Ok(())
    }
}
