// A refusal: its number in the published table, the position of the file from 1, and the first offending record from 0. The number is no enum: programs print it, C gets it,
// and the definitions count on it (Outcome.numbered).
ghost use Rattle.std.specs.Prelude.{◌≡◌};
ghost use Rattle.files.specs.Outcome.{refusal_at};

#[derive(Clone, Copy)]
pub struct Refusal {
    pub number: u8,
    pub file: u8,
    pub record: usize,
}

impl Refusal {
    pub(crate) fn at(number: u8, file: u8, record: usize) -> Self
        ensures { result ≡ refusal_at number file «record» }
    {
        Refusal {
            number: number,
            file: file,
            record: record,
        }
    }

    // A refusal of no file in particular.
    pub fn whole(number: u8) -> Self
        ensures { result ≡ refusal_at number 0 0 }
    {
        Refusal {
            number: number,
            file: 0,
            record: 0,
        }
    }
}
