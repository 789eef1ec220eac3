// Checking a file of deliveries: accepted, with its records, or refused by the lowest number among 1 to 8 at its first offending record.
ghost use Rattle.std.specs.Prelude.{◌≡◌};
ghost use Rattle.files.specs.Deliveries.Names.{SoundParts};
ghost use Rattle.files.specs.Deliveries.Steps.{delivery_checked, delivery_from_five};

use crate::check::FileCounts;
use crate::deliveries::look_deliveries;
use crate::parts::{name_deliveries, passed_deliveries};
use crate::record::{Limits, Record};
use crate::refusal::Refusal;

// The steps from number 5 on.
fn deliveries_from_five(file: &[u8], position: u8, limits: Limits) -> Result<FileCounts, Refusal>
    requires { SoundParts file.now }
    ensures { result ≡ delivery_from_five limits file.now position }
{
    if passed_deliveries(file, limits) {
        return Err(Refusal::at(5, position, 0));
    }
    name_deliveries(file, position)?;
    Ok(FileCounts {
        nodes: 0,
        records: file.len() / Record::LEN,
    })
}

// Checks a whole file of deliveries, which stands at a position among a call's files.
pub fn check_deliveries(file: &[u8], position: u8, limits: Limits) -> Result<FileCounts, Refusal>
    ensures { result ≡ delivery_checked limits file.now position }
{
    if !(file.len() % Record::LEN == 0) {
        return Err(Refusal::at(1, position, 0));
    }
    look_deliveries(file, position)?;
    deliveries_from_five(file, position, limits)
}
