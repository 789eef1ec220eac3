// 14 of a file of deliveries, and which of them stand. States of `repeats` that it tells 14, and of `latest_openings` that it has, for each method, the opening kept by one pass
// over the file, which `latest_stands` says is that of the highest revision.
ghost use Rattle.std.specs.Prelude.{◌≡◌, ◌+◌, ◌≤◌, ◌<◌, length};
ghost use Rattle.files.specs.Record.{count};
ghost use Rattle.files.specs.Deliveries.{decode_deliveries, repeated};
ghost use Rattle.files.specs.Deliveries.Latest.{kept_revision, Latest};
ghost use Rattle.files.specs.Deliveries.Met.{issue_at, IssuesIn, meets, met_next};

use crate::cells::{has_bit, put_bit};
use crate::parse::{kind_at, read};
use crate::record::Record;

// A bit for each method from 0 to 8 and each revision.
const ISSUES: usize = 288;

// A place for each method from 0 to 8.
pub const METHODS: usize = 9;

// The method and the revision of the delivery that record i opens, in one number.
fn issue_at(file: &[u8], i: usize) -> usize
    requires { i < count file.now }
    ensures { result ≡ issue_at file.now i }
{
    let opening = read(file, i);
    256 * (opening.first as usize) + (opening.second as usize)
}

// Whether record i opens a delivery like one that was met; it is met from now on.
fn meet(file: &[u8], met: &mut [u8], i: usize) -> bool
    requires { (i < count file.now) × ((IssuesIn file.now) × (length met.old ≡ 288)) }
    ensures { (result ≡ meets file.now met.old i) × (met.new ≡ met_next file.now met.old i) }
{
    if !(kind_at(file, i) == Record::OPENING) {
        return false;
    }
    let issue = issue_at(file, i);
    let before = has_bit(met, 0, issue);
    put_bit(met, 0, issue);
    before
}

// 14: two deliveries of one method have one revision, standing or not.
pub(crate) fn repeats(file: &[u8]) -> bool
    requires { IssuesIn file.now }
    ensures { result ≡ repeated (decode_deliveries file.now) }
{
    let n = file.len() / Record::LEN;
    let mut met = [0u8; ISSUES];
    for i in 0..n {
        if meet(file, &mut met, i) {
            return true;
        }
    }
    false
}

// The revision of the opening kept, which is its record + 1; 0 where there is none.
fn kept_revision(file: &[u8], kept: usize) -> u8
    requires { kept ≤ count file.now }
    ensures { result ≡ kept_revision file.now kept }
{
    if kept == 0 {
        return 0;
    }
    let opening = read(file, kept - 1);
    opening.second
}

// Keeps record i, if it opens a delivery of a higher revision than the one kept of its method.
fn keep_later(file: &[u8], kept: &mut [usize; METHODS], i: usize)
    requires { (i < count file.now) × ((IssuesIn file.now) × (Latest file.now kept.old i)) }
    ensures { Latest file.now kept.new (i + 1) }
{
    if !(kind_at(file, i) == Record::OPENING) {
        return;
    }
    let opening = read(file, i);
    let method = opening.first as usize;
    if opening.second <= kept_revision(file, kept[method]) {
        return;
    }
    kept[method] = i + 1;
}

// The openings of the deliveries that stand, by method, each as its record + 1; 0 where none does.
pub fn latest_openings(file: &[u8]) -> [usize; METHODS]
    requires { IssuesIn file.now }
    ensures { Latest file.now result (count file.now) }
{
    let n = file.len() / Record::LEN;
    let mut kept = [0usize; METHODS];
    for i in 0..n {
        keep_later(file, &mut kept, i);
    }
    kept
}
