// A refusal in words: its number, what it means, the file by name and the record.
use crate::arguments::say_argument;
use files::refusal::Refusal;
use printing::say;
use printing::stdout::Buffered;

// What a number means that is about a record of one file.
fn record_fault(number: u8) -> &'static str {
    match number {
        2 => "kind wrong for its place, or a second interface record",
        3 => "field out of range, or unused byte not 0",
        4 => "order broken or key repeated",
        7 => "node or row number past the last",
        8 => "edge between two methods, or node of another method than its delivery's",
        9 => "graph not of its interface",
        _ => "",
    }
}

// What a number means that is about one file as a whole.
fn file_fault(number: u8) -> Option<&'static str> {
    match number {
        1 => Some("length is no multiple of 6"),
        5 => Some("limit on nodes, edges, rows or operator-8 rows passed"),
        6 => Some("property without rows, or interface file without a record"),
        _ => None,
    }
}

// What a number means that is about no single file.
fn call_fault(number: u8) -> &'static str {
    match number {
        3 => "start method not 1 to 8",
        7 => "number not below both node counts together",
        9 => "two sides provide one method",
        10 => "a required method, or the start method, is provided by nobody",
        11 => "model, joined or standing graph would pass 256 nodes or 4,096 edges",
        12 => "output shorter than the whole result",
        13 => "work buffer shorter than published",
        14 => "two deliveries of one method with equal revision",
        16 => "the known graph lacks an entry for a method that it provides",
        _ => "",
    }
}

// File f of a call is the argument after the one that names the command and the f - 1 before it.
fn say_file(stdout: &mut Buffered, file: u8) {
    say!(stdout, ", in ");
    say_argument(stdout, usize::from(file) + 1);
}

pub fn say_refused(stdout: &mut Buffered, r: Refusal) {
    let Refusal {
        number,
        file,
        record,
    } = r;
    say!(stdout, "refused by {number}: ");
    if file == 0 {
        let fault = call_fault(number);
        say!(stdout, "{fault}");
    } else if let Some(fault) = file_fault(number) {
        say!(stdout, "{fault}");
        say_file(stdout, file);
    } else {
        let fault = record_fault(number);
        say!(stdout, "{fault}");
        say_file(stdout, file);
        say!(stdout, ", record {record}");
    }
    say!(stdout, "\n");
}
