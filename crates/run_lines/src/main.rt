// Prints the answer lines of samples, the texts of the refusals and decimal numbers through the proved code; the file stdout beside
// src/ has what must come out.
// What standard output does not take is lost, and no status tells it.
#![tactic(auto)]

use laws::Refusal;
use log_lines::Lines;
use log_search::StoredFlight;
use std::io;
use std::io::Write;

// A text's length and the text.
fn show(rt: &impl Print, text: &[u8]) {
    let _ = println!(rt; "bytes {}", text.len());
    let _ = io::writer(rt).write_all(text);
}

// An answer, or its refusal and no text.
fn show_lines(rt: &impl Print, lines: Result<Lines, Refusal>) {
    match lines {
        Ok(lines) => show(rt, lines.as_slice()),
        Err(refusal) => {
            let _ = println!(rt; "refused {}", refusal.number());
            show(rt, b"");
        }
    }
}

fn show_number(rt: &impl Print, n: u32) {
    let _ = io::writer(rt).write_all(digits::decimal(n).as_slice());
    let _ = println!(rt; "");
}

fn flight(flight_id: u32, start_page: u32, pages: u32) -> StoredFlight {
    StoredFlight {
        flight_id,
        start_page,
        pages,
    }
}

// The two flights of the Rust's comment in front, and six that are not listed.
fn two() -> [StoredFlight; 8] {
    let newest = flight(7, 120, 412);
    let older = flight(5, 40, 80);
    let none = flight(0, 0, 0);
    [newest, older, none, none, none, none, none, none]
}

fn largest() -> [StoredFlight; 8] {
    [flight(u32::MAX, u32::MAX, u32::MAX); 8]
}

fn main(rt: HostRuntime) {
    show_lines(&rt, log_lines::unsynced_lines(two(), 0, false));
    show_lines(&rt, log_lines::unsynced_lines(two(), 2, false));
    show_lines(&rt, log_lines::unsynced_lines(largest(), 8, true));
    show_lines(&rt, log_lines::unsynced_lines(largest(), 9, true));
    show(
        &rt,
        log_lines::flight_line(flight(10, 0, 1000000009)).as_slice(),
    );
    for number in 12..17 {
        show(&rt, log_lines::ack_response(number).as_slice());
    }
    for n in [0, 9, 10, 4096, 999999999, 1000000000, u32::MAX] {
        show_number(&rt, n);
    }
}
