// Fills a row through the proved code with lists of no flight, of three, of eight and of nine, and prints what is left in it; the file
// stdout beside src/ has what must come out.
// What standard output does not take is lost, and no status tells it.
#![tactic(auto)]

use log_search::StoredFlight;
use log_sync::Unsynced;
use rows::FilledRow;

fn flight(flight_id: u32) -> StoredFlight {
    StoredFlight {
        flight_id,
        start_page: 100,
        pages: 1,
    }
}

// A row whose entries tell each other apart.
fn row() -> [StoredFlight; 8] {
    [1, 2, 3, 4, 5, 6, 7, 8].map(flight)
}

// A list of eight other flights, the newest first, of which so many count.
fn listed(count: usize) -> Unsynced {
    Unsynced {
        count,
        flights: [18, 17, 16, 15, 14, 13, 12, 11].map(flight),
        more: false,
    }
}

fn show(rt: &impl Print, filled: FilledRow) {
    let refused = match filled.answer {
        Ok(()) => 0,
        Err(refusal) => refusal.number(),
    };
    let _ = print!(rt; "refused {refused}:");
    for flight in &filled.row {
        let _ = print!(rt; " {}", flight.flight_id);
    }
    let _ = println!(rt);
}

fn main(rt: HostRuntime) {
    for count in [0, 3, 8, 9] {
        show(&rt, rows::filled_row(row(), listed(count)));
    }
}
