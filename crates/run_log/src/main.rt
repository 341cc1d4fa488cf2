// Scans, searches, lists and acknowledges on small images of 20,480 bytes (16 log pages) that it lays itself, and prints each answer;
// the file stdout beside src/ has what document 01 says must come out.
// What standard output does not take is lost, and no status tells it.
#![tactic(auto)]

use blackbox::{FLASH_PAGE_LEN, FlightRecord, RECORDS_PER_PAGE};
use laws::Refusal;
use store::Flash;

const CAPACITY: u32 = 20480;

// An image, and a fault byte for each 256 bytes of it.
#[derive(Drop)]
struct Log {
    image: [u8; CAPACITY as usize],
    faults: [u8; 80],
}

impl Log {
    fn erased() -> Log {
        Log {
            image: [0xff; CAPACITY as usize],
            faults: [0; 80],
        }
    }

    fn flash(&self) -> Flash<'_> {
        Flash {
            capacity_bytes: CAPACITY,
            image: &self.image,
            faults: &self.faults,
        }
    }

    // A whole page of five all-zero records.
    fn put_page(&mut self, index: u32, flight_id: u32) {
        let records = [FlightRecord::default(); RECORDS_PER_PAGE];
        if let Ok(page) = blackbox::encode_page(flight_id, 0, records, RECORDS_PER_PAGE) {
            words::put_bytes(&mut self.image, layout::page_address(index), &page);
        }
    }

    // Pages of these flights from the first page on.
    fn put_flights(&mut self, flights: &[u32]) {
        for (index, flight_id) in (0..).zip(flights) {
            self.put_page(index, *flight_id);
        }
    }

    // A page that a power cut left: used, and it doesn't decode.
    fn tear_page(&mut self, index: u32) {
        let torn = [0u8; FLASH_PAGE_LEN];
        words::put_bytes(&mut self.image, layout::page_address(index), &torn);
    }

    fn set_fault(&mut self, index: u32, fault: u8) {
        words::put_bytes(&mut self.faults, layout::page_fault_index(index), &[fault]);
    }
}

fn refused(rt: &impl Print, name: &str, refusal: Refusal) {
    let _ = println!(rt; "{name}: refused {} {}", refusal.number(), refusal.fault());
}

fn say_scan(rt: &impl Print, name: &str, log: &Log) {
    match records::scan_log(&log.flash()) {
        Ok(scan) => {
            let writable = u8::from(scan.writable);
            let _ = println!(rt;
                "{name}: {} {} {writable}",
                scan.next_page, scan.next_flight
            );
        }
        Err(refusal) => refused(rt, name, refusal),
    }
}

fn say_find(rt: &impl Print, name: &str, log: &Log, used: u32, flight_id: u32) {
    match log_search::find_flight(&log.flash(), used, flight_id) {
        Ok(Some(found)) => {
            let _ = println!(rt;
                "{name}: {} {} {}",
                found.flight_id, found.start_page, found.pages
            );
        }
        Ok(None) => {
            let _ = println!(rt; "{name}: none");
        }
        Err(refusal) => refused(rt, name, refusal),
    }
}

// The acknowledgement of a flight of so many pages, on a log of five used pages.
fn say_ack(
    rt: &impl Print,
    name: &str,
    log: &Log,
    recording: Option<u32>,
    flight_id: u32,
    pages: u32,
) {
    match log_sync::check_ack(&log.flash(), 5, recording, flight_id, pages) {
        Ok(()) => {
            let _ = println!(rt; "{name}: accepted");
        }
        Err(refusal) => refused(rt, name, refusal),
    }
}

// The list's refusal, how many flights it has, whether there are more, and the newest.
fn say_list(rt: &impl Print, name: &str, log: &Log, used: u32) {
    match log_sync::unsynced_flights(&log.flash(), used, None) {
        Ok(list) => {
            let more = u8::from(list.more);
            let newest = list.flights[0].flight_id;
            let _ = println!(rt; "{name}: 0 {} {more} {newest}", list.count);
        }
        Err(refusal) => {
            let _ = println!(rt; "{name}: {} 0 0 0", refusal.number());
        }
    }
}

fn say_all(rt: &impl Print, name: &str, log: &Log, used: u32, recording: Option<u32>) {
    match log_sync::all_synced(&log.flash(), used, recording) {
        Ok(true) => {
            let _ = println!(rt; "{name}: yes");
        }
        Ok(false) => {
            let _ = println!(rt; "{name}: no");
        }
        Err(refusal) => refused(rt, name, refusal),
    }
}

fn one_torn(rt: &impl Print, log: &mut Log) {
    say_scan(rt, "scan, erased", log);
    log.put_flights(&[1, 1]);
    say_scan(rt, "scan, two pages of flight 1", log);
    log.tear_page(2);
    say_scan(rt, "scan, one torn page at the end", log);
    say_find(rt, "find flight 1", log, 3, 1);
    say_find(rt, "find flight 2", log, 3, 2);
}

fn two_torn(rt: &impl Print, log: &mut Log) {
    log.tear_page(3);
    say_scan(rt, "scan, two torn pages at the end", log);
    say_find(rt, "find flight 1 over them", log, 4, 1);
    say_find(rt, "find flight 1, used pages past the log", log, 40, 1);
}

fn page_zero(rt: &impl Print, log: &mut Log) {
    log.set_fault(0, 5);
    say_scan(rt, "scan, a fault at page 0", log);
    log.set_fault(0, 0);
    log.tear_page(0);
    say_scan(rt, "scan, page 0 torn", log);
}

fn scans(rt: &impl Print) {
    let mut log = Log::erased();
    one_torn(rt, &mut log);
    two_torn(rt, &mut log);
    page_zero(rt, &mut log);
}

fn hole(rt: &impl Print) {
    let mut log = Log::erased();
    log.put_flights(&[1, 1, 1]);
    log.put_page(4, 2);
    log.put_page(5, 2);
    say_scan(rt, "scan, page 3 blank among used ones", &log);
}

fn lengths(rt: &impl Print, log: &Log) {
    say_ack(rt, "ack flight 1, 3 pages", log, None, 1, 3);
    say_ack(rt, "ack flight 1, 2 pages", log, None, 1, 2);
    say_ack(rt, "ack flight 1, 4 pages", log, None, 1, 4);
    say_ack(rt, "ack flight 3", log, None, 3, 1);
}

fn numbers(rt: &impl Print, log: &Log) {
    say_ack(rt, "ack flight 0", log, None, 0, 1);
    say_ack(rt, "ack flight 0 while it is recorded", log, Some(0), 0, 1);
    say_ack(rt, "ack flight 32705", log, None, 32705, 1);
    say_ack(
        rt,
        "ack flight 32705 while it is recorded",
        log,
        Some(32705),
        32705,
        1,
    );
}

fn lists(rt: &impl Print, log: &Log) {
    say_list(rt, "unsynced, two flights", log, 5);
    say_all(rt, "all synced", log, 5, None);
    say_all(rt, "all synced, nothing used", log, 0, None);
}

fn unreadable(rt: &impl Print, log: &mut Log) {
    log.set_fault(2, 7);
    say_ack(rt, "ack flight 1, a fault at page 2", log, None, 1, 3);
    say_all(
        rt,
        "all synced while recording, with that fault",
        log,
        5,
        Some(9),
    );
    log.tear_page(1);
    log.tear_page(2);
    log.set_fault(2, 0);
    say_ack(rt, "ack flight 1, two torn pages", log, None, 1, 3);
}

fn acknowledgements(rt: &impl Print) {
    let mut log = Log::erased();
    log.put_flights(&[1, 1, 1, 2, 2]);
    lengths(rt, &log);
    numbers(rt, &log);
    lists(rt, &log);
    unreadable(rt, &mut log);
}

fn nine(rt: &impl Print) {
    let mut log = Log::erased();
    log.put_flights(&[1, 2, 3, 4, 5, 6, 7, 8]);
    say_list(rt, "unsynced, eight flights", &log, 8);
    log.put_page(8, 9);
    say_list(rt, "unsynced, nine flights", &log, 9);
}

fn main(rt: HostRuntime) {
    scans(&rt);
    hole(&rt);
    acknowledgements(&rt);
    nine(&rt);
}
