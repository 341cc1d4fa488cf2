// Prints what docs/FORMAT.md shows. Every picture and table is asked of the proved code: which bytes a field stands in is found by
// changing the field, what a byte of a page is for by changing the byte. .ci/names holds the document to the file stdout.
// What standard output does not take is lost, and no status tells it.
#![tactic(auto)]

use blackbox::FlightRecord;
use laws::Refusal;
use layout::StorageLayout;
use std::fmt::Display;
use store::Flash;
use sync_ledger::LedgerHeader;

const CAPACITY: u32 = 20480;

fn heading(rt: &impl Print, name: &str) {
    let _ = println!(rt; "\n{name}\n");
}

// ---- the flash

fn place(rt: &impl Print, address: u32, name: &str) {
    let _ = println!(rt; "{address:>8}  {name}");
}

fn say_layout(rt: &impl Print, layout: &StorageLayout) {
    let [first, second] = layout.config_slot_addresses;
    place(rt, first, "configuration, first slot");
    place(rt, second, "configuration, second slot");
    let log = layout.log_start_address;
    let pages = layout.log_page_count;
    let _ = println!(rt;
        "{log:>8}  the log: {pages} pages of {} bytes",
        layout::FLASH_PAGE_LEN
    );
}

fn say_ledger(rt: &impl Print, capacity: u32) {
    match layout::sync_ledger_address(capacity) {
        Ok(address) => place(rt, address, "the ledger"),
        Err(refusal) => {
            let _ = println!(rt; "refused {}", refusal.number());
        }
    }
    place(rt, capacity, "the end");
}

fn say_flash(rt: &impl Print, capacity: u32) {
    match StorageLayout::new(capacity) {
        Ok(layout) => say_layout(rt, &layout),
        Err(refusal) => {
            let _ = println!(rt; "refused {}", refusal.number());
        }
    }
    say_ledger(rt, capacity);
}

fn say_capacity(rt: &impl Print, capacity: u32) {
    let _ = match StorageLayout::new(capacity) {
        Ok(layout) => println!(rt; "{capacity:>8}  {} pages", layout.log_page_count),
        Err(refusal) => println!(rt; "{capacity:>8}  refused {}", refusal.number()),
    };
}

fn say_capacities(rt: &impl Print) {
    let least = layout::LOG_START_ADDRESS + layout::CONFIG_SECTOR_SIZE;
    for capacity in [least, CAPACITY, 20736, layout::MAX_CAPACITY] {
        say_capacity(rt, capacity);
    }
}

// ---- a record

// A field's bytes: those in which a record of zeros differs from one with that field alone all ones.
fn say_field(rt: &impl Print, name: &str, changed: FlightRecord, all_ones: impl Display + Copy) {
    let none = FlightRecord::default().encode();
    let some = changed.encode();
    let first = (0..48).position(|i| none[i] != some[i]).unwrap_or(48);
    let last = (0..48).rposition(|i| none[i] != some[i]).unwrap_or(0);
    let _ = println!(rt; "{first:>4} to {last:>2}  {name:<24}all ones are {all_ones}");
}

fn say_numbers(rt: &impl Print, all: FlightRecord) {
    let none = FlightRecord::default();
    let timestamp_us = all.timestamp_us;
    let changed = FlightRecord {
        timestamp_us,
        ..none
    };
    say_field(rt, "timestamp_us", changed, timestamp_us);
    let control_sequence = all.control_sequence;
    let changed = FlightRecord {
        control_sequence,
        ..none
    };
    say_field(rt, "control_sequence", changed, control_sequence);
    let imu_sequence = all.imu_sequence;
    let changed = FlightRecord {
        imu_sequence,
        ..none
    };
    say_field(rt, "imu_sequence", changed, imu_sequence);
    let flags = all.flags;
    say_field(rt, "flags", FlightRecord { flags, ..none }, flags);
}

fn say_rates(rt: &impl Print, all: FlightRecord) {
    let none = FlightRecord::default();
    let raw_gyro_dps10 = all.raw_gyro_dps10;
    let changed = FlightRecord {
        raw_gyro_dps10,
        ..none
    };
    say_field(rt, "raw_gyro_dps10, 3", changed, raw_gyro_dps10[0]);
    let filtered_gyro_dps10 = all.filtered_gyro_dps10;
    let changed = FlightRecord {
        filtered_gyro_dps10,
        ..none
    };
    say_field(
        rt,
        "filtered_gyro_dps10, 3",
        changed,
        filtered_gyro_dps10[0],
    );
    let command_dps10 = all.command_dps10;
    let changed = FlightRecord {
        command_dps10,
        ..none
    };
    say_field(rt, "command_dps10, 3", changed, command_dps10[0]);
    let pid = all.pid;
    say_field(rt, "pid, 3", FlightRecord { pid, ..none }, pid[0]);
}

fn say_outputs(rt: &impl Print, all: FlightRecord) {
    let none = FlightRecord::default();
    let throttle = all.throttle;
    let changed = FlightRecord { throttle, ..none };
    say_field(rt, "throttle", changed, throttle);
    let motors = all.motors;
    say_field(rt, "motors, 4", FlightRecord { motors, ..none }, motors[0]);
}

// ---- a page

// A record of a flight, with what a reader can find again in the bytes.
fn shown(k: u32) -> FlightRecord {
    FlightRecord {
        timestamp_us: 1000 + 10 * (k % 10),
        control_sequence: k,
        flags: 1,
        raw_gyro_dps10: [-1, 2, -300],
        throttle: 1500,
        motors: [1000, 1001, 1002, 1003],
        ..FlightRecord::default()
    }
}

fn page_of(flight: u32, sequence: u32, count: usize) -> [u8; 256] {
    let records = [1, 2, 3, 4, 5].map(shown);
    blackbox::encode_page(flight, sequence, records, count).unwrap_or([0; 256])
}

// A page with its checksum made anew.
fn resealed(mut page: [u8; 256]) -> [u8; 256] {
    let sum = crc32::crc32(&page[0..252]);
    page[252..].copy_from_slice(&sum.to_le_bytes());
    page
}

fn row_apart(a: &[u8], b: &[u8], index: usize) -> bool {
    let first = blackbox::record_from_page(a, index).unwrap_or_default();
    let second = blackbox::record_from_page(b, index).unwrap_or_default();
    first.encode() != second.encode()
}

// Which of the five records two pages differ in, as a letter.
fn record_letter(a: &[u8], b: &[u8]) -> char {
    for (index, letter) in ['1', '2', '3', '4', '5'].into_iter().enumerate() {
        if row_apart(a, b, index) {
            return letter;
        }
    }
    '?'
}

// What a byte is for whose change makes a page refused: magic, version, count or checksum.
fn refusal_letter(refusal: Refusal) -> char {
    match refusal {
        Refusal::InvalidMagic => 'M',
        Refusal::UnsupportedVersion => 'V',
        Refusal::InvalidRecordCount => 'C',
        _ => 'X',
    }
}

// What a page says otherwise than another that decodes too.
fn said_apart(page: &[u8], other: &[u8]) -> char {
    let Ok(said) = blackbox::decode_page(page) else {
        return '?';
    };
    match blackbox::decode_page(other) {
        Err(refusal) => refusal_letter(refusal),
        Ok(now) if now.flight_id != said.flight_id => 'F',
        Ok(now) if now.page_sequence != said.page_sequence => 'S',
        Ok(_) => record_letter(page, other),
    }
}

// A page with another byte at a place.
fn with(mut page: [u8; 256], at: usize, byte: u8) -> [u8; 256] {
    if let Some(place) = page.get_mut(at) {
        *place = byte;
    }
    page
}

// What byte `at` is for: the page with that byte changed, and its checksum made to fit where the byte isn't one of the checksum's.
fn purpose(page: [u8; 256], at: usize) -> char {
    let changed = with(page, at, words::byte_at(&page, at) ^ 0x55);
    let other = if at < 252 { resealed(changed) } else { changed };
    said_apart(&page, &other)
}

fn say_purposes(rt: &impl Print, page: [u8; 256], from: usize, end: usize) {
    let _ = print!(rt; "{from:>5}  ");
    for at in from..end {
        let _ = print!(rt; "{}", purpose(page, at));
    }
    let _ = println!(rt);
}

fn say_map(rt: &impl Print) {
    let page = page_of(7, 3, 5);
    for from in [0, 48, 96, 144, 192] {
        say_purposes(rt, page, from, from + 48);
    }
    say_purposes(rt, page, 240, 256);
}

fn say_hex(rt: &impl Print, from: usize, bytes: &[u8]) {
    let _ = print!(rt; "{from:>5} ");
    for byte in bytes {
        let _ = print!(rt; " {byte:02x}");
    }
    let _ = println!(rt);
}

fn say_page(rt: &impl Print) {
    let page = page_of(7, 3, 2);
    for (index, bytes) in page[0..96].chunks_exact(16).enumerate() {
        say_hex(rt, 16 * index, bytes);
    }
    if records::is_blank(&page[96..240]) {
        let _ = println!(rt; "   ..  ff from 96 to 239");
    }
    say_hex(rt, 240, &page[240..]);
}

// ---- how a refusal is chosen

fn say_decode(rt: &impl Print, name: &str, page: &[u8]) {
    let _ = match blackbox::decode_page(page) {
        Ok(_) => println!(rt; "{name:<33}decodes"),
        Err(refusal) => println!(rt; "{name:<33}refused {}", refusal.number()),
    };
}

fn say_order(rt: &impl Print) {
    let whole = page_of(7, 3, 2);
    let sum = with(whole, 255, 0);
    let count = with(sum, 243, 6);
    let version = with(count, 242, 9);
    let magic = with(version, 240, 0);
    say_decode(rt, "everything wrong, and 255 bytes", &magic[0..255]);
    say_decode(rt, "everything wrong, 256 bytes", &magic);
    say_decode(rt, "the magic mended", &version);
    say_decode(rt, "the version too", &count);
    say_decode(rt, "the count too", &sum);
    say_decode(rt, "the checksum too", &whole);
}

// ---- the ledger

fn flash_of(image: &[u8]) -> Flash<'_> {
    Flash {
        capacity_bytes: CAPACITY,
        image,
        faults: &[0; 80],
    }
}

fn say_header(rt: &impl Print, name: &str, image: &[u8]) {
    let said = match sync_ledger::read_header(&flash_of(image)) {
        Ok(LedgerHeader::Blank) => "Blank",
        Ok(LedgerHeader::Valid) => "Valid",
        Ok(LedgerHeader::Foreign) => "Foreign",
        Err(_) => "refused",
    };
    let _ = println!(rt; "{name:<25}{said}");
}

fn say_headers(rt: &impl Print, image: &mut [u8]) {
    say_header(rt, "ff ff ff ff ff ff ff ff", image);
    let ledger = layout::page_address(layout::page_count(CAPACITY));
    for name in ["FWSYNC01", "FWSYNC02"] {
        words::put_bytes(image, ledger, name.as_bytes());
        say_header(rt, name, image);
    }
}

fn say_bit(rt: &impl Print, flight: u32) {
    let _ = match sync_ledger::bit_location(CAPACITY, flight) {
        Ok(place) => println!(rt; "{flight:>7}{:>9}  {:02x}", place.address, place.mask),
        Err(refusal) => println!(rt; "{flight:>7}  refused {}", refusal.number()),
    };
}

fn say_bits(rt: &impl Print) {
    let _ = println!(rt; " flight  address  mask");
    for flight in [0, 1, 2, 8, 9, 32704, 32705] {
        say_bit(rt, flight);
    }
}

// ---- a log with torn pages

// Its pages in order: flight, page of it, records, and whether the program was cut after the first half of its bytes.
const LOG: [(u32, u32, usize, bool); 8] = [
    (1, 0, 5, false),
    (1, 1, 5, false),
    (1, 2, 3, false),
    (2, 0, 5, false),
    (2, 1, 5, true),
    (3, 0, 5, false),
    (3, 1, 5, false),
    (4, 0, 5, true),
];

fn put_log(image: &mut [u8]) {
    for (index, (flight, sequence, count, torn)) in (0..).zip(LOG) {
        let page = page_of(flight, sequence, count);
        let programmed = if torn { &page[0..128] } else { &page };
        words::put_bytes(image, layout::page_address(index), programmed);
    }
}

fn say_flight(rt: &impl Print, image: &[u8], index: u32) {
    let _ = match records::page_flight_id(&flash_of(image), index) {
        Ok(Some(flight)) => println!(rt; "counts with flight {}", flight.flight_id),
        Ok(None) => println!(rt; "counts with none"),
        Err(_) => println!(rt; "refused"),
    };
}

fn say_log_page(rt: &impl Print, image: &[u8], index: u32) {
    let page = records::page_part(image, index);
    let _ = print!(rt; "{index:>4}{:>7}  ", layout::page_address(index));
    if records::is_blank(page) {
        let _ = println!(rt; "blank");
        return;
    }
    let _ = match blackbox::decode_page(page) {
        Err(refusal) => print!(rt; "torn, refused {}: ", refusal.number()),
        Ok(said) => print!(rt;
            "flight {}, page {} of it, {} records: ",
            said.flight_id, said.page_sequence, said.record_count
        ),
    };
    say_flight(rt, image, index);
}

fn say_log(rt: &impl Print, image: &[u8]) {
    let _ = println!(rt; "page address");
    for index in 0..10 {
        say_log_page(rt, image, index);
    }
}

// The probes of the scan, by the halving's own rule. `laws::halve` tells its test the middle alone, and the bounds are printed too.
fn say_probes(rt: &impl Print, image: &[u8]) {
    let mut low: u32 = 0;
    let mut high: u32 = 16;
    while low < high {
        let middle = low + (high - low) / 2;
        let blank = records::is_blank(records::page_part(image, middle));
        let said = if blank { "blank" } else { "used" };
        let _ = println!(rt; "between {low:>2} and {high:>2} it reads page {middle:>2}: {said}");
        if blank {
            high = middle;
        } else {
            low = middle + 1;
        }
    }
}

fn say_scan(rt: &impl Print, image: &[u8]) {
    let _ = match records::scan_log(&flash_of(image)) {
        Ok(scan) => {
            let writable = if scan.writable {
                "writable"
            } else {
                "not writable"
            };
            println!(rt;
                "next page {}, next flight {}, {writable}",
                scan.next_page, scan.next_flight
            )
        }
        Err(_) => println!(rt; "refused"),
    };
}

fn say_find(rt: &impl Print, image: &[u8], flight: u32) {
    let _ = match log_search::find_flight(&flash_of(image), 8, flight) {
        Ok(Some(found)) => println!(rt;
            "flight {flight}: from page {}, {} pages",
            found.start_page, found.pages
        ),
        Ok(None) => println!(rt; "flight {flight}: not found"),
        Err(_) => println!(rt; "flight {flight}: refused"),
    };
}

fn say_finds(rt: &impl Print, image: &[u8]) {
    for flight in 1..5 {
        say_find(rt, image, flight);
    }
}

// ---- the whole

fn say_records(rt: &impl Print) {
    let _ = println!(rt; "  bytes   field");
    let all = FlightRecord::decode(&[0xff; blackbox::RECORD_LEN]).unwrap_or_default();
    say_numbers(rt, all);
    say_rates(rt, all);
    say_outputs(rt, all);
}

fn say_pages(rt: &impl Print) {
    heading(rt, "page");
    say_map(rt);
    heading(rt, "bytes");
    say_page(rt);
    heading(rt, "order");
    say_order(rt);
}

fn say_logs(rt: &impl Print) {
    let mut image = [0xffu8; CAPACITY as usize];
    heading(rt, "ledger");
    say_headers(rt, &mut image);
    heading(rt, "bits");
    say_bits(rt);
    heading(rt, "log");
    put_log(&mut image);
    say_log(rt, &image);
    heading(rt, "halving");
    say_probes(rt, &image);
    heading(rt, "scan");
    say_scan(rt, &image);
    heading(rt, "search");
    say_finds(rt, &image);
}

fn main(rt: HostRuntime) {
    let _ = println!(rt; "flash\n");
    say_flash(&rt, CAPACITY);
    heading(&rt, "capacities");
    say_capacities(&rt);
    heading(&rt, "record");
    say_records(&rt);
    say_pages(&rt);
    say_logs(&rt);
}
