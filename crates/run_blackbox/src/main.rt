// Runs document 01's vectors of the checksum, records and pages through the proved code and prints what came out; the file
// stdout beside src/ has what must come out.
// What standard output does not take is lost, and no status tells it.
#![tactic(auto)]

use blackbox::{FLASH_PAGE_LEN, FlightRecord, RECORD_LEN, RECORDS_PER_PAGE};
use laws::Refusal;

// A record with a negative number, and the largest and smallest, in its signed fields.
fn sample(k: u16) -> FlightRecord {
    FlightRecord {
        timestamp_us: 4294967295,
        control_sequence: u32::from(k),
        imu_sequence: 65536,
        flags: 3,
        raw_gyro_dps10: [-1, 32767, -32768],
        filtered_gyro_dps10: [0, -300, 300],
        command_dps10: [1, 2, 3],
        pid: [-4, -5, -6],
        throttle: k,
        motors: [1000, 1250, 1500, 2000],
    }
}

fn samples() -> [FlightRecord; RECORDS_PER_PAGE] {
    [1, 2, 3, 4, 65535].map(sample)
}

// 0 where nothing is refused, else the number that it is refused by.
fn number_of<T: Drop>(answer: Result<T, Refusal>) -> u8 {
    match answer {
        Ok(_) => 0,
        Err(refusal) => refusal.number(),
    }
}

fn say_page(rt: &impl Print, name: &str, page: &[u8]) {
    let _ = println!(rt; "{name} {}", number_of(blackbox::decode_page(page)));
}

fn flip(page: &mut [u8; FLASH_PAGE_LEN], bit: u16) {
    let at = usize::from(bit / 8);
    if at < FLASH_PAGE_LEN {
        page[at] ^= 1 << (bit % 8);
    }
}

// The number that a page of five records with one bit flipped must be refused by, in the order 2, 3, 1, 4: a flip of bit 0
// or 2 of the count leaves a count of at most five, so the checksum refuses it.
fn expected(bit: u16) -> u8 {
    match (bit / 8, bit % 8) {
        (240 | 241, _) => 2,
        (242, _) => 3,
        (243, 0 | 2) => 4,
        (243, _) => 1,
        _ => 4,
    }
}

// How many of the 2,048 single-bit damages of a page are refused as document 01 orders; each is undone.
fn refused_damages(page: &mut [u8; FLASH_PAGE_LEN]) -> u16 {
    let mut refused: u16 = 0;
    for bit in 0..2048u16 {
        flip(page, bit);
        let number = number_of(blackbox::decode_page(page.as_slice()));
        flip(page, bit);
        refused = refused.wrapping_add(u16::from(number == expected(bit)));
    }
    refused
}

fn check_damages(rt: &impl Print, page: &mut [u8; FLASH_PAGE_LEN]) {
    let refused = refused_damages(page);
    let _ = println!(rt; "single-bit damages of 2048 refused as document 01 orders {refused}");
    say_page(rt, "undamaged again, refused by", page);
}

fn record_at(page: &[u8], index: usize) -> FlightRecord {
    blackbox::record_from_page(page, index).unwrap_or_default()
}

// Whether the page that the first three records of a page make is that page.
fn comes_back(page: &[u8; FLASH_PAGE_LEN]) -> bool {
    let [a, b, c] = [0, 1, 2].map(|index| record_at(page, index));
    blackbox::encode_page(7, 0, [a, b, c, c, c], 3) == Ok(*page)
}

fn say_comes_back(rt: &impl Print, page: &[u8; FLASH_PAGE_LEN]) {
    let _ = println!(rt; "comes back {}", u8::from(comes_back(page)));
}

// A page with its checksum made anew.
fn reseal(page: &mut [u8; FLASH_PAGE_LEN]) {
    let crc = crc32::crc32(&page[..252]).to_le_bytes();
    page[252..].copy_from_slice(&crc);
}

fn check_slots(rt: &impl Print, mut page: [u8; FLASH_PAGE_LEN]) {
    say_page(rt, "three records, refused by", &page);
    say_comes_back(rt, &page);
    page[200] = 0;
    say_page(rt, "an unused byte changed, refused by", &page);
    reseal(&mut page);
    say_page(rt, "and the checksum made anew, refused by", &page);
    say_comes_back(rt, &page);
}

fn check_lengths(rt: &impl Print, page: &[u8; FLASH_PAGE_LEN]) {
    let sixth = number_of(blackbox::record_from_page(page, RECORDS_PER_PAGE));
    let _ = println!(rt; "a sixth record read, refused by {sixth}");
    let fifth = record_at(page, RECORDS_PER_PAGE - 1);
    let _ = println!(rt; "the fifth record's throttle {}", fifth.throttle);
    say_page(rt, "255 bytes, refused by", &page[..255]);
    let short = number_of(FlightRecord::decode(&page[..RECORD_LEN - 1]));
    let _ = println!(rt; "a row of 47 bytes, refused by {short}");
}

fn check_crc32(rt: &impl Print) {
    let _ = println!(rt; "crc32 of 123456789 {:08x}", crc32::crc32(b"123456789"));
    let _ = println!(rt; "crc32 of nothing {}", crc32::crc32(b""));
}

fn main(rt: HostRuntime) {
    check_crc32(&rt);
    let five = blackbox::encode_page(7, 0, samples(), 5);
    let _ = println!(rt; "five records, refused by {}", number_of(five));
    let six = blackbox::encode_page(7, 0, samples(), 6);
    let _ = println!(rt; "six records, refused by {}", number_of(six));
    let mut page = five.unwrap_or([0; FLASH_PAGE_LEN]);
    check_lengths(&rt, &page);
    check_damages(&rt, &mut page);
    check_slots(
        &rt,
        blackbox::encode_page(7, 0, samples(), 3).unwrap_or([0; FLASH_PAGE_LEN]),
    );
}
