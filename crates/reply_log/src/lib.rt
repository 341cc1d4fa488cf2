// The rows of scan, search, ledger and log sync, in which C calls lay their answers, and what the numbers stand for that these calls
// are handed.
#![tactic(auto, unfolding(crate::specs::LogRows::scan_row, crate::specs::LogRows::reason_numbers, crate::specs::LogRows::stored_row, crate::specs::LogRows::bit_row, crate::specs::LogRows::step_numbers, words::specs::Words::le_bytes, words::specs::Words::placed))]

ghost use Rattle.std.specs.Prelude.{◌≡◌};
ghost use Rattle.records.specs.Explain.{told_reason};
ghost use Rattle.reply_log.specs.LogRows.{scan_row, reason_numbers, reason_row, flight_row, stored_row, found_row, flag_row, header_row, bit_row, step_numbers, step_row};
ghost use Rattle.reply_log.specs.LogRows.{step_of, recording_of};

use log_search::StoredFlight;
use records::{PageFlight, Reason, Scan};
use sync_ledger::{BitLocation, LedgerHeader, MarkStep};

pub fn scan_row(s: Scan) -> [u8; 9]
    ensures { result ≡ scan_row s }
{
    let mut row = [0; 9];
    words::put(&mut row, 0, s.next_page);
    words::put(&mut row, 4, s.next_flight);
    row[8] = u8::from(s.writable);
    row
}

fn reason_numbers(
    reason: u8,
    earlier: u8,
    later: u8,
    earlier_page: u32,
    later_page: u32,
) -> [u8; 11]
    ensures { result ≡ reason_numbers reason earlier later earlier_page later_page }
{
    let mut row = [reason, earlier, later, 0, 0, 0, 0, 0, 0, 0, 0];
    words::put(&mut row, 3, earlier_page);
    words::put(&mut row, 7, later_page);
    row
}

pub fn reason_row(r: Reason) -> [u8; 11]
    ensures { result ≡ reason_row (told_reason r) }
{
    match r {
        Reason::Nothing => reason_numbers(0, 0, 0, 0, 0),
        Reason::FirstTorn(by) => reason_numbers(1, by.number(), 0, 0, 0),
        Reason::LastTorn(t) => reason_numbers(
            2,
            t.earlier.number(),
            t.later.number(),
            t.earlier_page,
            t.later_page,
        ),
        Reason::Full => reason_numbers(3, 0, 0, 0, 0),
    }
}

pub fn flight_row(o: Option<PageFlight>) -> [u8; 5]
    ensures { result ≡ flight_row o }
{
    reply::option_row(o.map(|f| f.flight_id))
}

// The twelve bytes of a stored flight.
pub fn stored_row(f: StoredFlight) -> [u8; 12]
    ensures { result ≡ stored_row f }
{
    let mut row = [0; 12];
    words::put(&mut row, 0, f.flight_id);
    words::put(&mut row, 4, f.start_page);
    words::put(&mut row, 8, f.pages);
    row
}

pub fn found_row(o: Option<StoredFlight>) -> [u8; 13]
    ensures { result ≡ found_row o }
{
    let mut row = [0; 13];
    if let Some(f) = o {
        row[0] = 1;
        row[1..].copy_from_slice(&stored_row(f));
    }
    row
}

pub fn flag_row(b: bool) -> [u8; 1]
    ensures { result ≡ flag_row b }
{
    [u8::from(b)]
}

// 0 Blank, 1 Valid, 2 Foreign.
pub fn header_row(h: LedgerHeader) -> [u8; 1]
    ensures { result ≡ header_row h }
{
    [h as u8]
}

pub fn bit_row(b: BitLocation) -> [u8; 5]
    ensures { result ≡ bit_row b }
{
    let mut row = [0, 0, 0, 0, b.mask];
    words::put(&mut row, 0, b.address);
    row
}

fn step_numbers(kind: u8, address: u32, value: u8) -> [u8; 6]
    ensures { result ≡ step_numbers kind address value }
{
    let mut row = [kind, 0, 0, 0, 0, value];
    words::put(&mut row, 1, address);
    row
}

pub fn step_row(s: MarkStep) -> [u8; 6]
    ensures { result ≡ step_row s }
{
    match s {
        MarkStep::EraseLedger { address } => step_numbers(0, address, 0),
        MarkStep::ProgramHeader { address } => step_numbers(1, address, 0),
        MarkStep::ProgramBit { address, value } => step_numbers(2, address, value),
        MarkStep::Done => step_numbers(3, 0, 0),
    }
}

// The step of a kind that C hands in; Done from 3 on.
pub fn step_of(kind: u8, address: u32, value: u8) -> MarkStep
    ensures { result ≡ step_of kind address value }
{
    match kind {
        0 => MarkStep::EraseLedger { address },
        1 => MarkStep::ProgramHeader { address },
        2 => MarkStep::ProgramBit { address, value },
        _ => MarkStep::Done,
    }
}

// The flight that is being recorded, by a flag and a number that C hands in.
pub fn recording_of(flag: u8, flight: u32) -> Option<u32>
    ensures { result ≡ recording_of flag flight }
{
    (flag != 0).then_some(flight)
}
