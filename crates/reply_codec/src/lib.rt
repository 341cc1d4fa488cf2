// The rows of layout and codec, in which C calls lay their answers, and the page that a C call hands in as rows.
#![tactic(auto, unfolding(crate::specs::CodecRows::layout_row, crate::specs::CodecRows::metadata_row, crate::specs::CodecRows::encoded_rows, blackbox::specs::Record::record_decoded, words::specs::Words::le_bytes, words::specs::Words::placed))]

ghost use Rattle.std.specs.Prelude.{◌≡◌, ◌+◌, ◌≤◌, length, take, drop};
ghost use Rattle.laws.specs.Answers.{told};
ghost use Rattle.blackbox.specs.Record.{record_of};
ghost use Rattle.blackbox.specs.Page as Page;
ghost use Rattle.reply_codec.specs.CodecRows.{layout_row, metadata_row, encoded_rows};

use blackbox::{FlightRecord, PageMetadata};
use laws::Refusal;
use layout::StorageLayout;

pub fn layout_row(l: StorageLayout) -> [u8; 20]
    ensures { result ≡ layout_row l }
{
    let [first, second] = l.config_slot_addresses;
    let mut row = [0; 20];
    words::put(&mut row, 0, l.capacity_bytes);
    words::put(&mut row, 4, first);
    words::put(&mut row, 8, second);
    words::put(&mut row, 12, l.log_start_address);
    words::put(&mut row, 16, l.log_page_count);
    row
}

pub fn metadata_row(m: PageMetadata) -> [u8; 9]
    ensures { result ≡ metadata_row m }
{
    let mut row = [0; 9];
    words::put(&mut row, 0, m.flight_id);
    words::put(&mut row, 4, m.page_sequence);
    row[8] = m.record_count;
    row
}

// The record of the 48 bytes from an offset on.
fn record_at(rows: &[u8], start: usize) -> FlightRecord
    requires { start + 48 ≤ length rows.now }
    ensures { result ≡ record_of (take 48 (drop start rows.now)) }
{
    FlightRecord::decode(&rows[start..start + blackbox::RECORD_LEN]).unwrap_or_default()
}

#[tactic(auto, using(crate::proofs::Rows::five_records))]
fn records_of(rows: &[u8]) -> [FlightRecord; blackbox::RECORDS_PER_PAGE]
    requires { length rows.now ≡ 240 }
    ensures { result ≡ Page.records_in 5 rows.now }
{
    let mut records = [FlightRecord::default(); blackbox::RECORDS_PER_PAGE];
    for i in 0..blackbox::RECORDS_PER_PAGE {
        records[i] = record_at(rows, blackbox::RECORD_LEN * i);
    }
    records
}

// A page of the first `count` of five rows of 48 bytes; rows of another length are refused 17, more than five records 1.
pub fn encode_rows(
    flight_id: u32,
    page_sequence: u32,
    rows: &[u8],
    count: usize,
) -> Result<[u8; blackbox::FLASH_PAGE_LEN], Refusal>
    ensures { told result ≡ encoded_rows flight_id page_sequence rows.now count }
{
    if rows.len() != blackbox::PAGE_DATA_LEN {
        return Err(Refusal::BadLength);
    }
    blackbox::encode_page(flight_id, page_sequence, records_of(rows), count)
}
