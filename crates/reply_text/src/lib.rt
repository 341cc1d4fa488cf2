// The rows of the unsynced list, its lines and the ERR texts, in which C calls lay their answers.
#![tactic(auto)]

ghost use Rattle.std.specs.Prelude.{◌≡◌, ◌+◌, ◌^◌, ◌<◌, ◌≤◌, map};
ghost use Rattle.laws.specs.Answers.{told};
ghost use Rattle.log_lines.specs.Lines.{ack_text};
ghost use Rattle.reply.specs.Reply.{laid};
ghost use Rattle.reply_log.specs.LogRows.{stored_row};
ghost use Rattle.reply_text.specs.TextRows.{list_row, text_row, stored_at, flights_in, lines_of};

use digits::Text;
use laws::Refusal;
use log_search::StoredFlight;
use log_sync::Unsynced;

fn stored_rows(flights: [StoredFlight; 8]) -> [[u8; 12]; 8]
    ensures { result ≡ map stored_row flights }
{
    flights.map(reply_log::stored_row)
}

// The count, whether a ninth exists, and eight entries of 12 bytes.
pub fn list_row(u: Unsynced) -> [u8; 98]
    ensures { result ≡ list_row u }
{
    let mut row = [0; 98];
    row[0] = (u.count % 256) as u8;
    row[1] = u8::from(u.more);
    row[2..].copy_from_slice(stored_rows(u.flights).as_flattened());
    row
}

// The four bytes of a text's length, and the text with 0x00 behind it.
#[tactic(auto, using(words::proofs::Numbers::bytes_written), unfolding(crate::specs::TextRows::text_row, words::specs::Words::le_bytes))]
fn text_row<const N: usize, const M: usize>(t: &Text<N>) -> [u8; M]
    requires long { N + 4 ≡ M }
    requires small { M < 2 ^ 63 }
    ensures { result ≡ text_row N t.now }
{
    let mut row = [0; M];
    let bytes = &mut row[..];
    bytes[..4].copy_from_slice(&t.len().to_le_bytes()[..4]);
    bytes[4..].copy_from_slice(&t.padded());
    row
}

// The text that answers a refused acknowledgement.
pub fn ack_response_row(number: u8) -> [u8; 60]
    ensures { result ≡ text_row 56 (ack_text number) }
{
    text_row(&log_lines::ack_response(number))
}

fn stored_at(bytes: &[u8], at: usize) -> StoredFlight
    requires { at + 12 ≤ 96 }
    ensures { result ≡ stored_at bytes.now at }
{
    StoredFlight {
        flight_id: words::number_at(bytes, at),
        start_page: words::number_at(bytes, at + 4),
        pages: words::number_at(bytes, at + 8),
    }
}

#[tactic(auto, using(crate::proofs::Rows::eight_flights))]
fn flights_in(bytes: &[u8]) -> [StoredFlight; 8]
    ensures { result ≡ flights_in bytes.now }
{
    let mut flights = [stored_at(bytes, 0); 8];
    for i in 0..8 {
        flights[i] = stored_at(bytes, 12 * i);
    }
    flights
}

// The whole answer to `logs unsynced` of eight entries of 12 bytes.
#[tactic(auto, using(crate::proofs::Rows::lines_given), unfolding(crate::specs::TextRows::lines_of))]
pub fn unsynced_lines_row(flights: &[u8], count: u32, more: u8) -> Result<[u8; 476], Refusal>
    ensures { told result ≡ laid (text_row 472) (lines_of flights.now count more) }
{
    if flights.len() != 96 {
        return Err(Refusal::BadLength);
    }
    let lines = log_lines::unsynced_lines(flights_in(flights), count as usize, more != 0)?;
    Ok(text_row(&lines))
}
