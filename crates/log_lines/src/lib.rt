// The lines that `logs unsynced` answers and the texts that refuse an acknowledgement, after log_sync.rs, byte for byte. Every
// call takes any numbers.
#![tactic(auto)]

ghost use Rattle.std.specs.Prelude.{◌≡◌, ◌≤◌, length};
ghost use Rattle.laws.specs.Answers.{told};
ghost use Rattle.log_lines.specs.Lines.{count_line, flight_line, unsynced, ack_text};

use digits::Text;
use laws::Refusal;
use log_search::StoredFlight;

// Flights that one answer lists.
pub const MAX_LISTED_FLIGHTS: usize = 8;

// The bytes of a response frame that every line fits.
pub const LINE_LEN: usize = 56;

// The count line and eight flight lines.
pub const LINES_LEN: usize = 472;

// One line, with its line end: one response frame.
pub type Line = Text<LINE_LEN>;

// Lines one after another.
pub type Lines = Text<LINES_LEN>;

// The count line.
pub fn count_line(count: u32, more: bool) -> Line
    ensures { result ≡ count_line count more }
{
    let mut line = Text::new();
    line.push(b"OK unsynced n=");
    line.push_number(count);
    line.push(b" more=");
    line.push_number(u32::from(more));
    line.push(b"\r\n");
    line
}

// The line of one flight, which fits a frame.
pub fn flight_line(flight: StoredFlight) -> Line
    ensures { (result ≡ flight_line flight) × (length (flight_line flight) ≤ 56) }
{
    let mut line = Text::new();
    line.push(b"OK flight=");
    line.push_number(flight.flight_id);
    line.push(b" start=");
    line.push_number(flight.start_page);
    line.push(b" pages=");
    line.push_number(flight.pages);
    line.push(b"\r\n");
    line
}

// The whole answer to `logs unsynced`: the first `count` of eight flights; a count above eight is refused 17.
#[tactic(auto, unfolding(crate::specs::Lines::unsynced))]
pub fn unsynced_lines(
    flights: [StoredFlight; 8],
    count: usize,
    more: bool,
) -> Result<Lines, Refusal>
    ensures { told result ≡ unsynced flights count more }
{
    if MAX_LISTED_FLIGHTS < count {
        return Err(Refusal::BadLength);
    }
    let mut lines = Text::new();
    lines.push(count_line(count as u32, more).as_slice());
    for flight in &flights[..count] {
        lines.push(flight_line(*flight).as_slice());
    }
    Ok(lines)
}

#[tactic(auto, unfolding(crate::specs::Lines::ack_text))]
fn response(number: u8) -> &'static [u8]
    ensures { result.now ≡ ack_text number }
{
    match number {
        laws::NO_SUCH_FLIGHT => b"ERR no such flight\r\n",
        laws::RECORDING => b"ERR flight still recording\r\n",
        laws::LENGTH_CHANGED => b"ERR flight length changed; download it again\r\n",
        laws::LEDGER_FULL => b"ERR sync ledger full; erase the log over USB\r\n",
        _ => b"",
    }
}

// The text that answers a refused acknowledgement, by the refusal's number, which C hands in; none for any other number.
pub fn ack_response(number: u8) -> Line
    ensures { result ≡ ack_text number }
{
    let mut line = Text::new();
    line.push(response(number));
    line
}
