// The unsynced list, its lines and the ERR texts.
ghost use Rattle.std.specs.Prelude.{◌≡◌};
ghost use Rattle.laws.specs.Answers.{gives};
ghost use Rattle.log_sync.specs.Sync.{unsynced_flights};
ghost use Rattle.log_lines.specs.Lines.{ack_text};
ghost use Rattle.reply.specs.Reply.{row_reply, row_after, laid};
ghost use Rattle.reply_log.specs.LogRows.{recording_of};
ghost use Rattle.reply_text.specs.TextRows.{list_row, text_row, lines_of};

use stipeflute::text;

#[unsafe(no_mangle)]
pub extern "C" fn stipeflute_unsynced_flights(
    capacity_bytes: u32,
    image: &[u8],
    faults: &[u8],
    used_pages: u32,
    is_recording: u8,
    recording: u32,
    answer: &mut [u8],
) -> u32
    ensures value { result ≡ row_reply 98 answer.old (laid list_row (unsynced_flights capacity_bytes image.now faults.now used_pages (recording_of is_recording recording))) }
    ensures lent { answer.new ≡ row_after 98 answer.old (laid list_row (unsynced_flights capacity_bytes image.now faults.now used_pages (recording_of is_recording recording))) }
{
    text::stipeflute_unsynced_flights(
        capacity_bytes,
        image,
        faults,
        used_pages,
        is_recording,
        recording,
        answer,
    )
}

#[unsafe(no_mangle)]
pub extern "C" fn stipeflute_unsynced_lines(
    flights: &[u8],
    count: u32,
    more: u8,
    answer: &mut [u8],
) -> u32
    ensures value { result ≡ row_reply 476 answer.old (laid (text_row 472) (lines_of flights.now count more)) }
    ensures lent { answer.new ≡ row_after 476 answer.old (laid (text_row 472) (lines_of flights.now count more)) }
{
    text::stipeflute_unsynced_lines(flights, count, more, answer)
}

#[unsafe(no_mangle)]
pub extern "C" fn stipeflute_ack_response(number: u8, answer: &mut [u8]) -> u32
    ensures value { result ≡ row_reply 60 answer.old (gives (text_row 56 (ack_text number))) }
    ensures lent { answer.new ≡ row_after 60 answer.old (gives (text_row 56 (ack_text number))) }
{
    text::stipeflute_ack_response(number, answer)
}
