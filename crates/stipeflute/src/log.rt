// The scan and the search.
ghost use Rattle.std.specs.Prelude.{◌≡◌};
ghost use Rattle.records.specs.Pages.{flight_of_page};
ghost use Rattle.records.specs.Scan.{scanned};
ghost use Rattle.records.specs.Explain.{explained};
ghost use Rattle.log_search.specs.Search.{found_flight, older_flight};
ghost use Rattle.reply.specs.Reply.{row_reply, row_after, laid};
ghost use Rattle.reply_log.specs.LogRows.{scan_row, reason_row, flight_row, found_row};

use store::Flash;

pub fn stipeflute_scan_log(
    capacity_bytes: u32,
    image: &[u8],
    faults: &[u8],
    answer: &mut [u8],
) -> u32
    ensures value { result ≡ row_reply 9 answer.old (laid scan_row (scanned capacity_bytes image.now faults.now)) }
    ensures lent { answer.new ≡ row_after 9 answer.old (laid scan_row (scanned capacity_bytes image.now faults.now)) }
{
    let flash = Flash {
        capacity_bytes,
        image,
        faults,
    };
    reply::lay(records::scan_log(&flash).map(reply_log::scan_row), answer)
}

pub fn stipeflute_explain(
    capacity_bytes: u32,
    image: &[u8],
    faults: &[u8],
    answer: &mut [u8],
) -> u32
    ensures value { result ≡ row_reply 11 answer.old (laid reason_row (explained capacity_bytes image.now faults.now)) }
    ensures lent { answer.new ≡ row_after 11 answer.old (laid reason_row (explained capacity_bytes image.now faults.now)) }
{
    let flash = Flash {
        capacity_bytes,
        image,
        faults,
    };
    reply::lay(records::explain(&flash).map(reply_log::reason_row), answer)
}

pub fn stipeflute_page_flight_id(
    capacity_bytes: u32,
    image: &[u8],
    faults: &[u8],
    index: u32,
    answer: &mut [u8],
) -> u32
    ensures value { result ≡ row_reply 5 answer.old (laid flight_row (flight_of_page capacity_bytes image.now faults.now index)) }
    ensures lent { answer.new ≡ row_after 5 answer.old (laid flight_row (flight_of_page capacity_bytes image.now faults.now index)) }
{
    let flash = Flash {
        capacity_bytes,
        image,
        faults,
    };
    let flight = records::page_flight_id(&flash, index);
    reply::lay(flight.map(reply_log::flight_row), answer)
}

pub fn stipeflute_find_flight(
    capacity_bytes: u32,
    image: &[u8],
    faults: &[u8],
    used_pages: u32,
    flight_id: u32,
    answer: &mut [u8],
) -> u32
    ensures value { result ≡ row_reply 13 answer.old (laid found_row (found_flight capacity_bytes image.now faults.now used_pages flight_id)) }
    ensures lent { answer.new ≡ row_after 13 answer.old (laid found_row (found_flight capacity_bytes image.now faults.now used_pages flight_id)) }
{
    let flash = Flash {
        capacity_bytes,
        image,
        faults,
    };
    let found = log_search::find_flight(&flash, used_pages, flight_id);
    reply::lay(found.map(reply_log::found_row), answer)
}

pub fn stipeflute_older_flight(
    capacity_bytes: u32,
    image: &[u8],
    faults: &[u8],
    end: u32,
    answer: &mut [u8],
) -> u32
    ensures value { result ≡ row_reply 13 answer.old (laid found_row (older_flight capacity_bytes image.now faults.now end)) }
    ensures lent { answer.new ≡ row_after 13 answer.old (laid found_row (older_flight capacity_bytes image.now faults.now end)) }
{
    let flash = Flash {
        capacity_bytes,
        image,
        faults,
    };
    let found = log_search::older_flight(&flash, end);
    reply::lay(found.map(reply_log::found_row), answer)
}
