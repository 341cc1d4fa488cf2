// The ledger and log sync.
ghost use Rattle.std.specs.Prelude.{◌≡◌};
ghost use Rattle.sync_ledger.specs.Ledger.{read_header, bit_location, is_synced, next_mark_step, step_told, after_step};
ghost use Rattle.log_sync.specs.Sync.{all_synced, ack_checked};
ghost use Rattle.reply.specs.Reply.{reply_of, row_reply, row_after, laid};
ghost use Rattle.reply_log.specs.LogRows.{flag_row, header_row, bit_row, step_row, step_of, recording_of};

use store::Flash;

pub fn stipeflute_read_header(
    capacity_bytes: u32,
    image: &[u8],
    faults: &[u8],
    answer: &mut [u8],
) -> u32
    ensures value { result ≡ row_reply 1 answer.old (laid header_row (read_header capacity_bytes image.now faults.now)) }
    ensures lent { answer.new ≡ row_after 1 answer.old (laid header_row (read_header capacity_bytes image.now faults.now)) }
{
    let flash = Flash {
        capacity_bytes,
        image,
        faults,
    };
    reply::lay(
        sync_ledger::read_header(&flash).map(reply_log::header_row),
        answer,
    )
}

pub fn stipeflute_bit_location(capacity_bytes: u32, flight_id: u32, answer: &mut [u8]) -> u32
    ensures value { result ≡ row_reply 5 answer.old (laid bit_row (bit_location capacity_bytes flight_id)) }
    ensures lent { answer.new ≡ row_after 5 answer.old (laid bit_row (bit_location capacity_bytes flight_id)) }
{
    let place = sync_ledger::bit_location(capacity_bytes, flight_id);
    reply::lay(place.map(reply_log::bit_row), answer)
}

pub fn stipeflute_is_synced(
    capacity_bytes: u32,
    image: &[u8],
    faults: &[u8],
    flight_id: u32,
    answer: &mut [u8],
) -> u32
    ensures value { result ≡ row_reply 1 answer.old (laid flag_row (is_synced capacity_bytes image.now faults.now flight_id)) }
    ensures lent { answer.new ≡ row_after 1 answer.old (laid flag_row (is_synced capacity_bytes image.now faults.now flight_id)) }
{
    let flash = Flash {
        capacity_bytes,
        image,
        faults,
    };
    let synced = sync_ledger::is_synced(&flash, flight_id);
    reply::lay(synced.map(reply_log::flag_row), answer)
}

pub fn stipeflute_next_mark_step(
    capacity_bytes: u32,
    image: &[u8],
    faults: &[u8],
    flight_id: u32,
    answer: &mut [u8],
) -> u32
    ensures value { result ≡ row_reply 6 answer.old (laid step_row (next_mark_step capacity_bytes image.now faults.now flight_id)) }
    ensures lent { answer.new ≡ row_after 6 answer.old (laid step_row (next_mark_step capacity_bytes image.now faults.now flight_id)) }
{
    let flash = Flash {
        capacity_bytes,
        image,
        faults,
    };
    let step = sync_ledger::next_mark_step(&flash, flight_id);
    reply::lay(step.map(reply_log::step_row), answer)
}

pub fn stipeflute_start_mark_step(
    capacity_bytes: u32,
    image: &mut [u8],
    kind: u8,
    address: u32,
    value: u8,
    keep: &[u8],
    reply: u8,
) -> u32
    ensures value { result ≡ reply_of (step_told capacity_bytes image.old (step_of kind address value) keep.now reply) }
    ensures lent { image.new ≡ after_step capacity_bytes image.old (step_of kind address value) keep.now reply }
{
    let step = reply_log::step_of(kind, address, value);
    reply::done(sync_ledger::start_mark_step(capacity_bytes, image, step, keep, reply))
}

pub fn stipeflute_all_synced(
    capacity_bytes: u32,
    image: &[u8],
    faults: &[u8],
    used_pages: u32,
    is_recording: u8,
    recording: u32,
    answer: &mut [u8],
) -> u32
    ensures value { result ≡ row_reply 1 answer.old (laid flag_row (all_synced capacity_bytes image.now faults.now used_pages (recording_of is_recording recording))) }
    ensures lent { answer.new ≡ row_after 1 answer.old (laid flag_row (all_synced capacity_bytes image.now faults.now used_pages (recording_of is_recording recording))) }
{
    let flash = Flash {
        capacity_bytes,
        image,
        faults,
    };
    let recorded = reply_log::recording_of(is_recording, recording);
    let all = log_sync::all_synced(&flash, used_pages, recorded);
    reply::lay(all.map(reply_log::flag_row), answer)
}

pub fn stipeflute_check_ack(
    capacity_bytes: u32,
    image: &[u8],
    faults: &[u8],
    used_pages: u32,
    is_recording: u8,
    recording: u32,
    flight_id: u32,
    pages: u32,
) -> u32
    ensures { result ≡ reply_of (ack_checked capacity_bytes image.now faults.now used_pages (recording_of is_recording recording) flight_id pages) }
{
    let flash = Flash {
        capacity_bytes,
        image,
        faults,
    };
    let recorded = reply_log::recording_of(is_recording, recording);
    reply::done(log_sync::check_ack(&flash, used_pages, recorded, flight_id, pages))
}
