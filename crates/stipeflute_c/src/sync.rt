// The ledger and log sync.
ghost use Rattle.std.specs.Prelude.{◌≡◌};
ghost use Rattle.sync_ledger.specs.Ledger.{read_header, bit_location, is_synced, next_mark_step, step_told, after_step};
ghost use Rattle.log_sync.specs.Sync.{all_synced, ack_checked};
ghost use Rattle.reply.specs.Reply.{reply_of, row_reply, row_after, laid};
ghost use Rattle.reply_log.specs.LogRows.{flag_row, header_row, bit_row, step_row, step_of, recording_of};

use stipeflute::sync;

#[unsafe(no_mangle)]
pub extern "C" fn stipeflute_read_header(
    capacity_bytes: u32,
    image: &[u8],
    faults: &[u8],
    answer: &mut [u8],
) -> u32
    ensures value { result ≡ row_reply 1 answer.old (laid header_row (read_header capacity_bytes image.now faults.now)) }
    ensures lent { answer.new ≡ row_after 1 answer.old (laid header_row (read_header capacity_bytes image.now faults.now)) }
{
    sync::stipeflute_read_header(capacity_bytes, image, faults, answer)
}

#[unsafe(no_mangle)]
pub extern "C" fn stipeflute_bit_location(
    capacity_bytes: u32,
    flight_id: u32,
    answer: &mut [u8],
) -> u32
    ensures value { result ≡ row_reply 5 answer.old (laid bit_row (bit_location capacity_bytes flight_id)) }
    ensures lent { answer.new ≡ row_after 5 answer.old (laid bit_row (bit_location capacity_bytes flight_id)) }
{
    sync::stipeflute_bit_location(capacity_bytes, flight_id, answer)
}

#[unsafe(no_mangle)]
pub extern "C" fn stipeflute_is_synced(
    capacity_bytes: u32,
    image: &[u8],
    faults: &[u8],
    flight_id: u32,
    answer: &mut [u8],
) -> u32
    ensures value { result ≡ row_reply 1 answer.old (laid flag_row (is_synced capacity_bytes image.now faults.now flight_id)) }
    ensures lent { answer.new ≡ row_after 1 answer.old (laid flag_row (is_synced capacity_bytes image.now faults.now flight_id)) }
{
    sync::stipeflute_is_synced(capacity_bytes, image, faults, flight_id, answer)
}

#[unsafe(no_mangle)]
pub extern "C" fn stipeflute_next_mark_step(
    capacity_bytes: u32,
    image: &[u8],
    faults: &[u8],
    flight_id: u32,
    answer: &mut [u8],
) -> u32
    ensures value { result ≡ row_reply 6 answer.old (laid step_row (next_mark_step capacity_bytes image.now faults.now flight_id)) }
    ensures lent { answer.new ≡ row_after 6 answer.old (laid step_row (next_mark_step capacity_bytes image.now faults.now flight_id)) }
{
    sync::stipeflute_next_mark_step(capacity_bytes, image, faults, flight_id, answer)
}

#[unsafe(no_mangle)]
pub extern "C" fn stipeflute_start_mark_step(
    capacity_bytes: u32,
    image: &mut [u8],
    kind: u8,
    address: u32,
    value: u8,
    keep: &[u8],
    reply: u8,
) -> u32
    ensures value { result ≡ reply_of (step_told capacity_bytes image.old (step_of kind address value) keep.now reply) }
    ensures lent { image.new ≡ after_step capacity_bytes image.old (step_of kind address value) keep.now reply }
{
    sync::stipeflute_start_mark_step(capacity_bytes, image, kind, address, value, keep, reply)
}

#[unsafe(no_mangle)]
pub extern "C" fn stipeflute_all_synced(
    capacity_bytes: u32,
    image: &[u8],
    faults: &[u8],
    used_pages: u32,
    is_recording: u8,
    recording: u32,
    answer: &mut [u8],
) -> u32
    ensures value { result ≡ row_reply 1 answer.old (laid flag_row (all_synced capacity_bytes image.now faults.now used_pages (recording_of is_recording recording))) }
    ensures lent { answer.new ≡ row_after 1 answer.old (laid flag_row (all_synced capacity_bytes image.now faults.now used_pages (recording_of is_recording recording))) }
{
    sync::stipeflute_all_synced(
        capacity_bytes,
        image,
        faults,
        used_pages,
        is_recording,
        recording,
        answer,
    )
}

#[unsafe(no_mangle)]
pub extern "C" fn stipeflute_check_ack(
    capacity_bytes: u32,
    image: &[u8],
    faults: &[u8],
    used_pages: u32,
    is_recording: u8,
    recording: u32,
    flight_id: u32,
    pages: u32,
) -> u32
    ensures { result ≡ reply_of (ack_checked capacity_bytes image.now faults.now used_pages (recording_of is_recording recording) flight_id pages) }
{
    sync::stipeflute_check_ack(
        capacity_bytes,
        image,
        faults,
        used_pages,
        is_recording,
        recording,
        flight_id,
        pages,
    )
}
