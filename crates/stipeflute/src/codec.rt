// Checksum, records and pages.
ghost use Rattle.std.specs.Prelude.{◌≡◌, [], ◌∷◌};
ghost use Rattle.laws.specs.Answers.{gives};
ghost use Rattle.crc32.specs.Crc.{crc32_of};
ghost use Rattle.blackbox.specs.Record.{flight_record, record_bytes, record_decoded};
ghost use Rattle.blackbox.specs.Page.{decoded, record_from_page};
ghost use Rattle.records.specs.Scratch.{scratch_page};
ghost use Rattle.reply.specs.Reply.{row_reply, row_after, laid, number_row};
ghost use Rattle.reply_codec.specs.CodecRows.{metadata_row, as_is, encoded_rows};

use blackbox::FlightRecord;

pub fn stipeflute_crc32(bytes: &[u8], answer: &mut [u8]) -> u32
    ensures value { result ≡ row_reply 4 answer.old (gives (number_row (crc32_of bytes.now))) }
    ensures lent { answer.new ≡ row_after 4 answer.old (gives (number_row (crc32_of bytes.now))) }
{
    reply::lay(Ok(words::u32_bytes(crc32::crc32(bytes))), answer)
}

pub fn stipeflute_record_encode(
    timestamp_us: u32,
    control_sequence: u32,
    imu_sequence: u32,
    flags: u16,
    raw_0: i16,
    raw_1: i16,
    raw_2: i16,
    filtered_0: i16,
    filtered_1: i16,
    filtered_2: i16,
    command_0: i16,
    command_1: i16,
    command_2: i16,
    pid_0: i16,
    pid_1: i16,
    pid_2: i16,
    throttle: u16,
    motors_0: u16,
    motors_1: u16,
    motors_2: u16,
    motors_3: u16,
    answer: &mut [u8],
) -> u32
    ensures value { result ≡ row_reply 48 answer.old (gives (record_bytes (flight_record timestamp_us control_sequence imu_sequence flags (raw_0 ∷ raw_1 ∷ raw_2 ∷ []) (filtered_0 ∷ filtered_1 ∷ filtered_2 ∷ []) (command_0 ∷ command_1 ∷ command_2 ∷ []) (pid_0 ∷ pid_1 ∷ pid_2 ∷ []) throttle (motors_0 ∷ motors_1 ∷ motors_2 ∷ motors_3 ∷ [])))) }
    ensures lent { answer.new ≡ row_after 48 answer.old (gives (record_bytes (flight_record timestamp_us control_sequence imu_sequence flags (raw_0 ∷ raw_1 ∷ raw_2 ∷ []) (filtered_0 ∷ filtered_1 ∷ filtered_2 ∷ []) (command_0 ∷ command_1 ∷ command_2 ∷ []) (pid_0 ∷ pid_1 ∷ pid_2 ∷ []) throttle (motors_0 ∷ motors_1 ∷ motors_2 ∷ motors_3 ∷ [])))) }
{
    let record = FlightRecord {
        timestamp_us,
        control_sequence,
        imu_sequence,
        flags,
        raw_gyro_dps10: [raw_0, raw_1, raw_2],
        filtered_gyro_dps10: [filtered_0, filtered_1, filtered_2],
        command_dps10: [command_0, command_1, command_2],
        pid: [pid_0, pid_1, pid_2],
        throttle,
        motors: [motors_0, motors_1, motors_2, motors_3],
    };
    reply::lay(Ok(record.encode()), answer)
}

pub fn stipeflute_record_decode(input: &[u8], answer: &mut [u8]) -> u32
    ensures value { result ≡ row_reply 48 answer.old (laid record_bytes (record_decoded input.now)) }
    ensures lent { answer.new ≡ row_after 48 answer.old (laid record_bytes (record_decoded input.now)) }
{
    reply::lay(
        FlightRecord::decode(input).map(FlightRecord::encode),
        answer,
    )
}

pub fn stipeflute_encode_page(
    flight_id: u32,
    page_sequence: u32,
    rows: &[u8],
    count: u32,
    answer: &mut [u8],
) -> u32
    ensures value { result ≡ row_reply 256 answer.old (laid as_is (encoded_rows flight_id page_sequence rows.now count)) }
    ensures lent { answer.new ≡ row_after 256 answer.old (laid as_is (encoded_rows flight_id page_sequence rows.now count)) }
{
    let page = reply_codec::encode_rows(flight_id, page_sequence, rows, count as usize);
    reply::lay(page, answer)
}

pub fn stipeflute_decode_page(page: &[u8], answer: &mut [u8]) -> u32
    ensures value { result ≡ row_reply 9 answer.old (laid metadata_row (decoded page.now)) }
    ensures lent { answer.new ≡ row_after 9 answer.old (laid metadata_row (decoded page.now)) }
{
    reply::lay(
        blackbox::decode_page(page).map(reply_codec::metadata_row),
        answer,
    )
}

pub fn stipeflute_record_from_page(page: &[u8], index: u32, answer: &mut [u8]) -> u32
    ensures value { result ≡ row_reply 48 answer.old (laid record_bytes (record_from_page page.now index)) }
    ensures lent { answer.new ≡ row_after 48 answer.old (laid record_bytes (record_from_page page.now index)) }
{
    let record = blackbox::record_from_page(page, index as usize);
    reply::lay(record.map(FlightRecord::encode), answer)
}

pub fn stipeflute_scratch_test_page(answer: &mut [u8]) -> u32
    ensures value { result ≡ row_reply 256 answer.old (gives scratch_page) }
    ensures lent { answer.new ≡ row_after 256 answer.old (gives scratch_page) }
{
    reply::lay(Ok(records::scratch_test_page()), answer)
}
