// Replays the lists of oracle/src/lists.rs from standard input by the calls of the archive and prints an answer to each line that asks; the file
// stdout has what the Rust answered. A line is a word and decimal numbers; oracle/src/lists.rs says what each means. The writer's lines are rows of a script that
// the rig plays from the image on which it began.
#![tactic(auto)]

ghost use Rattle.std.specs.Prelude.{◌≤◌};

use stipeflute::{codec, flash, log, sync, text, writer};

// The longest image, one fault byte for each 256 bytes of it, and a script of 455 rows with what is told of them.
const IMAGE_LEN: usize = 61440;

const FAULTS_LEN: usize = 240;

const ROW_LEN: usize = 288;

const SCRIPT_LEN: usize = 131040;

const TOLD_ROW_LEN: usize = 40;

const TOLD_LEN: usize = 18200;

// ---- a line

// A number with one digit more; digits past the tenth are left out.
fn with_digit(value: u64, digit: u8) -> u64 {
    if 429496729 < value || digit < b'0' {
        return value;
    }
    value * 10 + u64::from(digit - b'0')
}

fn number_of(digits: &[u8]) -> u32 {
    let value = digits
        .iter()
        .fold(0, |value, digit| with_digit(value, *digit));
    (value % 4294967296) as u32
}

// A line's word, and the numbers behind it, 0 from where there are no more.
#[derive(Clone, Copy)]
struct Line<'a> {
    word: &'a [u8],
    numbers: [u32; 5],
}

fn parse(line: &[u8]) -> Line<'_> {
    let mut parts = line.split(|b| *b == b' ');
    let word = parts.next().unwrap_or(line);
    let mut numbers = [0; 5];
    for (number, digits) in numbers.iter_mut().zip(parts) {
        *number = number_of(digits);
    }
    Line { word, numbers }
}

fn low_byte(n: u32) -> u8 {
    (n % 256) as u8
}

// ---- what a list builds of

// Bytes of which each is a step above the one before it, modulo 256.
fn steps_from<const N: usize>(first: u8, step: u8) -> [u8; N] {
    let mut bytes = [0; N];
    let mut value = first;
    for byte in bytes.iter_mut() {
        *byte = value;
        value = value.wrapping_add(step);
    }
    bytes
}

// Byte j of record number n is (31 n + 7 j + n j) mod 256.
fn record_bytes(n: u32) -> [u8; 48] {
    let low = low_byte(n);
    steps_from(low.wrapping_mul(31), low.wrapping_add(7))
}

// Byte i of mask number m is m (i + 1) mod 256.
fn mask_number(m: u32) -> [u8; 256] {
    let low = low_byte(m);
    steps_from(low, low)
}

// A whole page, whose records are numbered from five times its index on.
fn put_page(image: &mut [u8], page: u32, flight: u32, sequence: u32, count: u32) {
    let first = page % 256 * 5;
    let mut rows = [0; 240];
    for i in 0..5u32 {
        words::put_bytes(&mut rows, (i as usize) * 48, &record_bytes(first + i));
    }
    let mut encoded = [0; 256];
    codec::stipeflute_encode_page(flight, sequence, &rows, count, &mut encoded);
    words::put_bytes(image, layout::page_address(page), &encoded);
}

// So many bytes of a value from a place on; what lies past the end is left out.
fn fill(bytes: &mut [u8], at: u32, count: u32, value: u8) {
    for byte in bytes.iter_mut().skip(at as usize).take(count as usize) {
        *byte = value;
    }
}

fn flip(bytes: &mut [u8], at: u32, bit: u32) {
    if let Some(byte) = bytes.get_mut(at as usize) {
        *byte ^= 1 << (bit % 8);
    }
}

// ---- what is printed

fn say_number(n: u32) {
    io::print_decimal(1, u64::from(n));
    io::write_all(1, b"\n");
}

// What a call answers: the reply 0 and the row in hexadecimal, or the reply alone where it is refused.
fn say(reply: u32, row: &[u8]) {
    if reply != 0 {
        say_number(reply);
        return;
    }
    io::write_all(1, b"0 ");
    for byte in row {
        io::print_hex(1, u64::from(*byte), 2);
    }
    io::write_all(1, b"\n");
}

// What a call answers that lays its answer in this row.
fn tell<F: FnOnce(&mut [u8]) -> u32>(row: &mut [u8], call: F)
    requires { F.IsAlwaysCallable call }
{
    let reply = call(row);
    say(reply, row);
}

// The same of a text behind its length, without the zeros behind it.
fn tell_text<F: FnOnce(&mut [u8]) -> u32>(row: &mut [u8], call: F)
    requires { F.IsAlwaysCallable call }
{
    let reply = call(row);
    let len = words::number_at::<u32>(row, 0) as usize;
    if let Some(text) = row.get(..len + 4) {
        say(reply, text);
    }
}

// The eight entries of a `lines` line: entry i is flight F + i, start (i + 1) F, i pages.
fn entries(f: u32) -> [u8; 96] {
    let mut rows = [0; 96];
    let mut start = f;
    for i in 0..8u32 {
        let at = (i as usize) * 12;
        words::put(&mut rows, at, f.wrapping_add(i));
        words::put(&mut rows, at + 4, start);
        words::put(&mut rows, at + 8, i);
        start = start.wrapping_add(f);
    }
    rows
}

// ---- lines that ask

// Calls that need no image; whether the line was one.
fn calls(line: &Line<'_>) -> bool {
    let [c, i, f, ..] = line.numbers;
    match line.word {
        b"layout" => tell(&mut [0; 20], |row| flash::stipeflute_storage_layout(c, row)),
        b"sectors" => tell(
            &mut [0; 4],
            |row| flash::stipeflute_log_sector_count(c, row),
        ),
        b"ledger" => tell(
            &mut [0; 4],
            |row| flash::stipeflute_sync_ledger_address(c, row),
        ),
        b"address" => tell(
            &mut [0; 5],
            |row| flash::stipeflute_log_page_address(c, i, row),
        ),
        b"erase" => tell(
            &mut [0; 5],
            |row| flash::stipeflute_log_erase_sector_address(c, i, row),
        ),
        b"place" => tell(&mut [0; 5], |row| sync::stipeflute_bit_location(c, i, row)),
        b"scratch" => tell(
            &mut [0; 256],
            |row| codec::stipeflute_scratch_test_page(row),
        ),
        b"err" => tell_text(
            &mut [0; 60],
            |row| text::stipeflute_ack_response(low_byte(c), row),
        ),
        b"lines" => {
            let flights = entries(f);
            let more = u8::from(i != 0);
            tell_text(
                &mut [0; 476],
                |row| text::stipeflute_unsynced_lines(&flights, c, more, row),
            )
        }
        _ => return false,
    }
    true
}

// Calls that read an image; whether the line was one.
fn asks(line: &Line<'_>, c: u32, image: &[u8], faults: &[u8]) -> bool {
    let [n, second, third, fourth, fifth] = line.numbers;
    // Log sync's lines have the used pages first, then whether a flight is recorded and which.
    let is = u8::from(second != 0);
    let page = records::page_part(image, n);
    match line.word {
        b"scan" => tell(
            &mut [0; 9],
            |row| log::stipeflute_scan_log(c, image, faults, row),
        ),
        b"explain" => tell(
            &mut [0; 11],
            |row| log::stipeflute_explain(c, image, faults, row),
        ),
        b"flight" => tell(
            &mut [0; 5],
            |row| log::stipeflute_page_flight_id(c, image, faults, n, row),
        ),
        b"find" => tell(
            &mut [0; 13],
            |row| log::stipeflute_find_flight(c, image, faults, n, second, row),
        ),
        b"older" => tell(
            &mut [0; 13],
            |row| log::stipeflute_older_flight(c, image, faults, n, row),
        ),
        b"page" => tell(&mut [0; 9], |row| codec::stipeflute_decode_page(page, row)),
        b"record" => tell(
            &mut [0; 48],
            |row| codec::stipeflute_record_from_page(page, second, row),
        ),
        b"crc" => {
            let at = n as usize;
            if let Some(bytes) = image.get(at..at + second as usize) {
                tell(&mut [0; 4], |row| codec::stipeflute_crc32(bytes, row));
            }
        }
        b"header" => tell(
            &mut [0; 1],
            |row| sync::stipeflute_read_header(c, image, faults, row),
        ),
        b"bit" => tell(&mut [0; 5], |row| sync::stipeflute_bit_location(c, n, row)),
        b"synced" => tell(
            &mut [0; 1],
            |row| sync::stipeflute_is_synced(c, image, faults, n, row),
        ),
        b"plan" => tell(
            &mut [0; 6],
            |row| sync::stipeflute_next_mark_step(c, image, faults, n, row),
        ),
        b"list" => tell(
            &mut [0; 98],
            |row| text::stipeflute_unsynced_flights(c, image, faults, n, is, third, row),
        ),
        b"all" => tell(
            &mut [0; 1],
            |row| sync::stipeflute_all_synced(c, image, faults, n, is, third, row),
        ),
        b"ack" => say_number(sync::stipeflute_check_ack(
            c, image, faults, n, is, third, fourth, fifth,
        )),
        _ => return false,
    }
    true
}

// ---- lines that build an image or alter it; whether the line was one

fn builds(line: &Line<'_>, c: u32, image: &mut [u8]) -> bool {
    let [n, second, third, fourth, fifth] = line.numbers;
    match line.word {
        b"pages" => {
            for i in 0..second {
                put_page(image, n.wrapping_add(i), third, i, fourth);
            }
        }
        b"fill" => fill(image, n, second, low_byte(third)),
        b"flip" => flip(image, n, second),
        b"step" => say_number(sync::stipeflute_start_mark_step(
            c,
            image,
            low_byte(n),
            second,
            low_byte(third),
            &mask_number(fourth),
            low_byte(fifth),
        )),
        _ => return false,
    }
    true
}

fn sets_fault(line: &Line<'_>, faults: &mut [u8]) -> bool {
    if line.word != b"fault".as_slice() {
        return false;
    }
    fill(faults, line.numbers[0], 1, low_byte(line.numbers[1]));
    true
}

// ---- lines that play the writer

#[derive(Clone, Copy)]
enum Operation {
    Offer,
    Drain,
    Write,
    PowerOn,
    Recover,
    Reset,
    Flush,
}

// A row of a script. Where it has no numbers, none are written.
#[derive(Clone, Copy)]
struct Row<'a> {
    operation: Operation,
    next: u8,
    armed: bool,
    disarmed: bool,
    set: bool,
    numbers: Option<(u32, u32)>,
    payload: &'a [u8],
}

fn plain(operation: Operation) -> Row<'static> {
    Row {
        operation,
        next: 0,
        armed: false,
        disarmed: false,
        set: false,
        numbers: None,
        payload: &[],
    }
}

// The rows so far; those that don't fit are counted alone.
#[derive(Drop)]
struct Script {
    bytes: [u8; SCRIPT_LEN],
    rows: u16,
}

impl Script {
    fn push(&mut self, row: Row<'_>) {
        let at = usize::from(self.rows) * ROW_LEN;
        let head = [
            32,
            1,
            row.operation as u8,
            row.next,
            u8::from(row.armed),
            u8::from(row.disarmed),
            u8::from(row.set),
            0,
        ];
        let bytes: &mut [u8] = &mut self.bytes;
        words::put_bytes(bytes, at, &head);
        if let Some((first, second)) = row.numbers {
            words::put(bytes, at + 8, first);
            words::put(bytes, at + 12, second);
        }
        words::put_bytes(bytes, at + 32, row.payload);
        self.rows = self.rows.wrapping_add(1);
    }

    // Records numbered from n on, so many and in such steps.
    fn offer(&mut self, n: u32, count: u32, step: u32) {
        let mut number = n;
        for _ in 0..count {
            self.push(Row {
                payload: &record_bytes(number),
                ..plain(Operation::Offer)
            });
            number = number.wrapping_add(step);
        }
    }

    // The rows of a line; a line that isn't the writer's adds none.
    fn add(&mut self, line: &Line<'_>) {
        let [n, second, third, fourth, fifth] = line.numbers;
        match line.word {
            b"offers" => self.offer(n, second % 64, third),
            b"power" => self.push(plain(Operation::PowerOn)),
            b"drain" => self.push(Row {
                next: low_byte(fourth),
                armed: n != 0,
                disarmed: second != 0,
                numbers: Some((16, third)),
                payload: &mask_number(fifth),
                ..plain(Operation::Drain)
            }),
            b"write" => self.push(Row {
                next: low_byte(second),
                numbers: Some((0, n)),
                payload: &mask_number(third),
                ..plain(Operation::Write)
            }),
            b"recover" => self.push(Row {
                set: third != 0,
                numbers: Some((n, second)),
                ..plain(Operation::Recover)
            }),
            b"reset" => self.push(plain(Operation::Reset)),
            b"flush" => self.push(Row {
                set: n != 0,
                numbers: Some((second, 0)),
                ..plain(Operation::Flush)
            }),
            _ => {}
        }
    }
}

fn say_field(n: u32) {
    io::write_all(1, b" ");
    io::print_decimal(1, u64::from(n));
}

// What is told of a row: six bytes and seven numbers, of which the last has 64 bits; a list's clocks have 32.
fn say_told(told: &[u8; TOLD_ROW_LEN]) {
    io::print_decimal(1, u64::from(told[0]));
    for byte in &told[1..6] {
        say_field(u32::from(*byte));
    }
    for number in told[8..36].chunks_exact(4) {
        say_field(words::number_at(number, 0));
    }
    io::write_all(1, b"\n");
}

// A script played on an image, and what its last row tells.
fn play(c: u32, image: &mut [u8], script: &[u8], told: &mut [u8]) {
    let reply = writer::stipeflute_rig(c, image, script, told);
    if reply != 0 {
        say_number(reply);
        return;
    }
    if let Some(last) = told.last_chunk::<TOLD_ROW_LEN>() {
        say_told(last);
    }
}

// ---- the list

// What goes on from line to line: a flash, and the script and the image on which it began.
#[derive(Drop)]
struct Desk {
    capacity: u32,
    image: [u8; IMAGE_LEN],
    faults: [u8; FAULTS_LEN],
    began: [u8; IMAGE_LEN],
    script: Script,
}

impl Desk {
    // A line that may be the writer's: a script begins on the image as it stands, and is played from there.
    fn plays(&mut self, line: &Line<'_>, len: usize)
        requires { len ≤ 61440 }
    {
        let Desk {
            capacity,
            image,
            began,
            script,
            ..
        } = self;
        if script.rows == 0 {
            script.bytes.fill(0);
            began.copy_from_slice(image);
        }
        script.add(line);
        image.copy_from_slice(began);
        let rows = usize::from(script.rows);
        if SCRIPT_LEN / ROW_LEN < rows {
            return;
        }
        let mut told = [0; TOLD_LEN];
        play(
            *capacity,
            &mut image[..len],
            &script.bytes[..rows * ROW_LEN],
            &mut told[..rows * TOLD_ROW_LEN],
        );
    }

    fn one_line(&mut self, line: &Line<'_>) {
        if line.word == b"image".as_slice() {
            self.image.fill(0xff);
            self.faults.fill(0);
            self.capacity = line.numbers[0];
            self.script.rows = 0;
            return;
        }
        let capacity = self.capacity;
        let len = capacity as usize;
        if IMAGE_LEN < len {
            return;
        }
        let pages = len / 256;
        if calls(line) || asks(line, capacity, &self.image[..len], &self.faults[..pages]) {
            return;
        }
        let built = builds(line, capacity, &mut self.image[..len]);
        if built || sets_fault(line, &mut self.faults[..pages]) {
            self.script.rows = 0;
            return;
        }
        self.plays(line, len);
    }
}

fn main() {
    let mut list = io::large_buffer();
    let len = io::read_full(0, &mut list);
    let mut desk = Desk {
        capacity: 20480,
        image: [0xff; IMAGE_LEN],
        faults: [0; FAULTS_LEN],
        began: [0xff; IMAGE_LEN],
        script: Script {
            bytes: [0; SCRIPT_LEN],
            rows: 0,
        },
    };
    if let Some(list) = list.get(..len) {
        // A line ends by its line feed; what follows the last one is none.
        for line in list.split_inclusive(|b| *b == b'\n') {
            if let [line @ .., b'\n'] = line {
                desk.one_line(&parse(line));
            }
        }
    }
}
