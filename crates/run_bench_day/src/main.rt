// A bench day on the rig: a flight with a failed program, a brown-out in mid-page, a second one before anything is written, and a flight
// after it. One script plays it on an erased log of 20,480 bytes; then each call that the writer or the scan answered is printed, the
// pages that are on flash, and for each power-on the records that were logged and those that are missing. Records are numbered from 1.
// What standard output does not take is lost, and no status tells it.
#![tactic(auto)]

use blackbox::{FlightRecord, RECORD_LEN};
use log_writer::{DrainOrder, NextProgram};

const CAPACITY: u32 = 20480;

const PAGES: u32 = 16;

// A call of the day. The crate script reads rows and hands out none, so this program lays its own.
#[derive(Clone, Copy)]
enum Call {
    PowerOn,
    // The armed record of a number.
    Offer(u32),
    Drain(DrainOrder),
    WritePending { succeed: u32, next: NextProgram },
}

use Call::{Drain, Offer, PowerOn, WritePending};

// A pass of an armed craft that no program stops.
const PASS: DrainOrder = DrainOrder {
    limit: 16,
    armed: true,
    record_while_disarmed: false,
    succeed: 9,
    next: NextProgram::Busy,
};

const LAST_PAGE: Call = WritePending {
    succeed: 1,
    next: NextProgram::Busy,
};

const DAY: [Call; 45] = [
    // Flight 1: twelve records; its last page fails once and is then written.
    PowerOn,
    Offer(1),
    Offer(2),
    Offer(3),
    Offer(4),
    Offer(5),
    Offer(6),
    Offer(7),
    Offer(8),
    Offer(9),
    Offer(10),
    Offer(11),
    Offer(12),
    Drain(PASS),
    Drain(DrainOrder {
        armed: false,
        ..PASS
    }),
    WritePending {
        succeed: 0,
        next: NextProgram::Fault,
    },
    LAST_PAGE,
    // Flight 2: ten records are logged.
    PowerOn,
    Offer(13),
    Offer(14),
    Offer(15),
    Offer(16),
    Offer(17),
    Offer(18),
    Offer(19),
    Offer(20),
    Drain(DrainOrder { limit: 8, ..PASS }),
    Offer(21),
    Offer(22),
    Drain(DrainOrder { limit: 2, ..PASS }),
    // The power goes while their second page is programmed, with one more in the queue.
    Offer(23),
    Drain(DrainOrder {
        succeed: 0,
        next: NextProgram::Cut,
        ..PASS
    }),
    // Three records are logged, and the power goes before their page is full. Then a flight of five.
    PowerOn,
    Offer(24),
    Offer(25),
    Offer(26),
    Drain(PASS),
    PowerOn,
    Offer(27),
    Offer(28),
    Offer(29),
    Offer(30),
    Offer(31),
    Drain(DrainOrder { limit: 5, ..PASS }),
    LAST_PAGE,
];

impl Call {
    // The call as a row of a script. A program that fails or is cut leaves the second half of the page as it was.
    fn row(self) -> [u8; script::ROW_LEN] {
        let mut row = [0u8; script::ROW_LEN];
        let bytes: &mut [u8] = &mut row;
        words::put(bytes, 0, script::ROW_LEN as u16);
        match self {
            Offer(number) => {
                let record = FlightRecord {
                    timestamp_us: number,
                    flags: 1,
                    ..FlightRecord::default()
                };
                words::put_bytes(bytes, 32, &record.encode());
            }
            Drain(order) => {
                words::put_bytes(bytes, 2, &[1, order.next as u8, u8::from(order.armed)]);
                words::put(bytes, 8, order.limit);
                put_programs(bytes, order.succeed, order.next);
            }
            WritePending { succeed, next } => {
                words::put_bytes(bytes, 2, &[2, next as u8]);
                put_programs(bytes, succeed, next);
            }
            PowerOn => words::put_bytes(bytes, 2, &[3]),
        }
        row
    }
}

// How many programs succeed, and the mask of the one after them.
fn put_programs(row: &mut [u8], succeed: u32, next: NextProgram) {
    words::put(row, 12, succeed);
    match next {
        NextProgram::Busy => {}
        NextProgram::Fault | NextProgram::Cut => words::put_bytes(row, 160, &[0xff; 128]),
    }
}

// What a call told, but for offers: its own answer, where the log goes on, and how many records wait.
fn say_told(rt: &impl Print, call: Call, told: &[u8]) {
    let outcome = words::byte_at(told, 0);
    match call {
        Offer(_) => return,
        Drain(_) => {
            let written: u32 = words::number_at(told, 8);
            let _ = print!(rt; "drain: power cut {outcome}, pages written {written}");
        }
        WritePending { .. } => {
            let _ = print!(rt; "write_pending: outcome {outcome}");
        }
        PowerOn => {
            let _ = print!(rt; "power on: writable {}", words::byte_at(told, 1));
        }
    }
    let page: u32 = words::number_at(told, 20);
    let flight: u32 = words::number_at(told, 24);
    let waiting = words::byte_at(told, 5);
    let _ = println!(rt; ", next page {page}, next flight {flight}, queue {waiting}");
}

fn say_calls(rt: &impl Print, output: &[[u8; rig::TELL_LEN]]) {
    for (call, told) in DAY.into_iter().zip(output) {
        say_told(rt, call, told);
    }
}

fn say_page(rt: &impl Print, index: u32, page: &[u8]) {
    match blackbox::decode_page(page) {
        Ok(said) => {
            let _ = print!(rt; "page {index}: flight {}, records", said.flight_id);
            for row in page
                .chunks_exact(RECORD_LEN)
                .take(usize::from(said.record_count))
            {
                let _ = print!(rt; " {}", words::number_at::<u32>(row, 0));
            }
            let _ = println!(rt);
        }
        Err(_) => {
            let _ = println!(rt; "page {index}: torn");
        }
    }
}

fn say_pages(rt: &impl Print, image: &[u8]) {
    for index in 0..PAGES {
        let page = records::page_part(image, index);
        if !records::is_blank(page) {
            say_page(rt, index, page);
        }
    }
}

// Whether the record of a number is in a whole page, in a row that the page counts.
fn in_page(page: &[u8], record: u32) -> bool {
    let Ok(said) = blackbox::decode_page(page) else {
        return false;
    };
    page.chunks_exact(RECORD_LEN)
        .take(usize::from(said.record_count))
        .any(|row| words::number_at::<u32>(row, 0) == record)
}

fn on_flash(image: &[u8], record: u32) -> bool {
    (0..PAGES).any(|index| in_page(records::page_part(image, index), record))
}

// How far the day has come: the last record that was offered, the first that this power-on could log, and the last that it logged.
#[derive(Clone, Copy)]
struct Day {
    offered: u32,
    first: u32,
    last: u32,
}

impl Day {
    // The day after a call. After a drain that the power did not cut the records that wait are the last that were offered, and those before
    // them were logged; a pass that the power cut logs nothing here: it programs its page first. Where power comes on, what waited is gone.
    fn after(self, call: Call, told: &[u8]) -> Day {
        let mut day = self;
        match call {
            Offer(record) => day.offered = record,
            Drain(_) => {
                let waiting = u32::from(words::byte_at(told, 5));
                if words::byte_at(told, 0) == 0 && waiting <= day.offered {
                    day.last = day.offered - waiting;
                }
            }
            WritePending { .. } => {}
            PowerOn => day.first = day.offered.saturating_add(1),
        }
        day
    }
}

// What was logged in a power-on, and what of that is missing.
fn say_logged(rt: &impl Print, image: &[u8], day: Day) {
    let _ = print!(rt; "logged {} to {}, missing", day.first, day.last);
    for record in day.first..=day.last {
        if !on_flash(image, record) {
            let _ = print!(rt; " {record}");
        }
    }
    let _ = println!(rt);
}

// At each power-on the one before it is told, and the last one at the end.
fn say_power_ons(rt: &impl Print, image: &[u8], output: &[[u8; rig::TELL_LEN]]) {
    let mut day = Day {
        offered: 0,
        first: 1,
        last: 0,
    };
    for (call, told) in DAY.into_iter().zip(output) {
        if matches!(call, PowerOn) && 0 < day.last {
            say_logged(rt, image, day);
        }
        day = day.after(call, told);
    }
    say_logged(rt, image, day);
}

fn main(rt: HostRuntime) {
    let mut image = [0xffu8; CAPACITY as usize];
    let script = DAY.map(Call::row);
    let mut output = [[0u8; rig::TELL_LEN]; 45];
    let played = rig::play(
        CAPACITY,
        &mut image,
        script.as_flattened(),
        output.as_flattened_mut(),
    );
    if let Err(refusal) = played {
        let _ = println!(rt; "refused {}", refusal.number());
        return;
    }
    say_calls(&rt, &output);
    say_pages(&rt, &image);
    say_power_ons(&rt, &image, &output);
}
