// Walks the acknowledgement of flight 9 on images of 20,480 bytes whose ledger is Foreign, Blank, Blank over a used
// bitmap, Valid, and Valid with a device whose first program fails; prints each planned step, what it answers, and what
// is_synced says then.
// What standard output does not take is lost, and no status tells it.
#![tactic(auto)]

use laws::Refusal;
use store::Flash;
use sync_ledger::MarkStep;

const CAPACITY: u32 = 20480;

const LEDGER: usize = CAPACITY as usize - store::SECTOR_LEN;

static NO_FAULTS: [u8; 80] = [0; 80];

// What a failing program keeps: every bit.
static KEEP: [u8; 256] = [0xff; 256];

const FLIGHT: u32 = 9;

fn say_refusal(rt: &impl Print, refusal: Refusal) {
    let number = refusal.number();
    let fault = refusal.fault();
    let _ = print!(rt; "refused {number} {fault}");
}

fn say_step(rt: &impl Print, step: MarkStep) {
    let _ = match step {
        MarkStep::EraseLedger { address } => print!(rt; "erase {address}"),
        MarkStep::ProgramHeader { address } => print!(rt; "header {address}"),
        MarkStep::ProgramBit { address, value } => print!(rt; "bit {address} {value}"),
        MarkStep::Done => print!(rt; "done"),
    };
}

fn say_answer(rt: &impl Print, answer: Result<(), Refusal>) {
    let _ = print!(rt; ": ");
    match answer {
        Ok(()) => {
            let _ = print!(rt; "ok");
        }
        Err(refusal) => say_refusal(rt, refusal),
    }
    let _ = print!(rt; ", ");
}

fn say_synced(rt: &impl Print, answer: Result<bool, Refusal>) {
    match answer {
        Ok(true) => {
            let _ = print!(rt; "synced");
        }
        Ok(false) => {
            let _ = print!(rt; "not synced");
        }
        Err(refusal) => say_refusal(rt, refusal),
    }
    let _ = println!(rt);
}

// The flash of an image whose reads all go well.
fn flash(image: &[u8]) -> Flash<'_> {
    Flash {
        capacity_bytes: CAPACITY,
        image,
        faults: &NO_FAULTS,
    }
}

// One operation: planned, started with the device's reply, and what is_synced says then.
fn operate(rt: &impl Print, image: &mut [u8], reply: u8) {
    match sync_ledger::next_mark_step(&flash(image), FLIGHT) {
        Err(refusal) => {
            say_refusal(rt, refusal);
            let _ = println!(rt);
        }
        Ok(step) => {
            say_step(rt, step);
            let answer = sync_ledger::start_mark_step(CAPACITY, image, step, &KEEP, reply);
            say_answer(rt, answer);
            say_synced(rt, sync_ledger::is_synced(&flash(image), FLIGHT));
        }
    }
}

// Four operations on an erased image with some bytes of its own; the first gets a reply.
fn walk(rt: &impl Print, title: &str, at: usize, bytes: &[u8], reply: u8) {
    let mut image = [0xff; CAPACITY as usize];
    words::put_bytes(&mut image, at, bytes);
    let _ = println!(rt; "{title}");
    for reply in [reply, 0, 0, 0] {
        operate(rt, &mut image, reply);
    }
}

fn main(rt: HostRuntime) {
    walk(&rt, "Foreign", LEDGER, b"FB", 0);
    walk(&rt, "Blank", LEDGER, b"", 0);
    walk(&rt, "Blank over a used bitmap", LEDGER + 9, b"\xfe", 0);
    walk(&rt, "Valid", LEDGER, b"FWSYNC01", 0);
    walk(
        &rt,
        "Valid, the first program fails",
        LEDGER,
        b"FWSYNC01",
        7,
    );
}
