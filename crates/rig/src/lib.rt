// The rig: plays a script on a lent image, from power-on to power-off, with a writer and a queue of its own, and after each call tells its
// outcome, its report and the writer's visible state in 40 bytes. Capacity, image, script and output are tested whole before the first
// call: a refused script alters nothing.
// A caller can rely on it that what is done to the image is exactly what the script says, call by call.
#![tactic(auto)]

ghost use Rattle.std.specs.Prelude.{◌*◌, ◌^◌, ◌<◌, ◌≡◌, length};
ghost use Rattle.words.specs.Words.{placed};
ghost use Rattle.laws.specs.Answers.{told};
ghost use Rattle.store.specs.Store.{no_faults};
ghost use Rattle.records.specs.Scan.{scanned};
ghost use Rattle.queue.specs.Queue.{offered};
ghost use Rattle.script.specs.Script.{drains, writes, operations, rows_in};
ghost use Rattle.rig.specs.Rig.{unpowered, playing, offering, powering, played, image_after};
ghost use Rattle.rig.specs.Rig.{tells_of, plays_image, tells, play_told, after_play, output_after};
ghost use Rattle.rig.specs.Laws.{SoundBench};

use blackbox::FlightRecord;
use laws::Refusal;
use log_state::LogWriter;
use log_writer::{DrainOrder, DrainReport, NextProgram, PageWrite};
use queue::RecordQueue;
use records::Scan;
use script::Operation;
use store::Flash;

pub const TELL_LEN: usize = 40;

// What is on the bench beside the image.
#[derive(Clone, Copy)]
pub struct Bench {
    pub writer: LogWriter,
    pub queue: RecordQueue,
}

// What a call left there, its outcome and its report.
#[derive(Clone, Copy)]
pub struct Played {
    pub bench: Bench,
    pub outcome: u8,
    pub report: DrainReport,
}

// A call without a report.
fn unreported(writer: LogWriter, queue: RecordQueue, outcome: u8) -> Played
    ensures { result ≡ playing writer queue outcome 0 0 0 }
{
    Played {
        bench: Bench { writer, queue },
        outcome,
        report: DrainReport::default(),
    }
}

// An offered record is stored where the queue stands, so that no slot is copied. What was played before is lent, here and below, and laid
// over, so that the frame of the rows has one place for it and no other.
fn offer(done: &mut Played, record: FlightRecord)
    requires { SoundBench done.old.bench }
    ensures { done.new ≡ offering done.old.bench.writer (offered done.old.bench.queue «record») }
{
    done.outcome = match done.bench.queue.store(record) {
        Ok(()) => 0,
        Err(refusal) => refusal.number(),
    };
    done.report = DrainReport::default();
}

// A drain's outcome is 1 if the power was cut.
#[tactic(auto, unfolding(crate::specs::Rig::played, crate::specs::Rig::image_after))]
fn drain(done: &mut Played, capacity_bytes: u32, image: &mut [u8], order: DrainOrder, keep: &[u8])
    requires { SoundBench done.old.bench }
    ensures value { done.new ≡ played capacity_bytes (drains order keep.now) done.old.bench image.old }
    ensures lent { image.new ≡ image_after capacity_bytes (drains order keep.now) done.old.bench image.old }
{
    let answer = log_writer::drain(
        done.bench.writer,
        done.bench.queue,
        capacity_bytes,
        image,
        keep,
        order,
    );
    done.bench.writer = answer.writer;
    done.bench.queue = answer.queue;
    done.outcome = u8::from(answer.cut);
    done.report = answer.report.unwrap_or_default();
}

// A write_pending's outcome by its number; one that was refused did nothing.
#[tactic(auto, unfolding(crate::specs::Rig::played, crate::specs::Rig::image_after))]
fn write(
    done: &mut Played,
    capacity_bytes: u32,
    image: &mut [u8],
    succeed: u32,
    next: NextProgram,
    keep: &[u8],
)
    requires { SoundBench done.old.bench }
    ensures value { done.new ≡ played capacity_bytes (writes succeed next keep.now) done.old.bench image.old }
    ensures lent { image.new ≡ image_after capacity_bytes (writes succeed next keep.now) done.old.bench image.old }
{
    let answer = log_writer::write_pending(
        done.bench.writer,
        done.bench.queue,
        capacity_bytes,
        image,
        keep,
        succeed,
        next,
    );
    done.bench.writer = answer.writer;
    done.bench.queue = answer.queue;
    done.outcome = answer.outcome.unwrap_or(PageWrite::Nothing) as u8;
    done.report = DrainReport::default();
}

// A scan without faults. A fault byte that isn't there reads as 0, so none is lent.
#[tactic(auto, using(laws::proofs::Chain::chain, crate::proofs::Ways::scan_refused, crate::proofs::Ways::scan_made))]
fn scan(capacity_bytes: u32, image: &[u8]) -> Result<Scan, Refusal>
    ensures { told result ≡ scanned capacity_bytes image.now (no_faults capacity_bytes) }
{
    store::checked_image(capacity_bytes, image.len())?;
    let flash = Flash {
        capacity_bytes,
        image,
        faults: &image[0..0],
    };
    records::scan_pages(layout::page_count(capacity_bytes), &flash)
}

// Power comes on: a fresh writer set by one scan alone, and an empty queue.
fn power_on(done: &mut Played, capacity_bytes: u32, image: &[u8])
    ensures { done.new ≡ powering (scanned capacity_bytes image.now (no_faults capacity_bytes)) }
{
    let fresh = LogWriter::new();
    done.bench.queue = RecordQueue::new();
    done.report = DrainReport::default();
    match scan(capacity_bytes, image) {
        Ok(found) => {
            done.bench.writer = fresh.recover(found.next_page, found.next_flight, found.writable);
            done.outcome = 0;
        }
        Err(refusal) => {
            done.bench.writer = fresh;
            done.outcome = refusal.number();
        }
    }
}

// What is told after a call.
fn tells_of(played: &Played) -> [u8; TELL_LEN]
    requires { SoundBench played.now.bench }
    ensures { result ≡ tells_of played.now }
{
    let writer = &played.bench.writer;
    let unfinished = writer.unfinished_flight();
    let since = writer.write_back_since_ms;
    let head = [
        played.outcome,
        u8::from(writer.writable),
        u8::from(writer.assembler.recording),
        u8::from(unfinished.is_some()),
        u8::from(since.is_some()),
        played.bench.queue.held as u8,
        0,
        0,
    ];
    let mut bytes = [0u8; TELL_LEN];
    let row: &mut [u8] = &mut bytes;
    words::put_bytes(row, 0, &head);
    words::put(row, 8, played.report.pages_written);
    words::put(row, 12, played.report.records_dropped);
    words::put(row, 16, played.report.write_faults);
    words::put(row, 20, writer.next_page);
    words::put(row, 24, writer.next_flight);
    words::put(row, 28, unfinished.unwrap_or(0));
    words::put(row, 32, since.unwrap_or(0));
    bytes
}

// What is told after a call, at its row's place in the output.
fn tell(output: &mut [u8], index: usize, played: &Played)
    requires { SoundBench played.now.bench × (index * 40 < 2 ^ 64) }
    ensures { output.new ≡ placed output.old (index * 40) (tells_of played.now) }
{
    words::put_bytes(output, index * TELL_LEN, &tells_of(played));
}

// The rows of a script, one after another. A call that needs the writer alone is handed no queue, so that no slot is copied for it.
fn play_rows(capacity_bytes: u32, image: &mut [u8], script: &[u8], output: &mut [u8])
    requires { length output.old ≡ rows_in script.now * 40 }
    ensures image_after { image.new ≡ plays_image capacity_bytes (operations script.now) unpowered image.old }
    ensures output_after { output.new ≡ tells capacity_bytes (operations script.now) unpowered image.old }
{
    let mut played = unreported(LogWriter::new(), RecordQueue::new(), 0);
    for (i, row) in script.chunks_exact(script::ROW_LEN).enumerate() {
        match Operation::of(row).unwrap() {
            Operation::Offer(record) => offer(&mut played, record),
            Operation::Drain(order, keep) => {
                drain(&mut played, capacity_bytes, image, order, keep);
            }
            Operation::Write {
                succeed,
                next,
                keep,
            } => {
                write(&mut played, capacity_bytes, image, succeed, next, keep);
            }
            Operation::Power => power_on(&mut played, capacity_bytes, image),
            Operation::Recover {
                page,
                flight,
                writable,
            } => {
                played.bench.writer = played.bench.writer.recover(page, flight, writable);
                played.outcome = 0;
                played.report = DrainReport::default();
            }
            Operation::Reset => {
                played.bench.writer = played.bench.writer.reset_after_erase();
                played.outcome = 0;
                played.report = DrainReport::default();
            }
            Operation::Flush { buffered, clock } => {
                let answer = played.bench.writer.flush_write_back(buffered, clock);
                played.bench.writer = answer.writer;
                played.outcome = u8::from(answer.flush);
                played.report = DrainReport::default();
            }
        }
        tell(output, i, &played);
    }
}

// Plays a script on an image and tells 40 bytes for each of its rows. A capacity is refused 5; an image that has not its length, a script
// that is malformed and an output that has not 40 bytes for each row are refused 17.
pub fn play(
    capacity_bytes: u32,
    image: &mut [u8],
    script: &[u8],
    output: &mut [u8],
) -> Result<(), Refusal>
    ensures result_value { told result ≡ play_told capacity_bytes image.old script.now output.old }
    ensures image_after { image.new ≡ after_play capacity_bytes image.old script.now output.old }
    ensures output_after { output.new ≡ output_after capacity_bytes image.old script.now output.old }
{
    store::checked_image(capacity_bytes, image.len())?;
    if !script::is_script(script) {
        return Err(Refusal::BadLength);
    }
    if output.len() != script.len() / script::ROW_LEN * TELL_LEN {
        return Err(Refusal::BadLength);
    }
    play_rows(capacity_bytes, image, script, output);
    Ok(())
}
