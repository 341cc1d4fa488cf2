// The assembler's calls as a C call gives them: a script of rows of 54 bytes, played from a fresh assembler, and what its last call
// answers. A caller can rely on it that a refused call leaves the assembler as the Rust does, and that the next is played.
#![tactic(auto, unfolding(crate::specs::Script::told_row, crate::specs::Script::play_row, crate::specs::Script::last_played, blackbox::specs::Record::record_decoded, words::specs::Words::le_bytes))]

ghost use Rattle.std.specs.Prelude.{◌≡◌, ◌+◌, ◌≤◌, length};
ghost use Rattle.laws.specs.Answers.{told};
ghost use Rattle.assembler.specs.WellFormed.{SoundAssembler};
ghost use Rattle.reply_assembler.specs.Script.{flagged, as_flag, play_row, play_script, played_row, last_played};

use assembler::PageAssembler;
use blackbox::FlightRecord;
use laws::Refusal;

// What a call of a script gives: a flag, the unfinished flight or the ready page.
#[derive(Clone, Copy)]
pub enum Told {
    Flag(bool),
    Unfinished(Option<u32>),
    Page(Option<[u8; 256]>),
}

// What a call of a script answers, and the assembler as it leaves it.
#[derive(Clone, Copy)]
pub struct Played {
    pub answer: Result<Told, Refusal>,
    pub assembler: PageAssembler,
}

fn flagged(flag: bool, assembler: PageAssembler) -> Played
    ensures { result ≡ flagged flag assembler }
{
    Played {
        answer: Ok(Told::Flag(flag)),
        assembler,
    }
}

// What push and stop answer.
fn as_flag(page_ready: Result<bool, Refusal>) -> Result<Told, Refusal>
    ensures { result ≡ as_flag page_ready }
{
    page_ready.map(Told::Flag)
}

// One row: the call at 0, its flag at 1, its flight at 2, its record at 6. What was played before is laid over, so that a call that
// only asks copies no assembler.
fn play_row(done: &mut Played, row: &[u8])
    requires { SoundAssembler done.old.assembler × (6 + 48 ≤ length row.now) }
    ensures { done.new ≡ play_row done.old.assembler row.now }
{
    let flag = row[1] != 0;
    match row[0] {
        1 => {
            done.assembler = done.assembler.start(words::number_at(row, 2), flag);
            done.answer = Ok(Told::Flag(false));
        }
        2 => {
            let record = FlightRecord::decode(&row[6..54]).unwrap_or_default();
            let pushed = done.assembler.push(record);
            done.assembler = pushed.assembler;
            done.answer = as_flag(pushed.page_ready);
        }
        3 => {
            let stopped = done.assembler.stop();
            done.assembler = stopped.assembler;
            done.answer = as_flag(stopped.page_ready);
        }
        4 => {
            let ready = done.assembler.take_ready_page();
            done.assembler = ready.assembler;
            done.answer = Ok(Told::Page(ready.page));
        }
        5 => {
            let flight = done.assembler.unfinished_flight(flag);
            done.answer = Ok(Told::Unfinished(flight));
        }
        _ => done.answer = Ok(Told::Flag(done.assembler.recording())),
    }
}

// What the last call of a script answers.
#[tactic(auto, using(crate::proofs::Turns::turns), unfolding(crate::specs::Script::play_script, crate::specs::Script::play_from))]
fn play(script: &[u8]) -> Played
    ensures { result ≡ play_script script.now }
{
    let mut played = flagged(false, PageAssembler::new());
    for row in script.chunks_exact(54) {
        play_row(&mut played, row);
    }
    played
}

// What the last call of a script answers; a script that is no multiple of 54 bytes is refused 17.
pub fn last_played(script: &[u8]) -> Result<Told, Refusal>
    ensures { told result ≡ last_played script.now }
{
    if script.len() % 54 != 0 {
        return Err(Refusal::BadLength);
    }
    play(script).answer
}

// Flag, flight and page in a row, each 0 where the call gives none.
pub fn played_row(t: Told) -> [u8; 261]
    ensures { result ≡ played_row t }
{
    let mut row = [0; 261];
    match t {
        Told::Flag(flag) => row[0] = u8::from(flag),
        Told::Unfinished(flight) => row[..5].copy_from_slice(&reply::option_row(flight)),
        Told::Page(None) => {}
        Told::Page(Some(page)) => {
            row[0] = 1;
            row[5..].copy_from_slice(&page);
        }
    }
    row
}
