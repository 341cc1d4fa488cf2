// A script says what is done to a log, call by call, in rows of 288 bytes. A row is the bytes of one operation and nothing else: its length
// stands in it, and its spare bytes are 0. is_script tests any bytes; Operation::of reads what a row says, with order_in for a
// drain's order and flag_at for flags.
// A caller can rely on it that a script says each of its operations in one way only.
#![tactic(auto, using(laws::proofs::Chain::chain))]

ghost use Rattle.std.specs.Prelude.{◌≡◌, ◌≤◌, length, eqb, IfSome, is_some};
ghost use Rattle.words.specs.Words.{same_bytes};
ghost use Rattle.script.specs.Script.{row_of, flag_at, next_in, order_in, operation_in, is_row, is_script};
ghost use Rattle.script.specs.Said.{said, Fitting, row_by};

use blackbox::FlightRecord;
use log_writer::{DrainOrder, NextProgram};

pub const ROW_LEN: usize = 288;

// What a row says is to be done.
#[derive(Clone, Copy)]
pub enum Operation<'a> {
    Offer(FlightRecord),
    Drain(DrainOrder, &'a [u8]),
    Write {
        succeed: u32,
        next: NextProgram,
        keep: &'a [u8],
    },
    Power,
    Recover {
        page: u32,
        flight: u32,
        writable: bool,
    },
    Reset,
    Flush {
        buffered: bool,
        clock: u64,
    },
}

// The numbers of a row in front of its record or mask.
#[derive(Clone, Copy, Default)]
struct Head {
    operation: u8,
    next: u8,
    armed: bool,
    while_disarmed: bool,
    flag: bool,
    first: u32,
    second: u32,
}

// A flag is set where its byte is not 0.
pub fn flag_at(bytes: &[u8], at: usize) -> bool
    ensures { result ≡ flag_at bytes.now at }
{
    words::byte_at(bytes, at) != 0
}

// What the program after those that succeed does, by its byte. The type is log_writer's, so this can be no From.
pub fn next_in(code: u8) -> NextProgram
    ensures { result ≡ next_in code }
{
    match code {
        0 => NextProgram::Busy,
        1 => NextProgram::Fault,
        _ => NextProgram::Cut,
    }
}

// The order of a row's drain.
pub fn order_in(bytes: &[u8]) -> DrainOrder
    ensures { result ≡ order_in bytes.now }
{
    DrainOrder {
        limit: words::number_at(bytes, 8),
        armed: flag_at(bytes, 4),
        record_while_disarmed: flag_at(bytes, 5),
        succeed: words::number_at(bytes, 12),
        next: next_in(words::byte_at(bytes, 3)),
    }
}

impl Head {
    // Whether bytes are its row, with a record or a mask behind. They are compared where the row is built, since one that is handed
    // back is copied.
    fn is_row(self, bytes: &[u8], payload: &[u8]) -> bool
        requires { length payload.now ≤ 256 }
        ensures { result ≡ same_bytes bytes.now (row_by self payload.now) }
    {
        let head = [
            32,
            1,
            self.operation,
            self.next,
            u8::from(self.armed),
            u8::from(self.while_disarmed),
            u8::from(self.flag),
            0,
        ];
        let mut expected = [0u8; ROW_LEN];
        let row: &mut [u8] = &mut expected;
        words::put_bytes(row, 0, &head);
        words::put(row, 8, self.first);
        words::put(row, 12, self.second);
        words::put_bytes(row, 32, payload);
        words::same_bytes(bytes, &expected)
    }
}

impl<'a> Operation<'a> {
    // The operation that a row says; none where it isn't 288 bytes long.
    pub fn of(row: &'a [u8]) -> Option<Operation<'a>>
        ensures says { IfSome result (λ o. (said o ≡ operation_in row.now) × Fitting o) }
        ensures there { is_some result ≡ eqb (length row.now) 288 }
    {
        if row.len() == ROW_LEN {
            Some(Operation::read(row))
        } else {
            None
        }
    }

    // Inlined: as a call it handed back a copy of the operation, twice for each row.
    #[inline(always)]
    #[tactic(auto, using(crate::proofs::Rows::reads))]
    fn read(row: &'a [u8]) -> Operation<'a>
        requires { length row.now ≡ 288 }
        ensures says { said result ≡ operation_in row.now }
        ensures fits { Fitting result }
    {
        let first = words::number_at(row, 8);
        let second = words::number_at(row, 12);
        let keep = &row[32..ROW_LEN];
        match words::byte_at(row, 2) {
            0 => Operation::Offer(FlightRecord::decode(&row[32..80]).unwrap_or_default()),
            1 => Operation::Drain(order_in(row), keep),
            2 => Operation::Write {
                succeed: second,
                next: next_in(words::byte_at(row, 3)),
                keep,
            },
            3 => Operation::Power,
            4 => Operation::Recover {
                page: first,
                flight: second,
                writable: flag_at(row, 6),
            },
            5 => Operation::Reset,
            _ => Operation::Flush {
                buffered: flag_at(row, 6),
                clock: u64::from(first) + (u64::from(second) << 32),
            },
        }
    }

    // Whether bytes are the row that says it.
    #[tactic(auto, unfolding(crate::specs::Script::row_of))]
    fn is_said_by(self, bytes: &[u8]) -> bool
        requires { Fitting self }
        ensures { result ≡ same_bytes bytes.now (row_of (said self.entry)) }
    {
        let spare = Head::default();
        match self {
            Operation::Offer(record) => spare.is_row(bytes, &record.encode()),
            Operation::Drain(order, keep) => Head {
                operation: 1,
                next: order.next as u8,
                armed: order.armed,
                while_disarmed: order.record_while_disarmed,
                first: order.limit,
                second: order.succeed,
                ..spare
            }
            .is_row(bytes, keep),
            Operation::Write {
                succeed,
                next,
                keep,
            } => Head {
                operation: 2,
                next: next as u8,
                second: succeed,
                ..spare
            }
            .is_row(bytes, keep),
            Operation::Power => Head {
                operation: 3,
                ..spare
            }
            .is_row(bytes, b""),
            Operation::Recover {
                page,
                flight,
                writable,
            } => Head {
                operation: 4,
                flag: writable,
                first: page,
                second: flight,
                ..spare
            }
            .is_row(bytes, b""),
            Operation::Reset => Head {
                operation: 5,
                ..spare
            }
            .is_row(bytes, b""),
            Operation::Flush { buffered, clock } => Head {
                operation: 6,
                flag: buffered,
                first: (clock % 4294967296) as u32,
                second: (clock >> 32) as u32,
                ..spare
            }
            .is_row(bytes, b""),
        }
    }
}

// Whether a row is the bytes of an operation and nothing else.
#[tactic(auto, using(crate::proofs::Rows::is_that), unfolding(crate::specs::Script::is_row))]
fn is_row(bytes: &[u8]) -> bool
    requires { length bytes.now ≡ 288 }
    ensures { result ≡ is_row bytes.now }
{
    Operation::read(bytes).is_said_by(bytes)
}

// Whether bytes are rows, one after another, and nothing else.
pub fn is_script(script: &[u8]) -> bool
    ensures { result ≡ is_script script.now }
{
    if script.len() % ROW_LEN != 0 {
        return false;
    }
    for row in script.chunks_exact(ROW_LEN) {
        if !is_row(row) {
            return false;
        }
    }
    true
}
