// The refusals of document 01 by name, with their numbers. A caller can rely on it that no other library of this project writes one
// of these numbers as a literal.
// The laws on lists, numbers and bits that belong to no single crate stand in specs/ and proofs/ beside this file.
#![tactic(auto)]

ghost use Rattle.std.specs.Prelude.{◌≡◌, ℕ, ◌<◌, Bool};
ghost use Rattle.laws.specs.Answers.{Answer, number_of, fault_of, told};
ghost use Rattle.laws.specs.Halving.{halving};

pub const INVALID_RECORD_COUNT: u8 = 1;

pub const INVALID_MAGIC: u8 = 2;

pub const UNSUPPORTED_VERSION: u8 = 3;

pub const CRC_MISMATCH: u8 = 4;

pub const INVALID_LAYOUT: u8 = 5;

pub const DEVICE: u8 = 6;

pub const CORRUPT: u8 = 7;

pub const OUT_OF_RANGE: u8 = 8;

pub const NOT_RECORDING: u8 = 9;

pub const PAGE_NOT_CONSUMED: u8 = 10;

pub const FORMAT: u8 = 11;

pub const NO_SUCH_FLIGHT: u8 = 12;

pub const RECORDING: u8 = 13;

pub const LENGTH_CHANGED: u8 = 14;

pub const LEDGER_FULL: u8 = 15;

pub const QUEUE_FULL: u8 = 16;

pub const BAD_LENGTH: u8 = 17;

// Why a call refuses.
#[derive(Clone, Copy, Debug, PartialEq, Eq)]
pub enum Refusal {
    InvalidRecordCount,
    InvalidMagic,
    UnsupportedVersion,
    CrcMismatch,
    InvalidLayout,
    // The device's fault byte goes along.
    Device(u8),
    Corrupt,
    OutOfRange,
    NotRecording,
    PageNotConsumed,
    Format,
    NoSuchFlight,
    Recording,
    LengthChanged,
    LedgerFull,
    QueueFull,
    BadLength,
}

impl Refusal {
    pub fn number(self) -> u8
        ensures { result ≡ number_of self }
    {
        match self {
            Refusal::InvalidRecordCount => INVALID_RECORD_COUNT,
            Refusal::InvalidMagic => INVALID_MAGIC,
            Refusal::UnsupportedVersion => UNSUPPORTED_VERSION,
            Refusal::CrcMismatch => CRC_MISMATCH,
            Refusal::InvalidLayout => INVALID_LAYOUT,
            Refusal::Device(_) => DEVICE,
            Refusal::Corrupt => CORRUPT,
            Refusal::OutOfRange => OUT_OF_RANGE,
            Refusal::NotRecording => NOT_RECORDING,
            Refusal::PageNotConsumed => PAGE_NOT_CONSUMED,
            Refusal::Format => FORMAT,
            Refusal::NoSuchFlight => NO_SUCH_FLIGHT,
            Refusal::Recording => RECORDING,
            Refusal::LengthChanged => LENGTH_CHANGED,
            Refusal::LedgerFull => LEDGER_FULL,
            Refusal::QueueFull => QUEUE_FULL,
            Refusal::BadLength => BAD_LENGTH,
        }
    }

    // The device's fault byte, 0 for any other refusal.
    pub fn fault(self) -> u8
        ensures { result ≡ fault_of self }
    {
        match self {
            Refusal::Device(fault) => fault,
            _ => 0,
        }
    }
}

// The point between 0 and a count that halving finds by a test: a passed test sends it down, a failed one up, and a refused one ends it.
pub fn halve<F: Fn(u32) -> Result<bool, Refusal>>(count: u32, test: F) -> Result<u32, Refusal>
    requires { F.IsAlwaysCallable test }
    ensures { (t : ℕ → Answer Bool) → ((i : _) (r : _) → i < count → F.post test i r → told r ≡ t i) → told result ≡ halving t count }
{
    let mut low: u32 = 0;
    let mut high = count;
    while low < high {
        let middle = low + (high - low) / 2;
        if test(middle)? {
            high = middle;
        } else {
            low = middle + 1;
        }
    }
    Ok(low)
}
