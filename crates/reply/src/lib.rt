// How a C call answers: one number that carries the refusal and its fault byte, and a lent row of bytes of one length that holds the
// value. A caller can rely on it that the row is written whole where nothing is refused, and else left as it was.
#![tactic(auto, unfolding(crate::specs::Reply::rowed))]

ghost use Rattle.std.specs.Prelude.{◌≡◌, ◌+◌, ◌*◌};
ghost use Rattle.laws.specs.Answers.{told, number_of, fault_of};
ghost use Rattle.reply.specs.Reply.{reply_of, row_reply, row_after, option_row};

use laws::Refusal;

// The number that carries a refusal and its fault byte.
pub fn reply_of(refusal: Refusal) -> u32
    ensures { result ≡ number_of refusal + 256 * fault_of refusal }
{
    u32::from(refusal.number()) + 256 * u32::from(refusal.fault())
}

// What a call returns that has no value.
pub fn done(a: Result<(), Refusal>) -> u32
    ensures { result ≡ reply_of (told a) }
{
    match a {
        Ok(()) => 0,
        Err(refusal) => reply_of(refusal),
    }
}

// An answer's bytes in the answer row: 5 comes before the row's length, any other refusal after it.
pub fn lay<const N: usize>(a: Result<[u8; N], Refusal>, answer: &mut [u8]) -> u32
    ensures value { result ≡ row_reply N answer.old (told a.entry) }
    ensures lent { answer.new ≡ row_after N answer.old (told a.entry) }
{
    match a {
        Err(Refusal::InvalidLayout) => reply_of(Refusal::InvalidLayout),
        _ if answer.len() != N => reply_of(Refusal::BadLength),
        Err(refusal) => reply_of(refusal),
        Ok(row) => {
            answer.copy_from_slice(&row);
            0
        }
    }
}

// An Option in a row: a flag, and the number or 0.
pub fn option_row(o: Option<u32>) -> [u8; 5]
    ensures { result ≡ option_row o }
{
    match o {
        None => [0; 5],
        Some(n) => {
            let [a, b, c, d] = words::u32_bytes(n);
            [1, a, b, c, d]
        }
    }
}
