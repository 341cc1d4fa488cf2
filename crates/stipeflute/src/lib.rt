// The calls of libstipeflute.a, on numbers and byte slices only: include/stipeflute.h says what each takes, answers and refuses. A
// caller can rely on it that a refused call alters no lent byte, but for what a failing device itself stored.
#![tactic(auto)]

pub mod assemble;
pub mod codec;
pub mod flash;
pub mod log;
pub mod sync;
pub mod text;
pub mod writer;
