// The exports of libstipeflute.a: each calls the function of its name in the crate `stipeflute` and states its clauses again, since
// no crate is both a library for other crates and an archive for C.
#![tactic(auto)]

mod assemble;
mod codec;
mod flash;
mod log;
mod sync;
mod text;
mod writer;
