//! The values of fields, which a message lends.

use p9_base::Qid;
use p9_wire::{Names, Qids, Stat};

/// The value of a field.
#[derive(Clone, Copy)]
pub enum Value<'a> {
    U8(u8),
    U16(u16),
    U32(u32),
    U64(u64),
    Octal(u32),
    Text(&'a str),
    Data(&'a [u8]),
    Qid(Qid),
    Names(&'a Names<'a>),
    Qids(&'a Qids),
    Stat(&'a Stat<'a>),
}
