//! Fields put after the bytes of a frame. Where an allocation fails, a part of a field may be
//! there.

ghost use Rattle.std.specs.Prelude.{◌≡◌, ◌≤◌, ◌<◌, ◌-◌, ◌^◌, ◌++◌, OnOk, length};
ghost use Rattle.p9_wire.specs.Fields.{number, text, counted, qid_bytes};
ghost use Rattle.p9_words.specs.Form.{bytes_of};

use crate::form::Width;
use byteorder::{ByteOrder, LittleEndian};
use p9_base::{NoMemory, Qid};
use std::alloc::Allocator;

/// A number, the lowest byte first.
#[tactic(auto, unfolding(p9_fields::specs::Fields::number))]
pub fn put_number<A: Allocator + Copy>(
    width: Width,
    n: u64,
    out: &mut Vec<u8, A>,
) -> Result<(), NoMemory>
    requires { n ≤ 256 ^ bytes_of width - 1 }
    ensures { OnOk result (out.new.items ≡ out.old.items ++ number (bytes_of width) n) }
{
    match width {
        Width::U8 => {
            out.push(n as u8)?;
        }
        Width::U16 => {
            let mut bytes = [0; 2];
            LittleEndian::write_u16(&mut bytes, n as u16);
            out.extend_from_slice(&bytes)?;
        }
        Width::U32 => {
            let mut bytes = [0; 4];
            LittleEndian::write_u32(&mut bytes, n as u32);
            out.extend_from_slice(&bytes)?;
        }
        Width::U64 => {
            let mut bytes = [0; 8];
            LittleEndian::write_u64(&mut bytes, n);
            out.extend_from_slice(&bytes)?;
        }
    }
    Ok(())
}

/// A text after two bytes of its length.
pub fn put_text<A: Allocator + Copy>(s: &[u8], out: &mut Vec<u8, A>) -> Result<(), NoMemory>
    requires { length s.now < 2 ^ 16 }
    ensures { OnOk result (out.new.items ≡ out.old.items ++ text s.now) }
{
    put_number(Width::U16, s.len() as u64, out)?;
    out.extend_from_slice(s)?;
    Ok(())
}

/// `type[1] vers[4] path[8]`.
pub fn put_qid<A: Allocator + Copy>(qid: Qid, out: &mut Vec<u8, A>) -> Result<(), NoMemory>
    ensures { OnOk result (out.new.items ≡ out.old.items ++ qid_bytes qid) }
{
    put_number(Width::U8, u64::from(qid.kind), out)?;
    put_number(Width::U32, u64::from(qid.version), out)?;
    put_number(Width::U64, qid.path, out)
}

/// Data after four bytes of its count.
pub fn put_counted<A: Allocator + Copy>(data: &[u8], out: &mut Vec<u8, A>) -> Result<(), NoMemory>
    requires { length «data».now < 2 ^ 32 }
    ensures { OnOk result (out.new.items ≡ out.old.items ++ counted «data».now) }
{
    put_number(Width::U32, data.len() as u64, out)?;
    out.extend_from_slice(data)?;
    Ok(())
}
