//! The bytes of a file.

ghost use Rattle.std.specs.Prelude.{◌≡◌, ◌+◌, ◌≤◌, [], ◌++◌, IfOk, OnOk, OnErr, drop, length, nat_le, take};
ghost use Rattle.p9_base.specs.Text.{padded};
ghost use Rattle.p9_tree.specs.Bytes.{cut_to, file_max, overwritten, put_front, read_from, resized};

use p9_base::NoMemory;
use std::alloc::Allocator;
use std::marker::Model;

/// The most bytes that a file has.
pub const FILE_MAX: usize = 16_777_216;

/// Whether a file may have so many bytes from the offset on: no more than [`FILE_MAX`] in all.
pub fn fits_file(offset: u64, count: usize) -> bool
    ensures { result ≡ nat_le (offset + count) file_max }
{
    offset <= FILE_MAX as u64 && count <= FILE_MAX - offset as usize
}

/// The bytes of a file, seen as their list.
#[derive(Drop)]
pub struct Bytes<A: Allocator> {
    items: Vec<u8, A>,
}

impl<A: Allocator> Model for Bytes<A> {
    ghost use Rattle.std.specs.Prelude.{ℕ, List};

    ghost Value = { List ℕ };

    ghost view = { λ b. b.items.items };
}

impl<A: Allocator> Bytes<A> {
    /// No bytes. This takes no memory.
    pub fn new(alloc: A) -> Bytes<A>
        ensures { result ≡ [] }
    {
        Bytes {
            items: Vec::new(alloc),
        }
    }

    /// What they are allocated by.
    pub fn allocator(&self) -> A
    where
        A: Copy,
    {
        *self.items.allocator()
    }

    /// All of them.
    pub fn as_slice(&self) -> &[u8]
        ensures { result.now ≡ self.now }
    {
        self.items.as_slice()
    }

    /// A copy of these.
    pub fn copy_of(alloc: A, bytes: &[u8]) -> Result<Bytes<A>, NoMemory>
        ensures { IfOk result (λ copy. copy ≡ bytes.now) }
    {
        Ok(Bytes {
            items: Vec::from_slice(alloc, bytes)?,
        })
    }

    /// Writes at the offset, and fills a gap before it with zeros. Where an allocation fails, all
    /// stays as it was.
    pub fn write(&mut self, offset: u64, bytes: &[u8]) -> Result<(), NoMemory>
        requires { offset + length bytes.now ≤ file_max }
        ensures ok { OnOk result (self.new ≡ overwritten offset bytes.now self.old) }
        ensures err { OnErr result (self.new ≡ self.old) }
    {
        let start = offset as usize;
        self.pad_to(start + bytes.len())?;
        self.put(start, bytes);
        Ok(())
    }

    // Brings them to this length, if they are fewer, by zeros after them.
    fn pad_to(&mut self, len: usize) -> Result<(), NoMemory>
        ensures ok { OnOk result (self.new ≡ padded len self.old) }
        ensures err { OnErr result (self.new ≡ self.old) }
    {
        if self.items.len() < len {
            self.items.resize(len, 0)?;
        }
        Ok(())
    }

    // Copies the bytes over those that are at the start and after it.
    fn put(&mut self, start: usize, bytes: &[u8])
        requires { start + length bytes.now ≤ length self.old }
        ensures { self.new
            ≡ take start self.old ++ bytes.now ++ drop (start + length bytes.now) self.old }
    {
        self.items[start..start + bytes.len()].copy_from_slice(bytes);
    }

    /// Keeps the first `size` bytes, or all where they are fewer. This takes no memory.
    pub fn cut(&mut self, size: u64)
        ensures { self.new ≡ cut_to size self.old }
    {
        self.items.truncate(size as usize);
    }

    /// Brings them to this number: it cuts them, or adds zeros. Where an allocation fails, all
    /// stays as it was.
    pub fn resize(&mut self, size: u64) -> Result<(), NoMemory>
        requires { size ≤ file_max }
        ensures ok { OnOk result (self.new ≡ resized size self.old) }
        ensures err { OnErr result (self.new ≡ self.old) }
    {
        self.pad_to(size as usize)?;
        self.cut(size);
        Ok(())
    }

    /// Copies the bytes from the offset on, as many as are there and have room, over the front of
    /// the buffer, and returns how many they are. The rest of the buffer is unchanged.
    pub fn read_into(&self, offset: u64, buffer: &mut [u8]) -> usize
        ensures count { result ≡ length (read_from offset (length buffer.old) self.now) }
        ensures filled { buffer.new
            ≡ put_front (read_from offset (length buffer.old) self.now) buffer.old }
    {
        let start = self.items.len().min(offset as usize);
        let rest = &self.items[start..];
        let count = rest.len().min(buffer.len());
        buffer[..count].copy_from_slice(&rest[..count]);
        count
    }
}
