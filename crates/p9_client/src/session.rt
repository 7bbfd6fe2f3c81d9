//! A session: one request at a time, and the one frame that answers it.

ghost use Rattle.std.specs.Prelude.{◌≡◌, ◌+◌, ◌-◌, ◌<◌, ◌≤◌, ◌^◌, [], false, min, true, IfOk, IsTrue, OnErr, length, take};
ghost use Rattle.p9_wire.specs.Frame.{msize_max};
ghost use Rattle.p9_wire.specs.Message.{Rclunk, Rremove, Rwstat, Tattach, Tclunk, Tcreate, Topen};
ghost use Rattle.p9_wire.specs.Stat.{stat_view};
ghost use Rattle.p9_wire.specs.Message.{Tread, Tremove, Tstat, Tversion, Twalk, Twrite, Twstat};
ghost use Rattle.p9_wire.specs.Message.{t_view};
ghost use Rattle.p9_client.specs.Entry.{IsStat};
ghost use Rattle.p9_client.specs.Files.{ends_file};
ghost use Rattle.p9_client.specs.Kinds.{AgreesOn, ExceedsBytes, ExceedsCount, ExceedsQids, IsAttached};
ghost use Rattle.p9_client.specs.Kinds.{IsCreated, IsEmptyReply, IsOpened, IsRead, IsWalked, IsWritten};
ghost use Rattle.p9_client.specs.Kinds.{OffersMore, dialect, msize_min};
ghost use Rattle.p9_client.specs.Reply.{gives_no_more};
ghost use Rattle.p9_client.specs.Session.{IsAsked, IsCall, IsReceived, IsSent, IsSettled, next_tag, no_fid, no_tag};

use crate::entry::{Entry, stat_entry};
use crate::error::ClientError;
use crate::exchange::{receive_frame, send_request};
use crate::file_error::FileError;
use crate::reply::{
    MSIZE_MIN, Opened, VERSION, agreed_msize, attached_qid, created_file, opened_file, read_into,
    take_clunk, take_remove, take_wstat, walked_qids, written_count,
};
use p9_base::{NOFID, NoMemory, Qid};
use p9_wire::{HEADER, IOHDRSZ, NOTAG, Names, Qids, Stat, Stream, TMsg};
use std::alloc::Allocator;
use std::marker::Model;

// The bytes of a frame that a read or a write has beside its data.
pub(crate) const AROUND_DATA: usize = IOHDRSZ as usize;

/// A session of a client over a stream.
///
/// A call writes one request, and reads one frame. After an error that says so the session has
/// failed: each later call is [`ClientError::Over`], and neither writes nor reads.
#[derive(Drop)]
pub struct Session<S, A: Allocator + Copy> {
    stream: S,
    // Room for the greatest frame, and how many bytes at its front were read last.
    frame: Vec<u8, A>,
    len: usize,
    msize: usize,
    // The tag of the next request.
    tag: u16,
    failed: bool,
}

impl<S, A: Allocator + Copy> Model for Session<S, A> {
    ghost use Rattle.std.specs.Prelude.{◌≤◌, take, vec_len};
    ghost use Rattle.p9_wire.specs.Frame.{msize_max};
    ghost use Rattle.p9_client.specs.Kinds.{msize_min};
    ghost use Rattle.p9_client.specs.Session.{Talk};

    ghost Value = { Talk S };

    ghost view = { λ s. record {
      stream = s.stream;
      msize = s.msize;
      tag = s.tag;
      failed = s.failed;
      reply = take s.len s.frame.items;
    } };

    ghost invariant = { λ s. (s.len ≤ vec_len s.frame) × (s.msize ≤ vec_len s.frame)
        × (vec_len s.frame ≤ msize_max) × (msize_min ≤ s.msize) };
}

impl<S: Stream + Drop, A: Allocator + Copy> Session<S, A> {
    /// A session over a stream, with frames of at most so many bytes. It has written nothing yet.
    ///
    /// The room for a frame is taken here. Where that fails, the stream is dropped.
    pub fn new(alloc: A, stream: S, msize: usize) -> Result<Session<S, A>, NoMemory>
        requires enough { msize_min ≤ msize }
        requires within { msize ≤ msize_max }
        ensures { IfOk result (λ session. session
            ≡ record { stream = stream; msize = msize; tag = 0; failed = false; reply = [] }) }
    {
        Ok(Session {
            stream,
            frame: vec![in alloc; 0; msize]?,
            len: 0,
            msize,
            tag: 0,
            failed: false,
        })
    }

    /// The most bytes of a frame.
    pub fn msize(&self) -> usize
        ensures { result ≡ self.now.msize }
    {
        self.msize
    }

    /// Whether the session has failed.
    pub fn is_failed(&self) -> bool
        ensures { result ≡ self.now.failed }
    {
        self.failed
    }

    /// The stream.
    pub fn stream(&self) -> &S
        ensures { result.now ≡ self.now.stream }
    {
        &self.stream
    }

    /// Begins the session, as version(5): offers the session's msize, and returns the one that the
    /// server agrees on, which the session has from then on.
    ///
    /// # Errors
    ///
    /// Each of [`ClientError`]. [`ClientError::Unasked`] is an msize above the offered one or below
    /// [`MSIZE_MIN`], or another version, as `unknown`.
    pub fn version(&mut self) -> Result<usize, ClientError>
        ensures call { IsCall S.remaining S.contents (Tversion self.old.msize dialect) no_tag 101
            (AgreesOn self.old.msize) (OffersMore self.old.msize) self.old
            (record self.new { msize = self.old.msize }) result }
        ensures ok { IfOk result (λ msize. self.new.msize ≡ msize) }
        ensures err { OnErr result (self.new.msize ≡ self.old.msize) }
    {
        let offered = self.msize;
        self.ask(
            NOTAG,
            &TMsg::Version {
                msize: offered as u32,
                version: VERSION,
            },
        )?;
        let taken = agreed_msize(NOTAG, self.reply(), offered);
        match self.settled(taken) {
            Ok(msize) => {
                self.msize = msize;
                Ok(msize)
            }
            Err(error) => Err(error),
        }
    }

    /// Makes a fid for the root of a tree, as attach(5), for a user without authentication.
    ///
    /// # Errors
    ///
    /// Each of [`ClientError`].
    pub fn attach(&mut self, fid: u32, uname: &str, aname: &str) -> Result<Qid, ClientError>
        ensures { IsCall S.remaining S.contents (Tattach fid no_fid uname.now aname.now) self.old.tag
            105 IsAttached gives_no_more self.old self.new result }
    {
        let tag = self.tag;
        self.ask(
            tag,
            &TMsg::Attach {
                fid,
                afid: NOFID,
                uname,
                aname,
            },
        )?;
        let taken = attached_qid(tag, self.reply());
        self.settled(taken)
    }

    /// Walks by names from the file of a fid, as walk(5). Returns the qids of the names that lead
    /// somewhere: where these are all names, `newfid` is made for the last one, and else nothing
    /// is.
    ///
    /// # Errors
    ///
    /// Each of [`ClientError`]. [`ClientError::Unasked`] is more qids than names.
    pub fn walk(&mut self, fid: u32, newfid: u32, names: Names<'_>) -> Result<Qids, ClientError>
        ensures { IsCall S.remaining S.contents (Twalk fid newfid names.entry) self.old.tag 111
            (IsWalked (length names.entry)) (ExceedsQids (length names.entry)) self.old self.new result }
    {
        let tag = self.tag;
        let count = names.len();
        self.ask(tag, &TMsg::Walk { fid, newfid, names })?;
        let taken = walked_qids(tag, self.reply(), count);
        self.settled(taken)
    }

    /// Makes a fid ready for reading or writing, as open(5).
    ///
    /// # Errors
    ///
    /// Each of [`ClientError`].
    pub fn open(&mut self, fid: u32, mode: u8) -> Result<Opened, ClientError>
        ensures { IsCall S.remaining S.contents (Topen fid mode) self.old.tag 113 IsOpened
            gives_no_more self.old self.new result }
    {
        let tag = self.tag;
        self.ask(tag, &TMsg::Open { fid, mode })?;
        let taken = opened_file(tag, self.reply());
        self.settled(taken)
    }

    /// Makes a file in the directory of a fid, and opens it at this fid, as open(5).
    ///
    /// # Errors
    ///
    /// Each of [`ClientError`].
    pub fn create(
        &mut self,
        fid: u32,
        name: &str,
        perm: u32,
        mode: u8,
    ) -> Result<Opened, ClientError>
        ensures { IsCall S.remaining S.contents (Tcreate fid name.now perm mode) self.old.tag 115
            IsCreated gives_no_more self.old self.new result }
    {
        let tag = self.tag;
        self.ask(
            tag,
            &TMsg::Create {
                fid,
                name,
                perm,
                mode,
            },
        )?;
        let taken = created_file(tag, self.reply());
        self.settled(taken)
    }

    /// Reads from an offset on, as read(5): as many bytes as the buffer and a frame have room for.
    /// They are put at the front of the buffer, and their number is returned, which is 0 at the end
    /// of the file. What is after them is unchanged.
    ///
    /// # Errors
    ///
    /// Each of [`ClientError`]. [`ClientError::Unasked`] is more bytes than were asked for. The
    /// buffer is unchanged.
    pub fn read(&mut self, fid: u32, offset: u64, buffer: &mut [u8]) -> Result<usize, ClientError>
        ensures call { let most = min (length buffer.old) (self.old.msize - 24) in
            IsCall S.remaining S.contents (Tread fid offset most) self.old.tag 117
            (IsRead most buffer.old buffer.new) (ExceedsBytes most) self.old self.new result }
        ensures err { OnErr result (buffer.new ≡ buffer.old) }
    {
        let tag = self.tag;
        let most = buffer.len().min(self.msize - AROUND_DATA);
        self.ask(
            tag,
            &TMsg::Read {
                fid,
                offset,
                count: most as u32,
            },
        )?;
        let taken = read_into(tag, self.reply(), most, buffer);
        self.settled(taken)
    }

    /// Writes from an offset on, as read(5): the first bytes, as many as a frame has room for.
    /// Returns how many of these the server wrote.
    ///
    /// # Errors
    ///
    /// Each of [`ClientError`]. [`ClientError::Unasked`] is a greater count than was sent.
    pub fn write(&mut self, fid: u32, offset: u64, bytes: &[u8]) -> Result<usize, ClientError>
        ensures { let most = min (length bytes.now) (self.old.msize - 24) in
            IsCall S.remaining S.contents (Twrite fid offset (take most bytes.now)) self.old.tag 119
            (IsWritten most) (ExceedsCount most) self.old self.new result }
    {
        let tag = self.tag;
        let most = bytes.len().min(self.msize - AROUND_DATA);
        self.ask(
            tag,
            &TMsg::Write {
                fid,
                offset,
                bytes: &bytes[..most],
            },
        )?;
        let taken = written_count(tag, self.reply(), most);
        self.settled(taken)
    }

    /// Forgets a fid, as clunk(5).
    ///
    /// # Errors
    ///
    /// Each of [`ClientError`].
    pub fn clunk(&mut self, fid: u32) -> Result<(), ClientError>
        ensures { IsCall S.remaining S.contents (Tclunk fid) self.old.tag 121 (IsEmptyReply Rclunk)
            gives_no_more self.old self.new result }
    {
        let tag = self.tag;
        self.ask(tag, &TMsg::Clunk { fid })?;
        let taken = take_clunk(tag, self.reply());
        self.settled(taken)
    }

    /// Removes the file of a fid, and forgets the fid also where that is refused, as remove(5).
    ///
    /// # Errors
    ///
    /// Each of [`ClientError`].
    pub fn remove(&mut self, fid: u32) -> Result<(), ClientError>
        ensures { IsCall S.remaining S.contents (Tremove fid) self.old.tag 123
            (IsEmptyReply Rremove) gives_no_more self.old self.new result }
    {
        let tag = self.tag;
        self.ask(tag, &TMsg::Remove { fid })?;
        let taken = take_remove(tag, self.reply());
        self.settled(taken)
    }

    /// Asks for the stat of the file of a fid, as stat(5). Its texts are allocated by `alloc`.
    ///
    /// # Errors
    ///
    /// Each of [`ClientError`]. [`ClientError::NoMemory`] is an allocation that fails.
    pub fn stat<B: Allocator + Copy>(&mut self, alloc: B, fid: u32) -> Result<Entry<B>, ClientError>
        ensures { IsCall S.remaining S.contents (Tstat fid) self.old.tag 125 IsStat gives_no_more
            self.old self.new result }
    {
        let tag = self.tag;
        self.ask(tag, &TMsg::Stat { fid })?;
        let taken = stat_entry(alloc, tag, self.reply());
        self.settled(taken)
    }

    /// Changes the stat of the file of a fid, as stat(5).
    ///
    /// # Errors
    ///
    /// Each of [`ClientError`].
    pub fn wstat(&mut self, fid: u32, stat: Stat<'_>) -> Result<(), ClientError>
        ensures { IsCall S.remaining S.contents (Twstat fid (stat_view stat.entry)) self.old.tag 127
            (IsEmptyReply Rwstat) gives_no_more self.old self.new result }
    {
        let tag = self.tag;
        self.ask(tag, &TMsg::Wstat { fid, stat })?;
        let taken = take_wstat(tag, self.reply());
        self.settled(taken)
    }

    // The tag of the next request.
    pub(crate) fn tag(&self) -> u16
        ensures { result ≡ self.now.tag }
    {
        self.tag
    }

    // The most bytes that one read or write moves.
    pub(crate) fn data_max(&self) -> usize
        ensures value { result ≡ self.now.msize - 24 }
        ensures some { 0 < result }
        ensures small { result < 2 ^ 20 }
        ensures room { result + 24 ≤ self.now.msize }
    {
        self.msize - AROUND_DATA
    }

    // What the session allocates by.
    pub(crate) fn alloc(&self) -> A {
        *self.frame.allocator()
    }

    // Room for the bytes that a read gives.
    pub(crate) fn chunk(&self) -> Result<Vec<u8, A>, NoMemory> {
        Ok(vec![in self.alloc(); 0; self.msize - AROUND_DATA]?)
    }

    // An error of a listing or of a file, after which the session has failed where that ends it, and
    // else is unchanged.
    pub(crate) fn ended_by(&mut self, error: FileError) -> FileError
        ensures same { result ≡ error }
        ensures failed { IsTrue (ends_file error) → self.new.failed ≡ true }
        ensures unchanged { ends_file error ≡ false → self.new ≡ self.old }
    {
        if error.ends_session() {
            self.failed = true;
        }
        error
    }

    // Writes a request with its tag, and reads the frame of its reply.
    fn ask(&mut self, tag: u16, request: &TMsg<'_>) -> Result<(), ClientError>
        ensures { IsAsked S.remaining S.contents (t_view request.now) tag self.old self.new result }
    {
        self.send(tag, request)?;
        self.receive()
    }

    // Writes a request with its tag, and reads nothing.
    pub(crate) fn send(&mut self, tag: u16, request: &TMsg<'_>) -> Result<(), ClientError>
        ensures { IsSent S.remaining S.contents (t_view request.now) tag self.old self.new result }
    {
        if self.failed {
            return Err(ClientError::Over);
        }
        if !request.fits() || request.size() > self.msize {
            return Err(ClientError::TooLong);
        }
        let sent = send_request(&mut self.stream, tag, request, self.frame.as_mut_slice());
        self.tag = tag_after(self.tag);
        self.len = 0;
        match sent {
            Ok(()) => Ok(()),
            Err(error) => {
                self.failed = true;
                Err(ClientError::Stream(error))
            }
        }
    }

    // Reads the frame of a reply, and writes nothing.
    pub(crate) fn receive(&mut self) -> Result<(), ClientError>
        requires { self.old.failed ≡ false }
        ensures { IsReceived S.remaining S.contents self.old self.new result }
    {
        match receive_frame(&mut self.stream, self.msize, self.frame.as_mut_slice()) {
            Ok(Some(size)) => {
                self.len = size;
                Ok(())
            }
            Ok(None) => {
                self.len = HEADER;
                self.failed = true;
                Err(ClientError::BadSize)
            }
            Err(error) => {
                self.len = 0;
                self.failed = true;
                Err(ClientError::Stream(error))
            }
        }
    }

    // The frame that was read last.
    pub(crate) fn reply(&self) -> &[u8]
        ensures { result.now ≡ self.now.reply }
    {
        &self.frame[..self.len]
    }

    // What was taken of a reply. The session has failed where that is an error that ends it.
    pub(crate) fn settled<T>(&mut self, taken: Result<T, ClientError>) -> Result<T, ClientError>
        ensures result { result ≡ taken }
        ensures settled { IsSettled self.old self.new taken }
    {
        if let Err(error) = &taken {
            self.failed = error.ends_session();
        }
        taken
    }
}

/// The tag after another, which is never that of a version.
pub(crate) fn tag_after(tag: u16) -> u16
    ensures { result ≡ next_tag tag }
{
    if tag < NOTAG - 1 { tag + 1 } else { 0 }
}
