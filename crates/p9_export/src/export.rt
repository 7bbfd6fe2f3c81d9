//! The exporter: the state, and what each event makes of it.

ghost use Rattle.std.specs.Prelude.{◌≡◌, ◌≤◌, ◌↔◌, [], Err, None, false, IfSome, IsSome, IsTrue};
ghost use Rattle.std.specs.Prelude.{OnErr};
ghost use Rattle.std.specs.Prelude.{OnOk, length, take, unwrap_or};
ghost use Rattle.p9_step.specs.Event.{Open, Message, Close};
ghost use Rattle.p9_step.specs.State.{session_at};
ghost use Rattle.p9_step.specs.Memory.{is_no_memory_reply};
ghost use Rattle.p9_step.specs.Sound.{IsState};
ghost use Rattle.p9_step.specs.Step.{step};
ghost use Rattle.p9_step.specs.Laws.{reply_max};
ghost use Rattle.std.specs.List.{list_all};
ghost use Rattle.p9_base.specs.User.{is_user};
ghost use Rattle.p9_space.specs.Given.{is_table_given};
ghost use Rattle.p9_tree.specs.Journal.{IsSettled, IsSynced, Keeps, KeepsIfAny};
ghost use Rattle.p9_wire.specs.Frame.{is_frame, msize_max};
ghost use Rattle.p9_export.specs.declared.export.OpenError.TheVariants.{Live};
ghost use Rattle.p9_export.specs.Room.{reply_room};

use p9_base::{Groups, User};
use p9_requests::answer::answer;
use p9_requests::{Session, Setting, end_fids, tag_of, write_reply};
use p9_space::MountTable;
use p9_tree::{Forest, Tree, Unsettled};
use std::collections::BTreeMap;
use std::marker::Model;
use thiserror::Error;

/// Why no session is opened.
#[derive(Clone, Copy, Debug, PartialEq, Eq, Error)]
pub enum OpenError {
    /// A session of this name is open.
    #[error("session is open")]
    Live,
    /// An allocation failed.
    #[error("out of memory")]
    NoMemory,
}

/// The exporter: the trees, the mount table, the users and the groups, and the open sessions by
/// name.
#[derive(Drop)]
pub struct Export<T: Tree> {
    setting: Setting<T::Alloc>,
    forest: Forest<T>,
    sessions: BTreeMap<u32, Session<T::Alloc>, T::Alloc>,
}

impl<T: Tree> Model for Export<T> {
    ghost use Rattle.p9_step.specs.State.{State};
    ghost use Rattle.p9_walks.specs.Held.{sessions_in};
    ghost use Rattle.p9_export.specs.Kept.{IsKept};

    ghost Value = { State };

    ghost view = { λ e. record {
      setting = e.setting;
      forest = e.forest;
      sessions = sessions_in e.sessions.entries;
    } };

    ghost invariant = { λ e. IsKept e.setting e.forest e.sessions.entries };
}

impl<T: Tree> Export<T> {
    /// An exporter of these trees by this mount table, to these users and groups, without sessions.
    /// This takes no memory. No key and no member of the table is a node that is still to be made:
    /// [`p9_space::is_table_given`] tests that.
    pub fn new(
        forest: Forest<T>,
        users: Vec<User, T::Alloc>,
        groups: Groups<T::Alloc>,
        table: MountTable<T::Alloc>,
    ) -> Export<T>
        requires { IsTrue (is_table_given forest table) }
        ensures { result ≡ record {
          setting = record { users = users.items; groups = groups; table = table };
          forest = forest;
          sessions = [];
        } }
    {
        forest.well_formed();
        prove_users_valid(users.as_slice());
        groups.well_formed();
        table.well_formed();
        let alloc = *users.allocator();
        Export {
            setting: Setting {
                alloc,
                users,
                groups,
                table,
            },
            forest,
            sessions: BTreeMap::new(alloc),
        }
    }

    /// What is kept of each exporter: its state is one that an exporter can come to. This does
    /// nothing when it runs; it is for a caller that has to know so.
    pub fn well_formed(&self)
        ensures { IsState self.now }
    {
        self.forest.well_formed();
    }

    /// Whether a session of this name is open.
    pub fn live(&self, name: u32) -> bool
        ensures { IsTrue result ↔ IsSome (session_at name self.now.sessions) }
    {
        self.sessions.contains_key(&name)
    }

    /// The most bytes that a reply to the session of this name has: its msize, and 43 before a
    /// version. It is `None` where no session of this name is open.
    pub fn reply_max(&self, name: u32) -> Option<usize>
        ensures max { result ≡ reply_room name self.now }
        ensures live { IsSome result ↔ IsSome (session_at name self.now.sessions) }
        ensures small { IfSome result (λ size. size ≤ msize_max) }
    {
        Some(self.sessions.get(&name)?.reply_max())
    }

    /// Opens a session.
    ///
    /// A session of this name that is open is [`OpenError::Live`]; a failed allocation is
    /// [`OpenError::NoMemory`]. The exporter is unchanged then.
    pub fn open(&mut self, name: u32) -> Result<(), OpenError>
        ensures ok { OnOk result ((session_at name self.old.sessions ≡ None) × (self.new
            ≡ (step self.old (Open name) false).state)) }
        ensures live { (result ≡ Err Live) ↔ IsSome (session_at name self.old.sessions) }
        ensures unchanged { OnErr result (self.new ≡ self.old) }
    {
        if self.sessions.contains_key(&name) {
            return Err(OpenError::Live);
        }
        match self.sessions.insert(name, self.setting.session()) {
            Ok(_) => Ok(()),
            Err(_) => Err(OpenError::NoMemory),
        }
    }

    /// Closes a session: its fids end, by rising number, as clunk(5). A file that one holds open
    /// with remove-on-close is removed, and its directory is marked at `clock`, which is in seconds
    /// since 1970, modulo 2^32. This takes no memory.
    pub fn close(&mut self, name: u32, clock: u32)
        requires { IsSome (session_at name self.old.sessions) }
        ensures { self.new ≡ (step self.old (Close name clock) false).state }
    {
        self.forest.well_formed();
        if let Some(mut session) = self.sessions.remove(&name) {
            end_fids(&self.setting, &mut self.forest, &mut session.fids, clock);
        }
    }

    /// Answers one frame of an open session: writes the reply at the front of the buffer, and
    /// returns its length, which is no more than the session's msize, and before a version than 43.
    /// What the buffer holds after the reply is undefined, and is not to be handed on. The buffer
    /// has at least as many bytes as [`Export::reply_max`] says. `clock` is in seconds since 1970,
    /// modulo 2^32.
    ///
    /// Every frame gets exactly one reply. Where that is [`p9_base::Fault::OutOfMemory`], the
    /// exporter is unchanged. Only a walk, a create, a write or a wstat that nothing else refuses
    /// is answered so, or an attach that no test refuses that looks at no file.
    pub fn message(&mut self, name: u32, frame: &[u8], clock: u32, reply: &mut [u8]) -> usize
        requires live { IsSome (session_at name self.old.sessions) }
        requires whole { IsTrue (is_frame frame.now) }
        requires room { unwrap_or (reply_room name self.old) 0 ≤ length reply.old }
        ensures within { result ≤ length reply.old }
        ensures short { IfSome (session_at name self.old.sessions) (λ session. result
            ≤ reply_max session) }
        ensures state { self.new ≡ (step self.old (Message name frame.now clock)
            (is_no_memory_reply frame.now (take result reply.new))).state }
        ensures bytes { take result reply.new
            ≡ (step self.old (Message name frame.now clock) (is_no_memory_reply frame.now
            (take result reply.new))).reply }
    {
        self.forest.well_formed();
        let tag = tag_of(frame);
        let answered = answer(
            &self.setting,
            &mut self.forest,
            &mut self.sessions,
            name,
            clock,
            frame,
            reply,
        );
        write_reply(&self.forest, &answered, tag, reply)
    }

    /// The trees.
    pub fn forest(&self) -> &Forest<T>
        ensures { result.now ≡ self.now.forest }
    {
        &self.forest
    }

    /// Notes all changes of the trees from now on in the journal, as [`Forest::keep`].
    pub fn keep(&mut self, journal: T::Journal)
        requires { Keeps T.Journal.is_whole T.Journal.stands_for journal self.old.forest }
        ensures { self.new ≡ self.old }
    {
        self.forest.keep(journal);
    }

    /// Takes the journal out, as [`Forest::take_journal`].
    pub fn take_journal(&mut self) -> Option<T::Journal>
        ensures same { self.new ≡ self.old }
        ensures kept { KeepsIfAny T.Journal.is_whole T.Journal.stands_for result self.old.forest }
    {
        self.forest.take_journal()
    }

    /// Bounds what the journal holds in memory, as [`Forest::relieve`].
    pub fn relieve(&mut self)
        ensures { self.new ≡ self.old }
    {
        self.forest.relieve();
    }

    /// Makes all changes of the trees outlast the process, as [`Forest::settle`].
    pub fn settle(&mut self) -> Result<(), Unsettled>
        ensures same { self.new ≡ self.old }
        ensures settled { OnOk result (IsSettled T.Journal.is_whole T.Journal.stands_for
            T.Journal.may_stay self.new.forest) }
    {
        self.forest.settle()
    }

    /// Makes all changes of the trees outlast the machine, as [`Forest::sync`].
    pub fn sync(&mut self) -> Result<(), Unsettled>
        ensures same { self.new ≡ self.old }
        ensures synced { OnOk result (IsSynced T.Journal.is_whole T.Journal.stands_for
            T.Journal.may_stay T.Journal.may_stand self.new.forest) }
    {
        self.forest.sync()
    }
}

// Proves that each name of the list is a user's, since the type of a user keeps that. It changes
// nothing.
fn prove_users_valid(users: &[User])
    ensures { IsTrue (list_all is_user users.now) }
{
    for user in users {
        let _name = user.as_str();
    }
}
