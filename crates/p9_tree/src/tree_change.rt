//! A change of a tree, as a value.

use crate::change::Change;
use crate::new::New;
use crate::saved::Saved;
use p9_base::{Permissions, User};

/// A change of a server's tree, each as the method of [`Tree`](crate::Tree) that makes it. Reading
/// a file isn't one: it changes no more than the time of last access.
#[derive(Clone, Copy)]
pub enum TreeChange<'a> {
    /// [`set_root`](crate::Tree::set_root).
    SetRoot {
        permissions: Permissions,
        uid: User,
        gid: User,
    },
    /// [`add`](crate::Tree::add): the node gets the next number.
    Create {
        dir: u64,
        new: New<'a>,
    },
    /// [`drop_leaf`](crate::Tree::drop_leaf).
    Remove {
        number: u64,
    },
    /// [`change`](crate::Tree::change).
    Wstat {
        number: u64,
        change: Change,
    },
    /// [`bump`](crate::Tree::bump).
    Mark {
        number: u64,
        user: User,
        clock: u32,
    },
    /// [`write`](crate::Tree::write).
    Write {
        number: u64,
        offset: u64,
        bytes: &'a [u8],
    },
    /// [`cut`](crate::Tree::cut).
    Truncate {
        number: u64,
        size: u64,
    },
    /// [`put_back`](crate::Tree::put_back).
    PutBack {
        saved: Saved<'a>,
    },
    /// [`skip_to`](crate::Tree::skip_to).
    Skip {
        next: u64,
    },
}
