//! Which word of a bad line is wrong, and what is expected there.

use crate::error::LineFault;
use crate::expected::{EXPECTED_DIR, EXPECTED_NO_FILE, expected};
use crate::path::{dir_of, names_of, take_last};
use crate::reader::Reader;
use p9_base::{NoMemory, User};
use p9_tree::Tree;
use std::alloc::{AllocError, Allocator};
use std::collections::BTreeSet;

/// Which word is wrong, by its place, and what is expected there.
#[derive(Clone, Copy)]
pub(crate) struct Blame {
    pub word: usize,
    pub expected: &'static str,
}

/// Which of the words of a bad line is wrong. The world has the lines above it.
pub(crate) fn blamed<T: Tree>(
    alloc: T::Alloc,
    world: &Reader<T>,
    kind: LineFault,
    words: &[&str],
) -> Result<Blame, NoMemory> {
    match (kind, words) {
        (LineFault::NoParent, ["hide", server, path]) => Ok(Blame {
            word: 2,
            expected: if is_file(alloc, world, server, path)? {
                EXPECTED_NO_FILE
            } else {
                EXPECTED_DIR
            },
        }),
        (LineFault::Duplicate, ["group", name, _, members @ ..]) => Ok(Blame {
            word: named_twice(alloc, world, name, members)?,
            expected: expected(kind, "group"),
        }),
        _ => Ok(Blame {
            word: place_of(kind, words),
            expected: expected(kind, word_at(words, 0)),
        }),
    }
}

// The word of this place.
fn word_at<'a>(words: &[&'a str], place: usize) -> &'a str {
    words.get(place).copied().unwrap_or("")
}

// The place of the word that is wrong, by the words alone.
fn place_of(kind: LineFault, words: &[&str]) -> usize {
    let verb = word_at(words, 0);
    match kind {
        LineFault::UnknownWord | LineFault::WordCount => 0,
        LineFault::NoServer | LineFault::BadName | LineFault::TooLarge | LineFault::TooMany => 1,
        LineFault::BadPath | LineFault::NoParent | LineFault::Duplicate => {
            if verb == "hide" { 2 } else { 1 }
        }
        LineFault::BadMode => 2,
        LineFault::BadUser => bad_user(
            words,
            if verb == "dir" || verb == "file" {
                3
            } else {
                1
            },
        ),
        LineFault::BadHex => 5,
    }
}

// The place of the first word from this one on that is no user's name.
fn bad_user(words: &[&str], from: usize) -> usize {
    let mut place = 0usize;
    for word in words {
        if from <= place && User::new(word).is_none() {
            return place;
        }
        place = place.saturating_add(1);
    }
    from
}

// The place of the word of a group's line that is there before: its name, if a line above has that, or
// else the first member that is named a second time.
fn named_twice<T: Tree>(
    alloc: T::Alloc,
    world: &Reader<T>,
    name: &str,
    members: &[&str],
) -> Result<usize, AllocError> {
    match User::new(name) {
        Some(name) if world.groups.contains(&name) => Ok(1),
        _ => second_of(alloc, members, 3),
    }
}

// The place of the first name that is there a second time, where the first has this one.
fn second_of<A: Allocator + Copy>(
    alloc: A,
    names: &[&str],
    first: usize,
) -> Result<usize, AllocError> {
    let mut before = BTreeSet::new(alloc);
    let mut place = first;
    for name in names {
        if !before.insert(*name)? {
            return Ok(place);
        }
        place = place.saturating_add(1);
    }
    Ok(1)
}

// Whether a path leads to something in the directory that its other names lead to.
fn is_file<T: Tree>(
    alloc: T::Alloc,
    world: &Reader<T>,
    server: &str,
    path: &str,
) -> Result<bool, NoMemory> {
    let (Some(server), Some(mut names)) = (
        world.server_positions.of(server),
        names_of(alloc, path)?,
    ) else {
        return Ok(false);
    };
    let Some(name) = take_last(&mut names) else {
        return Ok(false);
    };
    let Some(tree) = world.trees.get(server) else {
        return Ok(false);
    };
    match dir_of(tree, names.as_slice()) {
        Some(dir) => Ok(tree.child(dir, &name).is_some()),
        None => Ok(false),
    }
}
