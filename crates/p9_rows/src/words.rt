//! Rows in words: a script in words as frames, the exchange of what is played of it, and whether
//! each frame of a text is read back from its words.

use crate::body::Ending;
use p9_base::NoMemory;
use p9_commands::run_command_over;
use p9_exchange::{Stop, show_exchange, write_script};
use p9_tree::Tree;
use p9_wire::{read_r, read_t};
use p9_words::{WordsError, print_reply, print_request, read_words};
use std::alloc::{AllocError, Global};

/// How the program `p9_fcall` ends over an input in words.
pub fn frames(alloc: Global, input: &[u8]) -> Result<Ending, AllocError> {
    match write_script(alloc, input) {
        Ok(text) => Ok(Ending {
            out: text.into_bytes(),
            err: Vec::new(alloc),
            status: 0,
        }),
        Err(stop) => refused(alloc, stop),
    }
}

/// How `p9_fcall exchange` ends over an input in words, of which p9 has played what
/// [`frames`] writes.
pub fn exchange<T: Tree<Alloc = Global>>(
    alloc: Global,
    input: &[u8],
) -> Result<Ending, AllocError> {
    let written = frames(alloc, input)?;
    if written.status != 0 {
        return Ok(written);
    }
    let played = played::<T>(alloc, "play", written.out.as_slice())?;
    let text = with_replies(alloc, input, played.out.as_slice())?;
    match show_exchange(alloc, text.as_slice()) {
        Ok(out) => Ok(Ending {
            out,
            err: played.err,
            status: played.status,
        }),
        Err(stop) => refused(alloc, stop),
    }
}

// An input in words with the section of these replies.
fn with_replies(alloc: Global, input: &[u8], replies: &[u8]) -> Result<Vec<u8>, AllocError> {
    let mut text = Vec::from_slice(alloc, input)?;
    text.extend_from_slice(b"%% replies\n")?;
    text.extend_from_slice(replies)?;
    Ok(text)
}

/// How a command of p9 ends over an input, with a tree of this kind for each server.
pub fn played<T: Tree<Alloc = Global>>(
    alloc: Global,
    command: &str,
    input: &[u8],
) -> Result<Ending, AllocError> {
    let mut out = Vec::new(alloc);
    let mut err = Vec::new(alloc);
    match run_command_over::<T>(command, input, &mut out, &mut err) {
        Ok(status) => Ok(Ending { out, err, status }),
        Err(NoMemory) => Err(AllocError),
    }
}

// What is printed of an input that is refused.
fn refused(alloc: Global, stop: Stop) -> Result<Ending, AllocError> {
    match stop {
        Stop::Refused(refusal) => Ok(Ending {
            out: Vec::new(alloc),
            err: format!(in alloc; "{refusal}\n")?.into_bytes(),
            status: 1,
        }),
        Stop::NoMemory => Err(AllocError),
    }
}

/// The first word of a text that is the frame of a message and is not read back from the words that
/// are printed of it, if there is one.
pub fn first_not_read_back<'a>(
    alloc: Global,
    text: &'a str,
) -> Result<Option<&'a str>, AllocError> {
    for word in text.split([' ', '\n']) {
        if !is_read_back(alloc, word)? {
            return Ok(Some(word));
        }
    }
    Ok(None)
}

// Whether a word is no frame of a message, or is read back.
fn is_read_back(alloc: Global, digits: &str) -> Result<bool, AllocError> {
    match hex::decode(alloc, digits) {
        Ok(frame) => is_frame_read_back(alloc, frame.as_slice()),
        Err(_) => Ok(true),
    }
}

// Whether bytes are no frame of a message, or are read back.
fn is_frame_read_back(alloc: Global, frame: &[u8]) -> Result<bool, AllocError> {
    let mut words = Vec::new(alloc);
    if !is_printed(frame, &mut words)? {
        return Ok(true);
    }
    let Ok(line) = str::from_utf8(words.as_slice()) else {
        return Ok(false);
    };
    match read_words(alloc, line) {
        Ok(read) => Ok(read.as_slice() == frame),
        Err(WordsError::NoMemory) => Err(AllocError),
        Err(_) => Ok(false),
    }
}

// Prints the message of a frame, and returns whether there is one.
fn is_printed(frame: &[u8], words: &mut Vec<u8>) -> Result<bool, AllocError> {
    let printed = match (read_t(frame), read_r(frame)) {
        (Some((tag, message)), _) => print_request(&message, tag, words),
        (_, Some((tag, message))) => print_reply(&message, tag, words),
        (None, None) => return Ok(false),
    };
    match printed {
        Ok(()) => Ok(true),
        Err(NoMemory) => Err(AllocError),
    }
}
