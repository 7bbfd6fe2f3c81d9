//! Reads row files.

use crate::body::Body;
use crate::fault::{Fault, LineFault};
use crate::row::{Part, Row};
use std::alloc::{AllocError, Global};

/// The rows of a file's text. Its parts are added to those of the files above, which it may put in.
pub fn read_rows(alloc: Global, text: &str, parts: &mut Vec<Part>) -> Result<Vec<Row>, Fault> {
    let mut rows = Vec::new(alloc);
    let mut open = Open::Nothing;
    for (position, line) in text.split('\n').enumerate() {
        if let Err(why) = read_line(alloc, line, &mut open, parts, &mut rows) {
            let line = position.saturating_add(1);
            return Err(Fault { line, why });
        }
    }
    Ok(rows)
}

// What the lines are in.
#[derive(Clone, Copy)]
enum Open {
    Nothing,
    // The last row.
    Row,
    // The last part.
    Part,
}

// Reads a line. A head begins a row or a part, and a blank line ends it.
fn read_line(
    alloc: Global,
    line: &str,
    open: &mut Open,
    parts: &mut Vec<Part>,
    rows: &mut Vec<Row>,
) -> Result<(), LineFault> {
    let (mark, rest) = line.split_once(' ').unwrap_or((line, ""));
    *open = match mark {
        "==" => begin_row(alloc, rest, false, rows)?,
        "!=" => begin_row(alloc, rest, true, rows)?,
        "--" => begin_part(alloc, rest, parts)?,
        "" if line.is_empty() => Open::Nothing,
        _ => return read_body_line(line, *open, parts, rows),
    };
    Ok(())
}

fn begin_row(
    alloc: Global,
    head: &str,
    is_to_differ: bool,
    rows: &mut Vec<Row>,
) -> Result<Open, LineFault> {
    rows.push(Row::begun(alloc, head, is_to_differ)?)?;
    Ok(Open::Row)
}

fn begin_part(alloc: Global, name: &str, parts: &mut Vec<Part>) -> Result<Open, LineFault> {
    if part_of(parts.as_slice(), name).is_some() {
        return Err(LineFault::PartTwice);
    }
    parts.push(Part::begun(alloc, name)?)?;
    Ok(Open::Part)
}

// Reads a line of a row or a part. Outside of them it may be a comment.
fn read_body_line(
    line: &str,
    open: Open,
    parts: &mut [Part],
    rows: &mut [Row],
) -> Result<(), LineFault> {
    match open_body(open, parts, rows) {
        Some((body, above)) => add_line(body, line, above),
        None if line.starts_with('#') => Ok(()),
        None => Err(LineFault::Outside),
    }
}

// The body that the lines are in, and the parts above it.
fn open_body<'a>(
    open: Open,
    parts: &'a mut [Part],
    rows: &'a mut [Row],
) -> Option<(&'a mut Body, &'a [Part])> {
    match open {
        Open::Nothing => None,
        Open::Row => Some((&mut rows.last_mut()?.body, parts)),
        Open::Part => {
            let (part, above) = parts.split_last_mut()?;
            Some((&mut part.body, above))
        }
    }
}

// Adds what a line says to a body. Without a mark it is a line of the input.
fn add_line(body: &mut Body, line: &str, parts: &[Part]) -> Result<(), LineFault> {
    let (mark, rest) = line.split_once(' ').unwrap_or((line, ""));
    match mark {
        "<" => push_line(&mut body.wanted.out, rest)?,
        "!" => push_line(&mut body.wanted.err, rest)?,
        "=" => body.wanted.status = rest.parse::<u8>().map_err(|_| LineFault::BadStatus)?,
        "&" => body.add(part_of(parts, rest).ok_or(LineFault::NoSuchPart)?)?,
        "*" => push_bytes(&mut body.input, rest)?,
        _ => push_line(&mut body.input, line)?,
    }
    Ok(())
}

// The body of the part of this name.
fn part_of<'a>(parts: &'a [Part], name: &str) -> Option<&'a Body> {
    let part = parts.iter().find(|part| part.name.as_str() == name)?;
    Some(&part.body)
}

// Adds a line. With a backslash at its end it has no newline.
fn push_line(text: &mut Vec<u8>, line: &str) -> Result<(), AllocError> {
    match line.strip_suffix('\\') {
        Some(line) => text.extend_from_slice(line.as_bytes()),
        None => {
            text.extend_from_slice(line.as_bytes())?;
            Ok(text.push(b'\n')?)
        }
    }
}

// Adds the bytes that hexadecimal digits write.
fn push_bytes(text: &mut Vec<u8>, digits: &str) -> Result<(), LineFault> {
    let bytes = hex::decode(*text.allocator(), digits)?;
    Ok(text.extend_from_slice(bytes.as_slice())?)
}
