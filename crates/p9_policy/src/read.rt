//! The certificate of a text.

ghost use Rattle.std.specs.Prelude.{◌≡◌, ◌<◌, [], IfErr, IfOk, IfSome, Ok, OnOk, map};
ghost use Rattle.p9_base.specs.Results.{try_fold};
ghost use Rattle.p9_base.specs.Statement.{statement_view};
ghost use Rattle.p9_tree.specs.Server.{next_max};
ghost use Rattle.p9_policy.specs.Text.{IsReadError, certificate_of, is_head, row_in, with_statement};

use crate::certificate::Certificate;
use crate::rows::may_follow;
use p9_base::{NoMemory, NodeRef, SERVERS_MAX, Statement, number, statements};
use p9_tree::NEXT_MAX;
use std::alloc::Allocator;
use thiserror::Error;

/// Why a text is no certificate.
#[derive(Clone, Copy, Debug, PartialEq, Eq, Error)]
pub enum ReadError {
    /// This line is the first bad one. Lines count from 1, which is also given for a text that says
    /// nothing.
    #[error("line {line} is bad")]
    BadCert { line: u64 },
    /// An allocation failed.
    #[error("out of memory")]
    NoMemory,
}

/// Every error that [`p9_base::NoMemory`] is made from says that an allocation failed.
impl<E: Drop> From<E> for ReadError
where
    NoMemory: From<E>,
{
    ghost use Rattle.std.specs.Prelude.{◌≡◌};
    ghost use Rattle.p9_policy.specs.declared.read.ReadError.TheVariants.{NoMemory as OutOfMemory};

    ghost from_gives = { λ _ error. error ≡ OutOfMemory };

    fn from(_error: E) -> ReadError {
        ReadError::NoMemory
    }
}

/// The certificate that a text writes.
///
/// Its first line is `cert 1`, spelled so, and each other line `dir SERVER NUMBER`: decimal
/// numbers below 2^16 and 2^48, strictly rising by server, then number. Blank lines and comments
/// are passed over, and counted. The first other line is [`ReadError::BadCert`], and so is line 1
/// of a text without any; a failed allocation is [`ReadError::NoMemory`].
pub fn read_cert<A: Allocator + Copy>(alloc: A, text: &str) -> Result<Certificate<A>, ReadError>
    ensures ok { IfOk result (λ certificate. certificate_of text.now ≡ Ok certificate) }
    ensures err { IfErr result (IsReadError (certificate_of text.now)) }
{
    let statements = statements(alloc, text)?;
    let Some((head, others)) = statements.as_slice().split_first() else {
        return Err(ReadError::BadCert { line: 1 });
    };
    if !is_head(head.words.as_slice()) {
        return Err(ReadError::BadCert { line: head.line });
    }
    read_rows(alloc, others)
}

// The certificate of the statements after the first.
fn read_rows<A: Allocator + Copy>(
    alloc: A,
    statements: &[Statement<'_, A>],
) -> Result<Certificate<A>, ReadError>
    ensures ok { IfOk result (λ certificate.
        try_fold with_statement [] (map statement_view statements.now) ≡ Ok certificate) }
    ensures err { IfErr result
        (IsReadError (try_fold with_statement [] (map statement_view statements.now))) }
{
    let mut certificate = Certificate::new(alloc);
    for statement in statements {
        read_statement(&mut certificate, statement)?;
    }
    Ok(certificate)
}

/// Whether the words are `cert 1`.
pub(crate) fn is_head(words: &[&str]) -> bool
    ensures { result ≡ is_head (map (λ word. word.now) words.now) }
{
    match words {
        [verb, version] => *verb == "cert" && *version == "1",
        _ => false,
    }
}

// Adds the row of one statement.
fn read_statement<A: Allocator + Copy>(
    certificate: &mut Certificate<A>,
    statement: &Statement<'_, A>,
) -> Result<(), ReadError>
    ensures ok { OnOk result
        (with_statement certificate.old (statement_view statement.now) ≡ Ok certificate.new) }
    ensures err { IfErr result
        (IsReadError (with_statement certificate.old (statement_view statement.now))) }
{
    let bad = ReadError::BadCert {
        line: statement.line,
    };
    let Some(row) = row_in(statement.words.as_slice()) else {
        return Err(bad);
    };
    if !may_follow(certificate.rows(), row) {
        return Err(bad);
    }
    certificate.push(row)?;
    Ok(())
}

/// The row that the words of a line say, if they say one.
pub(crate) fn row_in(words: &[&str]) -> Option<NodeRef>
    ensures row { result ≡ row_in (map (λ word. word.now) words.now) }
    ensures number { IfSome result (λ row. row.number < next_max) }
{
    let [verb, server, node] = words else {
        return None;
    };
    if *verb != "dir" {
        return None;
    }
    let server = number(server, SERVERS_MAX as u64)?;
    let number = number(node, NEXT_MAX)?;
    Some(NodeRef {
        server: server as u16,
        number,
    })
}
