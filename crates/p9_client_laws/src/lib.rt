//! The client and the exporter together, as laws: over a stream on which the replies of the exporter
//! come back, a client reads what the exporter's files have. The exporter's replies are those of its
//! step, and what the client does is what the contracts of its calls say. Each function does nothing:
//! its clauses are the laws.
#![tactic(auto)]

ghost use Rattle.p9_client_laws.specs.Reading.{FileIsReadWhole, ReadGivesBytes};

use p9_client::Stream;

/// A read of a file gives its bytes from the offset on, as many as were asked for and are there.
pub fn a_read_gives_the_bytes_of_the_file<S: Stream>()
    ensures { ReadGivesBytes S.remaining S.contents }
{}

/// A file that is read to its end, by reads of which some may be ahead, is read whole: what was
/// written to the writer are its bytes.
pub fn a_file_is_read_whole<S: Stream>()
    ensures { FileIsReadWhole S.remaining S.contents }
{}
