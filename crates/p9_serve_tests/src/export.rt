//! Tests of the exporter: messages with each request for memory refused in turn, memory that is freed, and the
//! texts of errors. And of p9_nsfile, a run in which an allocation fails. Each is over both kinds of tree, and
//! requires the same bytes of both.

mod both;
mod errors;
mod exchange;
mod exporters;
mod given_back;
mod growth;
mod large;
mod many;
mod nsfile;
mod refused_messages;
mod refused_scripts;
mod sent_again;
