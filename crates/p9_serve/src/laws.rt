//! The laws of a server's life, and those of lists of turns. Each function does nothing: its clauses
//! are the laws.

ghost use Rattle.p9_serve.specs.Laws.{ClientsAreSentTheirReplies, EachClientGetsItsReplies};
ghost use Rattle.p9_serve.specs.Laws.{EachVisitIsAnswered, EveryLifeIsPromised};
ghost use Rattle.p9_serve.specs.Laws.{EveryServedGuardIsPromised, EveryServingIsPromised};
ghost use Rattle.p9_serve.specs.Laws.{InputsBecomeReplies, StreamsHoldTheReplies};

pub use p9_conn::laws::{
    a_history_is_a_run, a_history_is_promised, bytes_become_replies, frames_come_in_order,
    replies_go_out,
};

/// The theorem, of a server's whole life: from a new server over a guard, through any rounds in
/// which clients are taken in, have turns, end, and leave their keys to others, to the end of all
/// sessions. The guard's state and all replies are those of the run of the openings, messages and
/// closings, in their order. Nothing inside a hidden directory changes, and no byte that any client
/// is answered depends on what is there.
///
/// [`Server::round`](crate::Server::round) makes a round, and
/// [`Server::finish`](crate::Server::finish) ends all sessions.
pub fn every_life_is_promised<S>()
    ensures { EveryLifeIsPromised S }
{}

/// So of a guard that was served for some rounds, as `WasServed` says: its life is one of those,
/// from a new server over it to the guard that is left.
pub fn every_served_guard_is_promised<S>()
    ensures { EveryServedGuardIsPromised S }
{}

/// The theorem, of what the program serves: where [`run_serve`](crate::run_serve) returns 0, its
/// input offers a guard, and the theorem holds of the life of that guard.
pub fn every_serving_is_promised()
    ensures { EveryServingIsPromised }
{}

/// What a client's connection has written, with what is pending, is the replies to it, in their
/// order, until its key is given to another client, also where another had the key before.
pub fn clients_are_sent_their_replies<S>()
    ensures { ClientsAreSentTheirReplies S }
{}

/// A stream whose content is known: as long as a client has its key, its stream holds what it held
/// when the client arrived, and then the replies to that client, up to what is pending, also where
/// another had the key before.
pub fn streams_hold_the_replies<S>()
    ensures { StreamsHoldTheReplies S }
{}

/// From the bytes that a client sent to those that it got, in any moments, also where another client
/// had its key before: what was read is what its stream gave; its frames are the first ones of those
/// bytes; its stream holds what it held when it came, and then the replies to these frames, up to
/// what is pending.
pub fn each_visit_is_answered<S>()
    ensures { EachVisitIsAnswered S }
{}

/// So of a guard that was served to those who come to a listener: they were given out in the order
/// in which they were to come, each was dropped or taken in, and who was taken in was answered so,
/// in the life of which [`every_life_is_promised`] speaks.
pub fn each_client_gets_its_replies<S>()
    ensures { EachClientGetsItsReplies S }
{}

/// The same from the bytes of an input on: the guard is the one that it offers. Where
/// [`serve_clients`](crate::serve_clients) returns a guard, this is so.
pub fn inputs_become_replies<S>()
    ensures { InputsBecomeReplies S }
{}
