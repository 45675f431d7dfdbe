//! What a member makes of what a client sends. The functions compute nothing: their contracts are the laws.

ghost use Rattle.request_codecs.specs.Laws.{EveryRequestIsRead, EveryRequestIsReaddressed};

/// The session of a member reads a request of a client, which made itself known there, as exactly the call that was asked
/// for, in its partition, under its correlation.
pub fn every_request_is_read()
    ensures { EveryRequestIsRead }
{}

/// A request has its correlation where `readdressed` puts another one, and is then the same call's.
pub fn every_request_is_readdressed()
    ensures { EveryRequestIsReaddressed }
{}
