//! Near clients in the runs of a script's lines: how a run goes with the near cache's machine, in which it is proved what a
//! hit is worth.
//!
//! The functions compute nothing: their contracts are what holds of every run.
#![tactic(auto)]

ghost use Rattle.near_run_laws.specs.Attaching.{EveryOpeningAttaches};
ghost use Rattle.near_run_laws.specs.Feeds.{EveryFeedIsFollowed};
ghost use Rattle.near_run_laws.specs.Following.{EveryEventIsFollowed, EveryHearingIsFollowed, EveryHitIsFollowed, EveryMissIsFollowed, EveryOtherCallIsFollowed, EveryOtherStepIsAside};
ghost use Rattle.near_run_laws.specs.Clients.{EveryMessageIsHeard};
ghost use Rattle.near_run_laws.specs.FollowingInVain.{EveryMissInVainIsFollowed};
ghost use Rattle.near_run_laws.specs.Hearings.{EveryAnswerIsHeard, EveryRefusalIsHeard};
ghost use Rattle.near_run_laws.specs.Lines.{EveryOtherLineIsFollowed};
ghost use Rattle.near_run_laws.specs.Looks.{EveryHitIsTheMachines, EveryMissIsTheMachines};
ghost use Rattle.near_run_laws.specs.Maps.{EveryMapIsKeyed};
ghost use Rattle.near_run_laws.specs.Modest.{EveryLineStaysProper};
ghost use Rattle.near_run_laws.specs.NearConnections.{EveryCallSays, EveryEventSays};
ghost use Rattle.near_run_laws.specs.NearHits.{EveryHitOfANearClientStands};
ghost use Rattle.near_run_laws.specs.NearRuns.{EveryNearRunGoesWell};
ghost use Rattle.near_run_laws.specs.OwnLines.{EveryGetLineIsFollowed, EveryOpeningLineIsFollowed};
ghost use Rattle.near_run_laws.specs.Pieces.{EveryPieceIsHeard};
ghost use Rattle.near_run_laws.specs.Readings.{EveryOutputIsHeard};
ghost use Rattle.near_run_laws.specs.Speaking.{EveryMessageSaysIt};
ghost use Rattle.near_run_laws.specs.Spoken.{EveryNearRunSpeaks};
ghost use Rattle.near_run_laws.specs.Sessions.{EveryGetIsHeard, EveryGetIsServed, EveryOpeningIsHeard, EveryOpeningIsServed};

/// Each map of a grid is one that the near cache's machine can go by: it tells keys apart, has each key in its partition, and
/// takes no change for one that isn't an effect.
pub fn every_map_is_keyed()
    ensures { EveryMapIsKeyed }
{}

/// What a call or another event brings to a near connection is what the machine says at that event: a row that the
/// connection's member adopts, the refusal of its own call, and for each release the invalidation of the key that the call
/// changed, and the answer, in that order.
pub fn every_event_says_what_the_machine_says()
    ensures call { EveryCallSays }
    ensures event { EveryEventSays }
{}

/// What a near client sends first makes it known and registers it twice.
pub fn every_opening_is_heard()
    ensures items { EveryOpeningIsHeard }
    ensures line { EveryOpeningIsServed }
{}

/// A get that a near client sends is heard as the call that the machine makes, under the number of its message, and asks for
/// that call at the connection's member.
pub fn every_get_is_heard()
    ensures item { EveryGetIsHeard }
    ensures line { EveryGetIsServed }
{}

/// However a near client reads its connection's output, it hears its messages in order, each once, as its bytes are complete.
pub fn every_output_is_heard()
    ensures { EveryOutputIsHeard }
{}

/// After its opening a near client is attached as the machine's is: it listens, and is told all rows that its member knows.
pub fn every_opening_attaches()
    ensures { EveryOpeningAttaches }
{}

/// A run goes with the machine of a near client, step by step: its grid is the machine's, and what was sent on the client's
/// connection since it came is what the machine said.
pub fn every_run_is_followed()
    ensures aside { EveryOtherStepIsAside }
    ensures event { EveryEventIsFollowed }
    ensures call { EveryOtherCallIsFollowed }
    ensures miss { EveryMissIsFollowed }
    ensures vain { EveryMissInVainIsFollowed }
    ensures hit { EveryHitIsFollowed }
    ensures hearing { EveryHearingIsFollowed }
{}

/// The reply to a get, and a refusal, are each heard as one message, under the correlation of their get: the reply brings the
/// value, and the refusal a code.
pub fn every_answer_is_heard()
    ensures answer { EveryAnswerIsHeard }
    ensures refusal { EveryRefusalIsHeard }
{}

/// Whatever steps a run takes that a near client came to: it goes with the client's machine, and where the machine hits a value,
/// that is the reply of a get of the client that stands in the key's history, after each write that an invalidation of the key
/// named which the client has handled. Where no invalidation of the key and no row of its partition is unread, it also stands
/// after each answered write, and each reset, of a version up to the one that the client's member knows.
pub fn every_near_run_goes_well()
    ensures { EveryNearRunGoesWell }
{}

/// What a near client makes of a message is what the machine makes of what that says, also where no call waits for it: it goes
/// on with the machine's client.
pub fn every_message_is_heard()
    ensures { EveryMessageIsHeard }
{}

/// A near client's look-up hits what the machine's does. Where it misses, both open one under the client's next number.
pub fn every_look_up_is_the_machines()
    ensures hit { EveryHitIsTheMachines }
    ensures miss { EveryMissIsTheMachines }
{}

/// Frames whose bytes are those of something that the machine says are heard as a message that says it.
pub fn every_message_says_it()
    ensures { EveryMessageSaysIt }
{}

/// A piece of its connection's output tells a near client what its messages say, one after the other, as the machine hears it.
pub fn every_piece_is_heard()
    ensures { EveryPieceIsHeard }
{}

/// Where a near client goes with the machine of a run, what it hits is a hit of the run, and stands as the machine's does.
pub fn every_hit_of_a_near_client_stands()
    ensures { EveryHitOfANearClientStands }
{}

/// Whatever line another one's is, the run goes on with the near client's machine, whose client does nothing. Whoever waits
/// does so on another connection, and has its turns as the machine sees calls of others.
pub fn every_other_line_is_followed()
    ensures { EveryOtherLineIsFollowed }
{}

/// The line of a near client's opening attaches it, and the line of a get opens the machine's look-up, also where the get finds
/// no memory.
pub fn every_own_line_is_followed()
    ensures opening { EveryOpeningLineIsFollowed }
    ensures get { EveryGetLineIsFollowed }
{}

/// A near client that is handed a piece of its connection's output goes on with the machine, which hears as many messages.
pub fn every_feed_is_followed()
    ensures { EveryFeedIsFollowed }
{}

/// Whatever line of a script is run, each event of the run is in one of the grid's partitions, and the parts of each call fit
/// frames, also of a call that waits.
pub fn every_line_stays_proper()
    ensures { EveryLineStaysProper }
{}

/// All that was sent on a near connection since its client came is one stream of messages. They mean what the client has heard,
/// and then what it has yet to read; and the machine has processed just the invalidations among what was heard.
pub fn every_near_run_speaks()
    ensures { EveryNearRunSpeaks }
{}
