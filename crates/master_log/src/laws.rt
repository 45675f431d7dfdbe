//! What holds of all masters, whatever was lost, late, asked again or crashed: each function here has an empty body, and its
//! contract is the law.

ghost use Rattle.std.specs.Prelude.{◌≡◌, ◌++◌, List};
ghost use Rattle.masters_protocol.specs.Machine.{Event};
ghost use Rattle.masters_protocol.specs.Claims.{IsSound, Agrees};
ghost use Rattle.master_wire.specs.declared.decision.Decision.{Decision};
ghost use Rattle.master_log.specs.declared.masters.Masters.{Masters};
ghost use Rattle.master_log.specs.Standing.{StandsFor, run_of, size_of};
ghost use Rattle.master_log.specs.Laws.{EveryListIsAFront, AtMostOneIsMaster};

/// A published list is a front of every list that is published later, and of the log of every member that lives then.
pub fn every_published_list_stays()
    ensures { EveryListIsAFront }
{}

/// At most one live member gathers or serves, the lowest that lives.
pub fn every_moment_has_one_master()
    ensures { AtMostOneIsMaster }
{}

/// All that holds of the machine's runs holds of the masters: at one moment, and at one and a later one.
pub fn every_call_agrees()
    ensures sound { (masters : Masters) (events : List (Event Decision)) → StandsFor masters events → IsSound (run_of masters events) }
    ensures agrees { (old new : Masters) (before after : List (Event Decision)) → StandsFor old before → StandsFor new (before ++ after) → size_of new ≡ size_of old
        → Agrees (run_of old before) after (run_of new (before ++ after)) }
{}
