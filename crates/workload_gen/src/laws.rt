//! What holds of every script that is made from a number. Nothing runs here.

ghost use Rattle.workload_gen.specs.Laws.{EveryScriptIsReadBack, EveryScriptIsShort, EveryClientIsKnown, EveryCallIsHeard};

/// A reader of a script meets exactly the script's lines: none of them is refused, and none is read as another.
pub fn every_script_is_read_back()
    ensures { EveryScriptIsReadBack }
{}

/// A script has as many lines as any other, and its bytes are known beforehand, but for few.
pub fn every_script_is_short()
    ensures { EveryScriptIsShort }
{}

/// Each client makes itself known, and a put and a get of a round are read as its calls, in the partition that they
/// state: none is refused.
pub fn every_call_is_heard()
    ensures clients { EveryClientIsKnown }
    ensures calls { EveryCallIsHeard }
{}
