//! What the claims of a control script say of one in memory. Nothing runs here.

ghost use Rattle.live_control.specs.Serving.{EveryScriptInMemoryIsServed};

/// What was run and written is, of a source in memory that was read from its begin on, what the status says of the very script
/// that it had: what was read, and what is left.
pub fn every_script_in_memory_is_served()
    ensures { EveryScriptInMemoryIsServed }
{}
