//! Reading a call is the inverse of spelling it. The functions compute nothing: their contracts are the laws.

ghost use Rattle.std.specs.Prelude.{◌≡◌, ◌≢◌, ◌↔◌, ℕ, ℤ, List, All, Some, Ok, Err, IfSome};
ghost use Rattle.frame_codec.specs.declared.frames.Frame.{Frame};
ghost use Rattle.fixed_fields.specs.Requests.{kind_of, kinds_in};
ghost use Rattle.message_frames.specs.Assembly.{first_payload};
ghost use Rattle.message_frames.specs.declared.message.Message.{Message};
ghost use Rattle.grid_base.specs.Limits.{FitsFrame, MapCallFits};
ghost use Rattle.grid_base.specs.Names.{key_of};
ghost use Rattle.grid_base.specs.declared.names.ClientKey.{ClientKey};
ghost use Rattle.grid_base.specs.declared.calls.MapCall.{MapCall};
ghost use Rattle.grid_base.specs.declared.refusal.CallRefused.TheVariants.{UnknownType, Memory};
ghost use Rattle.map_codecs.specs.Calls.{map_calls, map_call_of};
ghost use Rattle.map_codecs.specs.SpelledCalls.{IsKey, IsCallOf, caller_of, HasArrived, Spells, call_message};
ghost use Rattle.map_codecs.specs.Waits.{Wait, map_waits, map_wait_of};
ghost use Rattle.map_codecs.specs.SpelledWaits.{kind_of_wait, IsWaitOf, SpellsWait, wait_message};

/// What is read as a call is a call of the client, and its message spells it; and each call of the
/// client is read from every message that spells it, such as the one that a client sends, whatever
/// further bytes and frames that has.
pub fn map_calls_are_read_as_spelled()
    ensures found { (client : ClientKey) (message : Message) (call : MapCall) → HasArrived message → map_call_of client message ≡ Ok call → IsCallOf client call × Spells message call }
    ensures only { (client : ClientKey) (message : Message) (call : MapCall) → IsCallOf client call → Spells message call → map_call_of client message ≡ Ok call }
    ensures sent { (client : ClientKey) (correlation partition : ℤ) (call : MapCall) (more : List ℕ) (behind : List Frame) → IsCallOf client call → map_call_of client (call_message correlation partition call more behind) ≡ Ok call }
{}

/// A call that is read has a key's eight bytes and the client as its caller, also where its message
/// isn't known to hold bytes, and fits frames where those of its message do.
pub fn map_calls_that_are_read_fit()
    ensures key { (client : ClientKey) (message : Message) (call : MapCall) → map_call_of client message ≡ Ok call → IsKey (key_of call) }
    ensures caller { (client : ClientKey) (message : Message) (call : MapCall) → map_call_of client message ≡ Ok call → IfSome (caller_of call) (λ owner. owner.client ≡ client) }
    ensures fits { (client : ClientKey) (message : Message) (call : MapCall) → All (λ frame. FitsFrame frame.payload) message.frames → map_call_of client message ≡ Ok call → MapCallFits call }
{}

/// Only another type is unknown, and no message says that memory is wanting.
pub fn map_refusals_are_told_apart()
    ensures unknown { (client : ClientKey) (message : Message) → (map_call_of client message ≡ Err UnknownType) ↔ All (λ kind. kind_of (first_payload message.frames) ≢ Some kind) (kinds_in map_calls) }
    ensures memory { (client : ClientKey) (message : Message) → map_call_of client message ≢ Err Memory }
{}

/// What is read as a waiting call is a call of the client with a timeout, and its message spells both; and
/// each of them that may wait is read from every message that spells it, such as the one that a client
/// sends, whatever further bytes and frames that has.
pub fn map_waits_are_read_as_spelled()
    ensures found { (client : ClientKey) (message : Message) (wait : Wait) → HasArrived message → map_wait_of client message ≡ Ok wait → IsWaitOf client wait × SpellsWait message wait }
    ensures only { (client : ClientKey) (message : Message) (wait : Wait) → IsWaitOf client wait → SpellsWait message wait → map_wait_of client message ≡ Ok wait }
    ensures sent { (client : ClientKey) (correlation partition : ℤ) (kind : ℕ) (wait : Wait) (more : List ℕ) (behind : List Frame) → IsWaitOf client wait → kind_of_wait wait.0 ≡ Some kind → map_wait_of client (wait_message correlation partition kind wait more behind) ≡ Ok wait }
{}

/// A waiting call that is read is as a call that is read: it has a key's eight bytes, the client as its
/// caller, and fits frames.
pub fn map_waits_that_are_read_fit()
    ensures key { (client : ClientKey) (message : Message) (wait : Wait) → map_wait_of client message ≡ Ok wait → IsKey (key_of wait.0) }
    ensures caller { (client : ClientKey) (message : Message) (wait : Wait) → map_wait_of client message ≡ Ok wait → IfSome (caller_of wait.0) (λ owner. owner.client ≡ client) }
    ensures fits { (client : ClientKey) (message : Message) (wait : Wait) → All (λ frame. FitsFrame frame.payload) message.frames → map_wait_of client message ≡ Ok wait → MapCallFits wait.0 }
{}

/// Only another type is unknown, and no message says that memory is wanting.
pub fn map_wait_refusals_are_told_apart()
    ensures unknown { (client : ClientKey) (message : Message) → (map_wait_of client message ≡ Err UnknownType) ↔ All (λ kind. kind_of (first_payload message.frames) ≢ Some kind) (kinds_in map_waits) }
    ensures memory { (client : ClientKey) (message : Message) → map_wait_of client message ≢ Err Memory }
{}
