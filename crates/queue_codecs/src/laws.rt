//! Reading a call is the inverse of spelling it. The functions compute nothing: their contracts are the laws.

ghost use Rattle.std.specs.Prelude.{◌≡◌, ◌≢◌, ◌↔◌, ◌<◌, ℕ, ℤ, List, All, Some, Ok, Err};
ghost use Rattle.frame_codec.specs.Laws.{IsBytes};
ghost use Rattle.frame_codec.specs.declared.frames.Frame.{Frame};
ghost use Rattle.fixed_fields.specs.Requests.{kind_of, kinds_in};
ghost use Rattle.message_frames.specs.Assembly.{first_payload};
ghost use Rattle.message_frames.specs.declared.message.Message.{Message};
ghost use Rattle.grid_base.specs.Limits.{FitsFrame, QueueCallFits};
ghost use Rattle.grid_base.specs.declared.TheConstants.{PARTITIONS};
ghost use Rattle.grid_base.specs.declared.calls.QueueCall.{QueueCall};
ghost use Rattle.grid_base.specs.declared.refusal.CallRefused.TheVariants.{UnknownType, Memory};
ghost use Rattle.queue_codecs.specs.Calls.{queue_calls, queue_call_of};
ghost use Rattle.queue_codecs.specs.SpelledCalls.{IsCall, IsPlaced, Spells, call_message};
ghost use Rattle.queue_codecs.specs.Waits.{Wait, queue_waits, queue_wait_of};
ghost use Rattle.queue_codecs.specs.SpelledWaits.{kind_of_wait, IsWait, SpellsWait, wait_message};

/// What is read as a call is one that its message spells; and each call is read from every message that
/// spells it, such as the one that a client sends, whatever further bytes and frames that has.
pub fn queue_calls_are_read_as_spelled()
    ensures found { (message : Message) (call : QueueCall) → IsBytes (first_payload message.frames) → queue_call_of message ≡ Ok call → IsCall call × Spells message call }
    ensures only { (message : Message) (call : QueueCall) → IsCall call → Spells message call → queue_call_of message ≡ Ok call }
    ensures sent { (correlation : ℤ) (partition : ℕ) (call : QueueCall) (more : List ℕ) (behind : List Frame) → IsCall call → partition < PARTITIONS → queue_call_of (call_message correlation partition call more behind) ≡ Ok call }
{}

/// A call that is read is in a partition that its message states, one from 0 to 270, and fits frames
/// where those of its message do.
pub fn queue_calls_that_are_read_fit()
    ensures placed { (message : Message) (call : QueueCall) → queue_call_of message ≡ Ok call → IsPlaced message }
    ensures fits { (message : Message) (call : QueueCall) → All (λ frame. FitsFrame frame.payload) message.frames → queue_call_of message ≡ Ok call → QueueCallFits call }
{}

/// Only another type is unknown, and no message says that memory is wanting.
pub fn queue_refusals_are_told_apart()
    ensures unknown { (message : Message) → (queue_call_of message ≡ Err UnknownType) ↔ All (λ kind. kind_of (first_payload message.frames) ≢ Some kind) (kinds_in queue_calls) }
    ensures memory { (message : Message) → queue_call_of message ≢ Err Memory }
{}

/// What is read as a waiting call is a call with a timeout, and its message spells both; and each of them
/// that may wait is read from every message that spells it, such as the one that a client sends, whatever
/// further bytes and frames that has.
pub fn queue_waits_are_read_as_spelled()
    ensures found { (message : Message) (wait : Wait) → IsBytes (first_payload message.frames) → queue_wait_of message ≡ Ok wait → IsWait wait × SpellsWait message wait }
    ensures only { (message : Message) (wait : Wait) → IsWait wait → SpellsWait message wait → queue_wait_of message ≡ Ok wait }
    ensures sent { (correlation : ℤ) (partition kind : ℕ) (wait : Wait) (more : List ℕ) (behind : List Frame) → IsWait wait → kind_of_wait wait.0 ≡ Some kind → partition < PARTITIONS → queue_wait_of (wait_message correlation partition kind wait more behind) ≡ Ok wait }
{}

/// A waiting call that is read is as a call that is read: in a partition that its message states, one from
/// 0 to 270, and fitting frames where those of its message do.
pub fn queue_waits_that_are_read_fit()
    ensures placed { (message : Message) (wait : Wait) → queue_wait_of message ≡ Ok wait → IsPlaced message }
    ensures fits { (message : Message) (wait : Wait) → All (λ frame. FitsFrame frame.payload) message.frames → queue_wait_of message ≡ Ok wait → QueueCallFits wait.0 }
{}

/// Only another type is unknown, and no message says that memory is wanting.
pub fn queue_wait_refusals_are_told_apart()
    ensures unknown { (message : Message) → (queue_wait_of message ≡ Err UnknownType) ↔ All (λ kind. kind_of (first_payload message.frames) ≢ Some kind) (kinds_in queue_waits) }
    ensures memory { (message : Message) → queue_wait_of message ≢ Err Memory }
{}
