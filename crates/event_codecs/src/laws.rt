//! Reading an event or a registration is the inverse of spelling it. The functions compute nothing: their contracts are the laws.

ghost use Rattle.std.specs.Prelude.{◌≡◌, ◌≢◌, ◌↔◌, ℕ, ℤ, Bool, List, map, pos, Ok, Err};
ghost use Rattle.grid_base.specs.declared.calls.Change.{Change as ChangeOf};
ghost use Rattle.grid_base.specs.declared.refusal.CallRefused.TheVariants.{UnknownType, BadCall, Memory};
ghost use Rattle.message_frames.specs.declared.message.Message.{Message as MessageOf};
ghost use Rattle.partition_table.specs.declared.Row.{Row as RowOf};
ghost use Rattle.event_codecs.specs.Events.{event_of};
ghost use Rattle.event_codecs.specs.Sent.{FitMessage, AreHeardAs};
ghost use Rattle.event_codecs.specs.Registrations.{registration_of};
ghost use Rattle.event_codecs.specs.SpelledEvents.{HasArrived, HasOtherKind, IsEvent, Spells, SpellsNone};
ghost use Rattle.event_codecs.specs.SpelledRegistrations.{IsRegistration, Spells as SpellsRegistration, HasOtherKind as IsNoRegistration};
ghost use Rattle.event_codecs.specs.Writing.{entry_event, entry_frames, invalidation_frames, rows_frames, seen};
ghost use Rattle.event_codecs.specs.declared.events.ClientEvent.{ClientEvent as EventOf};
ghost use Rattle.event_codecs.specs.declared.events.ClientEvent.TheVariants as told;
ghost use Rattle.event_codecs.specs.declared.registration.Registration.{Registration as RegistrationOf};

/// What is read as an event is one, and its message spells it; and each event is read from every
/// message that spells it, whatever further bytes and frames that has.
pub fn events_are_read_as_spelled()
    ensures found { (message : MessageOf) (event : EventOf)
        → HasArrived message → event_of message ≡ Ok event → IsEvent event × Spells message event }
    ensures only { (message : MessageOf) (event : EventOf)
        → IsEvent event → Spells message event → event_of message ≡ Ok event }
{}

/// Exactly another type is unknown. Exactly a message of one of the types that spells no event is a
/// bad call. No message says that memory is wanting.
pub fn event_refusals_are_told_apart()
    ensures unknown { (message : MessageOf) → (event_of message ≡ Err UnknownType) ↔ HasOtherKind message }
    ensures bad { (message : MessageOf) → HasArrived message
        → (event_of message ≡ Err BadCall) ↔ SpellsNone message }
    ensures memory { (message : MessageOf) → event_of message ≢ Err Memory }
{}

/// What is read as a registration is one, and its message spells it; and each registration is read from
/// every message that spells it, whatever further bytes and frames that has.
pub fn registrations_are_read_as_spelled()
    ensures found { (message : MessageOf) (registration : RegistrationOf)
        → HasArrived message → registration_of message ≡ Ok registration → IsRegistration registration × SpellsRegistration message registration }
    ensures only { (message : MessageOf) (registration : RegistrationOf)
        → IsRegistration registration → SpellsRegistration message registration → registration_of message ≡ Ok registration }
{}

/// Exactly another type is unknown, and no message says that memory is wanting.
pub fn registration_refusals_are_told_apart()
    ensures unknown { (message : MessageOf) → (registration_of message ≡ Err UnknownType) ↔ IsNoRegistration message }
    ensures memory { (message : MessageOf) → registration_of message ≢ Err Memory }
{}

/// What is written is heard by a client as one message, which it reads as exactly the event that was
/// written, where that is an event and its frames fit a message.
pub fn written_events_are_read()
    ensures entry { (correlation : ℤ) (partition : ℕ) (change : ChangeOf) (with_value : Bool)
        → let frames = entry_frames correlation partition change with_value in
        let event = entry_event correlation partition change with_value in
        IsEvent event → FitMessage frames → AreHeardAs frames event }
    ensures invalidation { (correlation : ℤ) (partition version number : ℕ) (name key : List ℕ)
        → let frames = invalidation_frames correlation partition version number name key in
        let event = told.Invalidation correlation (pos partition) version number name key in
        IsEvent event → FitMessage frames → AreHeardAs frames event }
    ensures rows { (correlation : ℤ) (rows : List (ℕ × RowOf))
        → let frames = rows_frames correlation rows in
        let event = told.Rows correlation (map seen rows) in
        IsEvent event → FitMessage frames → AreHeardAs frames event }
{}
