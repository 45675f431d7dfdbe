//! Reading an authentication is the inverse of spelling it. The functions compute nothing: their contracts are the laws.

ghost use Rattle.std.specs.Prelude.{◌≡◌, ℕ, ℤ, List, Ok, Err};
ghost use Rattle.frame_codec.specs.Laws.{IsBytes};
ghost use Rattle.frame_codec.specs.declared.frames.Frame.{Frame};
ghost use Rattle.message_frames.specs.Assembly.{first_payload};
ghost use Rattle.message_frames.specs.declared.message.Message.{Message};
ghost use Rattle.grid_base.specs.declared.refusal.CallRefused.{CallRefused};
ghost use Rattle.grid_base.specs.declared.refusal.CallRefused.TheVariants.{BadCall};
ghost use Rattle.client_codecs.specs.Authentications.{authentication_of};
ghost use Rattle.client_codecs.specs.SpelledAuthentications.{IsAuthentication, Spells, authentication_message};
ghost use Rattle.client_codecs.specs.declared.authentications.Authentication.{Authentication as AuthenticationOf};

/// What is read as an authentication is one, and its message spells it; and each authentication is
/// read from every message that spells it, such as the one that a client sends, whatever further bytes
/// and frames that has.
pub fn authentications_are_read_as_spelled()
    ensures found { (message : Message) (a : AuthenticationOf) → IsBytes (first_payload message.frames) → authentication_of message ≡ Ok a → IsAuthentication a × Spells message a }
    ensures only { (message : Message) (a : AuthenticationOf) → IsAuthentication a → Spells message a → authentication_of message ≡ Ok a }
    ensures sent { (correlation partition : ℤ) (version : ℕ) (a : AuthenticationOf) (more : List ℕ) (behind : List Frame) → IsAuthentication a → authentication_of (authentication_message correlation partition version a more behind) ≡ Ok a }
    ensures refused { (message : Message) (why : CallRefused) → authentication_of message ≡ Err why → why ≡ BadCall }
{}
