//! Laws of the spellings.

ghost use Rattle.std.specs.Prelude.{◌≡◌, ◌++◌, List, [], ℕ};
ghost use Rattle.wire_message.specs.declared.message.Request.{Request as AnyRequest};
ghost use Rattle.wire_message.specs.declared.message.Reply.{Reply as AnyReply};
ghost use Rattle.wire_message.specs.Message.{request, reply};

use crate::message::Procedure;

pub fn requests_are_spelled_apart()
    /// A text spells at most one request, and at most one reply to a procedure; no spelling of one is a proper prefix
    /// of another's.
    /// Carried by: `requests_are_spelled_apart`, `replies_are_spelled_apart`
    ensures value { (text : List ℕ) (a b : AnyRequest)
        → request.spells text a → request.spells text b → a ≡ b }
    ensures prefix { (text more : List ℕ) (a b : AnyRequest)
        → request.spells text a → request.spells (text ++ more) b → more ≡ [] }
{}

/// The same of the replies to a procedure.
pub fn replies_are_spelled_apart(procedure: Procedure)
    ensures value { (text : List ℕ) (a b : AnyReply)
        → (reply procedure).spells text a → (reply procedure).spells text b → a ≡ b }
    ensures prefix { (text more : List ℕ) (a b : AnyReply)
        → (reply procedure).spells text a → (reply procedure).spells (text ++ more) b → more ≡ [] }
{}
