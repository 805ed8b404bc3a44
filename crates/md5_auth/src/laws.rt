ghost use Rattle.std.specs.Prelude.{◌≡◌, ◌↔◌, ℕ, List};
ghost use Rattle.md5_auth.specs.declared.users.Entry.{Entry as AnEntry};
ghost use Rattle.md5_auth.specs.Allowed.{IsChallenge, IsAnswer, NamesBackend, LineAllows, UserIsAllowed, SentAllows};
ghost use Rattle.md5_auth.specs.ChallengeReading.{challenge_of};
ghost use Rattle.md5_auth.specs.Laws.{AnswerAllowsByLine, AnswerAllowsTheUser};

pub fn one_challenge()
    /// A resource has one challenge, or none.
    ensures { (resource challenge : List ℕ)
        → (challenge_of resource ≡ Some challenge) ↔ IsChallenge resource challenge }
{}

pub fn an_answer_allows()
    /// An answer made with a password passes exactly where the password is allowed, where some line names the
    /// backend.
    ensures line { AnswerAllowsByLine }
    ensures allowed { AnswerAllowsTheUser }
{}
