ghost use Rattle.replay_run.specs.Legal.{IsLegal};
ghost use Rattle.replay_run.specs.Rows.{session};

/// The worked session, in which three bytes are built and read, is a legal transcript.
pub fn session_is_legal()
    ensures { IsLegal (session 99 3) }
{}

/// With another last byte it is not.
pub fn wrong_byte_is_refused()
    ensures { IsLegal (session 100 3) → ⊥ }
{}

/// With another number of bytes in memory after the build it is not.
pub fn wrong_tally_is_refused()
    ensures { IsLegal (session 99 4) → ⊥ }
{}
