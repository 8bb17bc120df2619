// Whether a session goes on with an answer.

/// Whether a session goes on.
#[derive(Clone, Copy)]
pub enum Go {
    /// It asks whether the answer may be sent, and sends it.
    On,
    /// It ends, and sends nothing.
    Over,
}

/// What a session enters between an answer and its sending.
pub trait Gate {
    ghost use Rattle.std.specs.Prelude.{ℕ};
    ghost use Rattle.node_session.specs.declared.gate.Go.{Go};

    /// Which of the two it may answer for a session and a serial. It answers no other.
    ghost may: { Self → ℕ → ℕ → Go → Type 0 };

    /// Whether a session goes on with the job that has this serial.
    fn enter(&self, session: u32, serial: u64) -> Go
        ensures { may self.now session serial result };
}
