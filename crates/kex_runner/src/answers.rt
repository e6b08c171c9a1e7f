// What a runner answers.

ghost use Rattle.std.specs.Prelude.{◌≡◌};
ghost use Rattle.kex_runner.specs.Running.{runner_answer};

/// What a piece leaves: bytes that can go on to a parse, or that can't.
#[derive(Clone, Copy, Debug, PartialEq, Eq)]
pub enum Fed {
    On,
    Dead,
}

/// What the end shows: that the bytes have a parse, or that they have none.
#[derive(Clone, Copy, Debug, PartialEq, Eq)]
pub enum Ended {
    Parsed,
    Cut,
}

/// What comes of a summary: its text was taken whole, or nothing was, since the table stops after
/// that many of its bytes.
#[derive(Clone, Copy, Debug, PartialEq, Eq)]
pub enum Applied {
    On,
    Gone(u64),
}

/// How many bytes at the front of a piece are quiet, and the state to which they lead.
#[derive(Clone, Copy, Debug, PartialEq, Eq)]
pub struct Glance {
    pub count: usize,
    pub state: u32,
}

pub(crate) fn answer_of(dead: bool) -> Fed
    ensures { result ≡ runner_answer dead }
{
    if dead { Fed::Dead } else { Fed::On }
}
