// How a piece is gone along.

ghost use Rattle.std.specs.Prelude.{◌≡◌, ◌-◌, ◌↔◌, IsTrue, false};
ghost use Rattle.kex_stage.specs.declared.advance.Look.TheVariants as looks;

/// What is known of a piece, and what may be done with it: how many bytes of its front are held
/// back, since they were put off before; whether bytes that can wait may be put off; and whether
/// nothing of it was gone along yet.
#[derive(Clone, Copy, Debug, PartialEq, Eq)]
pub struct Approach {
    pub held: usize,
    pub puts_off: bool,
    pub begins: bool,
}

impl Approach {
    /// The same of what is left of the piece after some bytes.
    pub fn past(self, count: usize) -> Approach
        ensures held { result.held ≡ self.held - count }
        ensures puts_off { result.puts_off ≡ self.puts_off }
        ensures begins { IsTrue result.begins ↔ IsTrue self.begins × (count ≡ 0) }
    {
        Approach {
            held: self.held.saturating_sub(count),
            puts_off: self.puts_off,
            begins: self.begins && count == 0,
        }
    }

    /// Which bytes are looked for after some were gone along by what is learnt. To look past the
    /// first byte of what is left takes a pass over a turn, if that is where one begins. Where the
    /// runner takes turn after turn this would mostly be in vain.
    pub fn look(self, ran: usize) -> Look
        ensures { (self.puts_off ≡ false) ↔ (result ≡ looks.Nothing) }
    {
        if !self.puts_off {
            Look::Nothing
        } else if ran > 0 || self.begins {
            Look::PastFirst
        } else {
            Look::Quiet
        }
    }
}

/// Which bytes are looked for, to be put off: none; or quiet ones; or also such of which the first
/// says something that does nothing.
#[derive(Clone, Copy, Debug, PartialEq, Eq)]
pub enum Look {
    Nothing,
    Quiet,
    PastFirst,
}

/// How far a piece was gone along: to its end; or up to a byte that was refused, after that number
/// of good ones; or up to bytes that are put off, since they can wait. These lead to a state.
#[derive(Clone, Copy, Debug, PartialEq, Eq)]
pub enum Advance {
    Whole,
    Refused(usize),
    PutOff { count: usize, state: u32 },
}
