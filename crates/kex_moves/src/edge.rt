// What is known of a pair of a state and a node at a class of bytes.

/// What kind of edge it is. In a row the first two are kinds of edges that lead back to it, so that
/// the kind by itself says that the row stays.
#[derive(Clone, Copy, Debug, PartialEq, Eq)]
pub enum EdgeKind {
    /// The byte alone is written, and the row stays.
    Keep,
    /// Nothing is written, and the row stays.
    Drop,
    /// A text with the byte at a place in it, perhaps the byte alone or nothing.
    Text,
    /// Deeds, which the actor does.
    Acts,
    /// Deeds that open a buffer and write the byte alone.
    Opens,
    /// None of these: a plain step is taken.
    Plain,
    /// It isn't learnt yet.
    Unknown,
}

/// Where a byte leads: to the row that begins at `next`. Of a text of 16 bytes that begins at
/// `from` as many count as it `adds`, with the byte read over the one at `byte_at` (16 where it
/// isn't written); or as many deeds as it `adds` are done, from number `from` on. It is `alone`
/// if the byte is written and nothing else.
#[derive(Clone, Copy, Debug, PartialEq, Eq)]
pub struct Edge {
    pub next: usize,
    pub from: u32,
    pub byte_at: u8,
    pub adds: u8,
    pub alone: bool,
    pub kind: EdgeKind,
}

impl EdgeKind {
    ghost use Rattle.std.specs.Prelude.{◌≡◌, IsTrue, ◌↔◌};
    ghost use Rattle.kex_moves.specs.Edges.{is_written};

    /// Whether an edge of the kind is followed in the loop.
    #[inline(always)]
    pub fn is_written(self) -> bool
        ensures { result ≡ is_written self }
    {
        match self {
            EdgeKind::Keep | EdgeKind::Drop | EdgeKind::Text => true,
            EdgeKind::Acts | EdgeKind::Opens | EdgeKind::Plain | EdgeKind::Unknown => false,
        }
    }

    /// Whether text is put around the byte.
    #[inline(always)]
    pub fn is_text(self) -> bool
        ensures { IsTrue result ↔ (self ≡ EdgeKind.Text) }
    {
        matches!(self, EdgeKind::Text)
    }

    /// Whether the byte alone is written.
    #[inline(always)]
    pub fn is_keep(self) -> bool
        ensures { IsTrue result ↔ (self ≡ EdgeKind.Keep) }
    {
        matches!(self, EdgeKind::Keep)
    }

    /// Whether nothing is written.
    #[inline(always)]
    pub fn is_drop(self) -> bool
        ensures { IsTrue result ↔ (self ≡ EdgeKind.Drop) }
    {
        matches!(self, EdgeKind::Drop)
    }
}

impl Edge {
    ghost use Rattle.std.specs.Prelude.{◌≡◌, ◌⊎◌, true, false};
    ghost use Rattle.kex_moves.specs.Edges.{is_written, IsUnlearnt, IsSilent, IsAtRow};

    // An edge of a kind that says nothing.
    fn silent(kind: EdgeKind) -> Edge
        ensures { result ≡ record {
          next = 0;
          from = 0;
          byte_at = 0;
          adds = 0;
          alone = false;
          kind = kind;
        } }
    {
        Edge {
            next: 0,
            from: 0,
            byte_at: 0,
            adds: 0,
            alone: false,
            kind,
        }
    }

    /// Nothing is learnt yet.
    pub fn unknown() -> Edge
        ensures { IsUnlearnt result }
    {
        Edge::silent(EdgeKind::Unknown)
    }

    /// A plain step is to be taken.
    pub fn plain() -> Edge
        ensures { IsSilent result }
    {
        Edge::silent(EdgeKind::Plain)
    }

    /// The edge as it is in a row: it keeps or drops only where it leads back to the row.
    pub fn at_row(self, row: usize) -> Edge
        ensures at { IsAtRow row result }
        ensures same { (result ≡ self)
            ⊎ ((is_written self.kind ≡ true) × (result ≡ record self { kind = EdgeKind.Text })) }
    {
        if self.next == row || !self.kind.is_written() {
            return self;
        }
        Edge {
            kind: EdgeKind::Text,
            ..self
        }
    }
}
