// Assignments of registers.

ghost use Rattle.std.specs.Prelude.{◌≡◌, IfOk, OnOk};
ghost use Rattle.kex_tokens.specs.Lexemes.{IsToken};
ghost use Rattle.kex_reader.specs.Shown.{assignment_kind};
ghost use Rattle.kex_reader.specs.Stands.{InPiece, Keeps, LosesNone, PieceShows, part_of, word_of};

use crate::draft::Draft;
use crate::word::Word;
use kex_code::memory::Memory;
use kex_code::piece::{Bytes, Piece, Pieces};
use kex_model::program::Kind as NodeKind;
use kex_tokens::literal_bytes;
use kex_tokens::token::TokenKind;
use std::alloc::Global;

/// An assignment that is half read: its bracket, its register, whether it appends, and its parts.
#[derive(Drop)]
pub(crate) struct Assignment {
    pub(crate) at: u32,
    pub(crate) append: bool,
    pub(crate) register: u32,
    pub(crate) pieces: Vec<Piece>,
}

// The piece that a word is, if it is one.
pub(crate) fn piece<'t>(
    alloc: Global,
    draft: &mut Draft<'t>,
    word: Word<'t>,
) -> Result<Option<Piece>, Memory>
    requires { IsToken word.kind word.spelling.now }
    ensures keeps { OnOk result (Keeps draft.old draft.new) }
    ensures broken { OnOk result (draft.new.broken ≡ draft.old.broken) }
    ensures held { IfOk result (λ o. LosesNone draft.old draft.new (λ x. ⊥) (InPiece o)) }
    ensures read { IfOk result (λ o. PieceShows (part_of (word_of word.entry)) draft.new o) }
{
    match word.kind {
        TokenKind::Literal => {
            let bytes = literal_bytes(alloc, word.spelling)?;
            Ok(Some(Piece::Lit(Bytes::new(bytes))))
        }
        TokenKind::Name => {
            let register = draft.register(word.spelling)?;
            Ok(Some(Piece::Register(register)))
        }
        _ => Ok(None),
    }
}

impl Assignment {
    // What the node of the whole is.
    pub(crate) fn kind(self) -> NodeKind
        ensures { result ≡ assignment_kind self.append self.register self.pieces.items }
    {
        let pieces = Pieces::new(self.pieces);
        if self.append {
            NodeKind::Add(self.register, pieces)
        } else {
            NodeKind::Set(self.register, pieces)
        }
    }
}
