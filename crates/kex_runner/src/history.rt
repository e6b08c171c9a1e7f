// What was noted over a script, and where the notes begin.

pub mod reading;
pub mod walking;

use kex_script::ids::UpdateId;
use kex_script::piece::ByteWord;
use kex_script::script::Script;
use std::marker::Model;

/// The update that was done, and the byte that was read. Where the state stays a note may say so:
/// notes of the same update may come before it then. Nothing rests on what it says.
#[derive(Clone, Copy)]
pub struct NotedUpdate {
    pub update: UpdateId,
    pub byte: u8,
    pub stays: bool,
}

/// A register where the notes begin: its byte words, the last first.
#[derive(Drop)]
pub struct Settled {
    pub pieces: Vec<ByteWord>,
}

impl Model for Settled {
    ghost use Rattle.std.specs.Prelude.{List};
    ghost use Rattle.kex_script.specs.declared.piece.ByteWord.{ByteWord};

    ghost Value = { List ByteWord };

    ghost view = { λ s. s.pieces.items };
}

/// What the registers were where the notes begin, and the notes since, over a script. Its calls
/// look up what registers, lists and ways of registers stand for, from the last note back.
#[derive(Clone, Copy)]
pub struct History<'h> {
    pub script: &'h Script,
    pub base: &'h [Settled],
    pub notes: &'h [NotedUpdate],
}
