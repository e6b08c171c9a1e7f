// How trees are spelled.

ghost use Rattle.std.specs.Prelude.{◌≡◌, ℕ, ◌++◌, List, OnOk, length};
ghost use Rattle.kex_model.specs.Labelled.{Shape};
ghost use Rattle.kex_machine.specs.Advancing.{EachPlace};
ghost use Rattle.kex_paths.specs.Nexts.{inner_of, places_of};
ghost use Rattle.kex_tabfile.specs.Lines.{tree_text};
ghost use Rattle.kex_tabfile.specs.TreeMarks.{AreTreeMarks, TailGoesOn, TailPart};

use crate::spell::push_number;
use kex_code::memory::Memory;
use std::alloc::Global;

// What is to be written after a tree: the comma before the right one, or the end of both.
#[derive(Clone, Copy)]
enum TreeMark {
    Comma,
    Close,
}

// Writes what comes after a tree, up to the next tree.
fn push_marks(pending: &mut Vec<TreeMark>, line: &mut Vec<u8>) -> Result<(), Memory>
    ensures { OnOk result ((numbers : List ℕ) (tail : List TailPart)
        → AreTreeMarks pending.old.items tail
        → TailGoesOn numbers tail line.old.items pending.new.items line.new.items) }
{
    while let Some(mark) = pending.pop() {
        match mark {
            TreeMark::Comma => {
                line.push(b',')?;
                return Ok(());
            }
            TreeMark::Close => line.push(b')')?,
        }
    }
    Ok(())
}

/// Writes a tree, by its shape in preorder and its leaves, with the numbers of the places.
pub(crate) fn push_tree(
    alloc: Global,
    numbers: &[u32],
    shape: &[bool],
    leaves: &[u32],
    line: &mut Vec<u8>,
) -> Result<(), Memory>
    requires { (s : Shape ℕ) × (shape.now ≡ inner_of s) × (leaves.now ≡ places_of s)
        × EachPlace (length numbers.now) s }
    ensures { OnOk result ((s : Shape ℕ) → shape.now ≡ inner_of s → leaves.now ≡ places_of s
        → line.new.items ≡ line.old.items ++ tree_text numbers.now s) }
{
    let mut pending = Vec::new(alloc);
    let mut leaf = 0;
    for inner in shape {
        if *inner {
            line.push(b'(')?;
            pending.push(TreeMark::Close)?;
            pending.push(TreeMark::Comma)?;
        } else {
            push_number(numbers[leaves[leaf] as usize], line)?;
            leaf += 1;
            push_marks(&mut pending, line)?;
        }
    }
    Ok(())
}
