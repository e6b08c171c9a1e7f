// Whether two rows are the same.

ghost use Rattle.std.specs.Prelude.{◌≡◌, true};

use kex_held::item::{HeldItem, RegisterText};
use kex_held::row::TextRow;

// Whether two lists are the same.
pub(crate) fn are_same_items(left: &[HeldItem], right: &[HeldItem]) -> bool
    ensures { result ≡ true → left.now ≡ right.now }
{
    left == right
}

// Whether two registers hold the same.
fn is_same_text(left: &RegisterText, right: &RegisterText) -> bool
    ensures { result ≡ true → left.now ≡ right.now }
{
    if left.from() != right.from() || left.to() != right.to() {
        return false;
    }
    are_same_items(left.items(), right.items())
}

// Whether the registers hold the same, each at its place.
fn are_same_texts(left: &[RegisterText], right: &[RegisterText]) -> bool
    ensures { result ≡ true → left.now ≡ right.now }
{
    if left.len() != right.len() {
        return false;
    }
    for i in 0..left.len() {
        if !is_same_text(&left[i], &right[i]) {
            return false;
        }
    }
    true
}

/// Whether two rows are the same.
pub fn is_same_row(left: &TextRow, right: &TextRow) -> bool
    ensures { result ≡ true → left.now ≡ right.now }
{
    if left.state() != right.state() || left.node() != right.node() {
        return false;
    }
    if left.marks() != right.marks() {
        return false;
    }
    are_same_texts(left.texts(), right.texts())
}
