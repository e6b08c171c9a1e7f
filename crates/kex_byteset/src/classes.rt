//! The classes of bytes that sets do not tell apart.

ghost use Rattle.std.specs.Prelude.{◌≡◌, ℕ, ◌<◌, ◌≤◌, Bool, List, [], ◌∷◌, ◌++◌, length, set};
ghost use Rattle.kex_byteset.specs.Classes.{class_at, class_count, IsNumbered, IsRefinedBy};
ghost use Rattle.kex_byteset.specs.Classes.{new_number, number_or, count_with};

use crate::ByteSet;
use std::marker::Model;

/// The bytes by classes: two bytes are in one class exactly if each set that the partition was
/// refined by has both or neither. Classes are numbered from 0, by their least bytes.
#[derive(Drop)]
pub struct Partition {
    classes: [u8; 256],
}

impl Model for Partition {
    ghost use Rattle.std.specs.Prelude.{ℕ, List};
    ghost use Rattle.kex_byteset.specs.Classes.{IsNumbered};

    ghost Value = { List ℕ };

    ghost view = { λ p. p.classes };

    ghost invariant = { λ p. IsNumbered p.classes };
}

impl Partition {
    /// All bytes in one class.
    pub fn new() -> Partition
        ensures { IsRefinedBy result [] }
    {
        Partition { classes: [0; 256] }
    }

    /// The same partition again.
    pub fn copy(&self) -> Partition
        ensures { result ≡ self.now }
    {
        Partition {
            classes: self.classes,
        }
    }

    /// Parts each class that has bytes of the set and others. The classes are numbered anew.
    pub fn refine(&mut self, set: &ByteSet)
        ensures refined { (sets : List (List Bool)) → IsRefinedBy self.old sets
            → IsRefinedBy self.new (sets ++ set.now ∷ []) }
        ensures flags { length set.now ≡ 256 }
    {
        let _flags = &set.words;
        let old = self.classes;
        self.classes = parted(&old, set);
    }

    /// The class of a byte.
    pub fn class_of(&self, b: u8) -> u8
        ensures class { result ≡ class_at self.now b }
        ensures below { result < class_count self.now }
    {
        self.classes[usize::from(b)]
    }

    /// How many classes there are, from 1 to 256.
    pub fn classes(&self) -> u16
        ensures count { result ≡ class_count self.now }
        ensures within { (0 < result) × (result ≤ 256) }
        ensures numbered { IsNumbered self.now }
    {
        count_of(&self.classes)
    }
}

// The classes when each is parted by the set.
fn parted(old: &[u8; 256], set: &ByteSet) -> [u8; 256]
    ensures numbered { IsNumbered result }
    ensures refined { (sets : List (List Bool)) → IsRefinedBy old.now sets
        → IsRefinedBy result (sets ++ set.now ∷ []) }
{
    let mut new = [0; 256];
    let mut within = [None; 256];
    let mut outside = [None; 256];
    let mut count = 0;
    for (byte, class) in old.iter().enumerate() {
        new[byte] = if set.has(byte as u8) {
            number_in(&mut within, *class, &mut count)
        } else {
            number_in(&mut outside, *class, &mut count)
        };
    }
    new
}

fn count_of(classes: &[u8; 256]) -> u16
    ensures count { result ≡ class_count classes.now }
    ensures within { (0 < result) × (result ≤ 256) }
{
    let mut count = 0;
    for class in classes {
        let past = u16::from(*class) + 1;
        if count < past {
            count = past;
        }
    }
    count
}

// The number that an old class has, or the next one, which it then has.
fn number_in(numbers: &mut [Option<u8>; 256], class: u8, count: &mut u16) -> u8
    requires { count.old < 256 }
    ensures number { result ≡ number_or count.old (new_number numbers.old class) }
    ensures numbers { numbers.new ≡ set numbers.old class (Some result) }
    ensures count { count.new ≡ count_with count.old (new_number numbers.old class) }
{
    let known = numbers[usize::from(class)];
    let number = match known {
        Some(number) => number,
        None => {
            let next = *count as u8;
            *count += 1;
            next
        }
    };
    numbers[usize::from(class)] = Some(number);
    number
}
