//! The disks that a record stands on.

ghost use Rattle.std.specs.Prelude.{◌≡◌, true, false};
ghost use Rattle.journal_books.specs.declared.disks.Disks.TheVariants.{One, Two};
ghost use Rattle.journal_books.specs.Books.{are_two};

use simplex_journal::Disk;

/// One disk, or two.
#[derive(Drop)]
pub enum Disks<K: Disk> {
    /// One.
    One(K),
    /// A first and a second.
    Two(K, K),
}

impl<K: Disk> Disks<K> {
    /// Whether they are two.
    pub fn are_two(&self) -> bool
        ensures { result ≡ are_two self.now }
    {
        match self {
            Disks::One(_) => false,
            Disks::Two(_, _) => true,
        }
    }

    /// The one, where there is one.
    pub fn one(self) -> K
        requires { are_two self ≡ false }
        ensures { self ≡ One result }
    {
        match self {
            Disks::One(disk) => disk,
            Disks::Two(_, _) => unreachable!(),
        }
    }

    /// Both, where there are two.
    pub fn two(self) -> (K, K)
        requires { are_two self ≡ true }
        ensures { self ≡ Two result.0 result.1 }
    {
        match self {
            Disks::One(_) => unreachable!(),
            Disks::Two(first, second) => (first, second),
        }
    }
}
