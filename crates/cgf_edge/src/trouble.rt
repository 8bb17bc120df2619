// What a file or a folder has failed with.
ghost use Rattle.std.specs.Prelude.{◌≡◌, ◌≢◌, ◌≤◌, IfErr, IfOk, IsErr, Ok, Some};
ghost use Rattle.area_disk.specs.Disk.{HasCause, Rose};
ghost use Rattle.cgf_edge.specs.declared.trouble.Trouble.TheVariants as kind;

use area_disk::Failed;
use std::fs::TryLockError;
use std::{fmt, io};

/// Why a call of a file area or a folder shelf failed.
#[derive(Clone, Copy, Debug)]
pub enum Trouble {
    /// Another process, or another handle of this one, has the lock.
    Locked,
    /// The file isn't a regular one.
    NotAFile,
    /// The file has so many octets, which are other than those of the area, and it isn't one that a start left short.
    Length(u64),
    /// A sealed file has that name already.
    Sealed,
    /// The stream has no file that isn't sealed, or its number has more than two digits.
    NoFile,
    /// An earlier sync failed, so nobody knows what stands.
    Unsynced,
    /// The system refused it.
    System(io::Error),
}

impl fmt::Display for Trouble {
    fn fmt<W: fmt::Write>(&self, f: &mut fmt::Formatter<W>) -> fmt::Result {
        match self {
            Trouble::Locked => f.write_str("locked by another process"),
            Trouble::NotAFile => f.write_str("not a regular file"),
            Trouble::Length(found) => write!(f, "another length: {found} octets"),
            Trouble::Sealed => f.write_str("a sealed file has that name"),
            Trouble::NoFile => f.write_str("no file was begun"),
            Trouble::Unsynced => f.write_str("an earlier sync failed"),
            Trouble::System(error) => write!(f, "{error}"),
        }
    }
}

impl From<io::Error> for Trouble {
    ghost from_gives = { λ error t. t ≡ kind.System error };

    fn from(error: io::Error) -> Self {
        Trouble::System(error)
    }
}

impl From<TryLockError> for Trouble {
    ghost use Rattle.cgf_edge.specs.Troubles.{lock_trouble};

    ghost from_gives = { λ error t. t ≡ lock_trouble error };

    fn from(error: TryLockError) -> Self {
        match error {
            TryLockError::WouldBlock => Trouble::Locked,
            TryLockError::Error(error) => Trouble::System(error),
        }
    }
}

/// How often calls have failed, and what the last of them failed with. Where that was an earlier sync that failed, it
/// isn't noted: what that sync failed with tells more.
#[derive(Drop)]
pub struct Troubles {
    pub count: u64,
    pub last: Option<Trouble>,
}

impl Troubles {
    /// None yet.
    pub fn new() -> Troubles
        ensures { result.count ≡ 0 }
    {
        Troubles {
            count: 0,
            last: None,
        }
    }

    /// Counts a call that failed.
    pub fn failed(&mut self, trouble: Trouble) -> Failed
        ensures later { self.old.count ≤ self.new.count }
        ensures rose { Rose self.old.count self.new.count }
        ensures last { trouble ≢ kind.Unsynced → self.new.last ≡ Some trouble }
        ensures kept { trouble ≡ kind.Unsynced → self.new.last ≡ self.old.last }
    {
        self.count = self.count.saturating_add(1);
        if !matches!(trouble, Trouble::Unsynced) {
            self.last = Some(trouble);
        }
        Failed
    }

    /// Counts a call where it failed.
    pub fn told<T>(&mut self, done: Result<T, Trouble>) -> Result<T, Failed>
        ensures cause { HasCause self.old.count self.new.count result }
        ensures ok { IfOk done (λ value. (result ≡ Ok value) × (self.new ≡ self.old)) }
        ensures err { IfErr done (λ _. IsErr result) }
    {
        match done {
            Ok(value) => Ok(value),
            Err(trouble) => Err(self.failed(trouble)),
        }
    }
}
