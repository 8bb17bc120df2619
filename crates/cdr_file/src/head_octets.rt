ghost use Rattle.std.specs.Prelude.{◌≡◌, ◌≤◌, ◌<◌, ◌+◌, ◌++◌, length};
ghost use Rattle.cdr_file.specs.Profile.{extension_octets};

use gw_base::Short;
use std::marker::Model;

/// The octets of a header of a file or of a CDR: at most 54.
#[derive(Drop)]
pub struct HeadOctets {
    octets: Short,
}

impl Model for HeadOctets {
    ghost use Rattle.std.specs.Prelude.{List, ℕ, ◌≤◌, length};

    ghost Value = { List ℕ };

    ghost view = { λ h. h.octets };

    ghost invariant = { λ h. length h.octets ≤ 54 };
}

impl HeadOctets {
    /// These octets, at most 52.
    pub(crate) fn of(from: &[u8]) -> HeadOctets
        requires { length from.now ≤ 52 }
        ensures { result ≡ from.now }
    {
        let mut octets = Short::new();
        octets.append(from);
        HeadOctets { octets }
    }

    /// Appends the octet of an extension, if there is one.
    pub(crate) fn append(&mut self, extension: Option<u8>)
        requires { length self.old < 54 }
        ensures octets { self.new ≡ self.old ++ extension_octets extension }
        ensures most { length self.new ≤ length self.old + 1 }
    {
        if let Some(extension) = extension {
            self.octets.append(&[extension]);
        }
    }

    /// The octets, in order.
    pub fn octets(&self) -> &[u8]
        ensures octets { result.now ≡ self.now }
        ensures most { length result.now ≤ 54 }
    {
        self.octets.octets()
    }
}
