//! Names without a suffix.

ghost use Rattle.std.specs.Prelude.{◌≡◌, ◌↔◌, ◌++◌, ℕ, List, true, false, IfOk, IsErr, OnOk, OnErr};
ghost use Rattle.definitions.specs.Name.{Name as Labels, at_or_above, same};

use crate::builder::BuiltOctets;
use crate::name::Name;
use crate::relative::RelativeName;
use names_labels::traits::{Absolute, Relative, ToLabelIter};
use thiserror::Error;

/// A name does not end with the suffix.
#[derive(Clone, Copy, Debug, PartialEq, Eq, Error)]
#[error("suffix not found")]
pub struct StripSuffixError;

impl<Octs: BuiltOctets> Name<Octs> {
    /// The labels in front of a suffix. Suffixes are compared up to ASCII case.
    pub fn strip_suffix<N: Absolute>(self, base: &N) -> Result<RelativeName<Octs>, StripSuffixError>
    where
        Octs: Drop,
        ensures ok { IfOk result (λ n. (suffix : Labels)
            × (n ++ suffix ≡ self) × (same (N.name base.now) suffix ≡ true)) }
        ensures err { IsErr result ↔ (at_or_above (N.name base.now) self ≡ false) }
    {
        if !self.ends_with(base) {
            return Err(StripSuffixError);
        }
        let len = self.as_slice().len() - usize::from(base.compose_len());
        Ok(self.truncate(len))
    }
}

impl<Octs: BuiltOctets> RelativeName<Octs> {
    /// Takes a suffix away. Suffixes are compared up to ASCII case. A refused call changes nothing.
    pub fn strip_suffix<N: Relative>(&mut self, base: &N) -> Result<(), StripSuffixError>
        ensures ok { let ending = N.name base.now in OnOk result ((suffix : Labels)
            × (self.new ++ suffix ≡ self.old) × (same ending suffix ≡ true)) }
        ensures err { IsErr result ↔ (at_or_above (N.name base.now) self.old ≡ false) }
        ensures unchanged { OnErr result (self.new ≡ self.old) }
    {
        if !self.ends_with(base) {
            return Err(StripSuffixError);
        }
        let len = self.len() - usize::from(base.compose_len());
        self.truncate(len);
        Ok(())
    }
}
