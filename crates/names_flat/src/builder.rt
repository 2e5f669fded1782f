//! Builders finished as names over the octets that they made.

ghost use Rattle.std.specs.Prelude.{◌≡◌, ◌↔◌, ◌<◌, ◌++◌, length, IfOk, IfErr, IsErrOf};
ghost use Rattle.names_builder.specs.Building.{Building, all_labels, IsOver, with_labels};

use crate::name::Name;
use crate::relative::RelativeName;
pub use names_builder::builder::NameBuilder;
use names_builder::push_error::PushNameError;
use names_labels::traits::Absolute;
pub use names_wire::builder::BuiltOctets;

/// Turns what a builder has made into a name.
pub trait Finish<B: BuiltOctets>: Sized {
    ghost building: { Self → Building };

    /// Ends the open label, and returns the relative name.
    fn finish(self) -> RelativeName<B>
        ensures { result ≡ all_labels (building self) };

    /// Ends the open label, and returns the name under the root. The call is refused only for lack
    /// of room.
    fn into_name(self) -> Result<Name<B>, PushNameError>
    where
        B: Drop,
        ensures ok { IfOk result (λ n. n ≡ all_labels (building self)) }
        ensures err { IfErr result (λ e. e ≡ PushNameError.ShortBuf) };

    /// Ends the open label, and returns the name under an origin.
    fn append_origin<N: Absolute>(self, origin: &N) -> Result<Name<B>, PushNameError>
    where
        B: Drop,
        ensures ok { IfOk result (λ n. n ≡ all_labels (building self) ++ N.name origin.now) }
        ensures long_name { let after = with_labels (building self) (N.name origin.now) in
            IsErrOf result PushNameError.LongName ↔ IsOver after };
}

impl<B: BuiltOctets> Finish<B> for NameBuilder<B> {
    ghost building = { λ b. b };

    fn finish(self) -> RelativeName<B> {
        RelativeName::of_octets(self.into_octets())
    }

    fn into_name(self) -> Result<Name<B>, PushNameError>
    where
        B: Drop,
    {
        match self.into_name_octets() {
            Ok(octets) => Ok(Name::of_octets(octets)),
            Err(_) => Err(PushNameError::ShortBuf),
        }
    }

    fn append_origin<N: Absolute>(self, origin: &N) -> Result<Name<B>, PushNameError>
    where
        B: Drop,
    {
        match self.append_origin_octets(origin) {
            Ok(octets) => Ok(Name::of_octets(octets)),
            Err(error) => Err(error),
        }
    }
}
