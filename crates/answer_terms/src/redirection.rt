//! What a DNAME makes of the names below it (RFC 6672, 2.2).
ghost use Rattle.std.specs.Prelude.{◌≡◌, IfOk, true};
ghost use Rattle.definitions.specs.Name.{at_or_above};
ghost use Rattle.denial_laws.specs.Leading.{exchanged};
ghost use Rattle.answer_terms.specs.Redirection.{lead_seen};

use messages::names::{Name, copy_name};
use names_traits::chain::Chain;
use std::alloc::{AllocError, Global};

/// Where a DNAME leads a name below its owner (RFC 6672, 2.2).
#[derive(Debug, Drop)]
pub enum Lead {
    /// To the name with the owner's labels exchanged for the target.
    To(Name<Vec<u8>>),
    /// To none: it would have more than 255 octets.
    TooLong,
}

/// The name with its last labels, those of a name above it, exchanged for others (RFC 6672, 2.2).
pub fn exchanged(
    alloc: Global,
    name: &Name<Vec<u8>>,
    owner: &Name<Vec<u8>>,
    target: &Name<Vec<u8>>,
) -> Result<Lead, AllocError>
    requires above { at_or_above owner.now name.now ≡ true }
    ensures { IfOk result (λ l. lead_seen l ≡ exchanged name.now owner.now target.now) }
{
    let Ok(front) = copy_name(alloc, name)?.strip_suffix(owner) else {
        return Ok(Lead::TooLong);
    };
    match Chain::new(front, target.for_ref()) {
        Ok(chain) => Ok(Lead::To(copy_name(alloc, &chain)?)),
        Err(_) => Ok(Lead::TooLong),
    }
}
