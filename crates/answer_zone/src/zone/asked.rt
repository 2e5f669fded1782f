//! Where a question is answered: at a delegation that refers it away, or at its own name.
ghost use Rattle.std.specs.Prelude.{◌≡◌, ◌&&◌, ◌==◌, not};
ghost use Rattle.definitions.specs.Name.{strictly_above};
ghost use Rattle.answer_zone.specs.Placed.{IsAsked, IsNear};

use crate::zone::ZoneRecords;
use answer_zone_records::near::Neighbours;
use answer_zone_records::owned::{Cut, Owned};
use denial_nsec3_hash::hasher::Nsec3Hasher;
use messages::names::{Name, is_above};
use names_rdata::rtype::Rtype;

/// Where a question is answered.
#[derive(Drop)]
pub(super) enum Asked<'a> {
    /// At a delegation, which refers the question away.
    Away(Cut<'a>),
    /// At the question's own name: no delegation refers it away. What the name owns.
    Here(Owned<'a>),
}

impl<'h, H: Nsec3Hasher> ZoneRecords<'h, H> {
    /// The topmost delegation at or above a name refers a question away, unless the DS record there
    /// is asked for, which stands in this zone (RFC 4035, 3.1.4.1).
    pub(super) fn asked(
        &self,
        name: &Name<Vec<u8>>,
        near: &Neighbours<'_>,
        rtype: Rtype,
    ) -> Asked<'_>
        requires { IsNear name.now self.now.records near.now }
        ensures { IsAsked self.now.apex self.now.records name.now rtype result }
    {
        if let Some(cut) = self.cut_above(name, near) {
            return Asked::Away(cut);
        }
        let owned = self.owned_near(name, near);
        if !self.may_refer(name, rtype) {
            return Asked::Here(owned);
        }
        match owned.into_delegation() {
            Ok(cut) => Asked::Away(cut),
            Err(owned) => Asked::Here(owned),
        }
    }

    /// Whether a delegation at the name itself refers the question away: below the apex, where DS
    /// is not asked for.
    fn may_refer(&self, name: &Name<Vec<u8>>, rtype: Rtype) -> bool
        ensures { result ≡ (not (rtype == 43) && strictly_above self.now.apex name.now) }
    {
        rtype != Rtype::DS && is_above(&self.apex, name)
    }
}
