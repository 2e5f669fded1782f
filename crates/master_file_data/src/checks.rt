//! What data keep beyond their form.

ghost use Rattle.std.specs.Prelude.{◌≤◌, length, OnOk};

use crate::fault::DataFault;
use names_rdata::rtype::Rtype;

/// How long the digests of DS and CDS records are, by their type.
const DS_DIGESTS: [(u8, usize); 7] = [(0, 1), (1, 20), (2, 32), (3, 32), (4, 48), (5, 32), (6, 32)];

/// How long fingerprints of SSHFP records are, by their type.
const FINGERPRINTS: [(u8, usize); 2] = [(1, 20), (2, 32)];

/// How long the digests of ZONEMD records are, by their algorithm.
const ZONE_DIGESTS: [(u8, usize); 2] = [(1, 48), (2, 64)];

/// Whether digests are as long as their types want, and all data at most as long as data are.
pub(crate) fn check_octets(rtype: Rtype, octets: &[u8]) -> Result<(), DataFault>
    ensures { OnOk result (length octets.now ≤ 65535) }
{
    if octets.len() > 65535 {
        return Err(DataFault::Long);
    }
    let is_whole = match rtype.to_int() {
        43 | 59 => is_digest(octets, 3, &DS_DIGESTS),
        44 => is_digest(octets, 1, &FINGERPRINTS),
        63 => is_digest(octets, 5, &ZONE_DIGESTS),
        _ => true,
    };
    if is_whole {
        Ok(())
    } else {
        Err(DataFault::Digest)
    }
}

/// Whether what stands behind the type at a place is as long as the type wants, if it is known.
fn is_digest(octets: &[u8], place: usize, lengths: &[(u8, usize)]) -> bool {
    let Some(behind) = octets.get(place..) else {
        return false;
    };
    let [digest_type, digest @ ..] = behind else {
        return false;
    };
    match lengths.iter().find(|known| known.0 == *digest_type) {
        Some((_, length)) => digest.len() == *length,
        None => !digest.is_empty(),
    }
}
