//! Signatures that a table lacks.
ghost use Rattle.std.specs.Prelude.{◌≡◌};
ghost use Rattle.server_signatures.specs.Table.{missing, is_missing};

use crate::made::{MadeSignature, signature_in};
use answer_publisher::signing::SigningInput;
use answer_terms::dnskey::ZoneKey;

/// The inputs of which a table has no signature, in their order.
pub(crate) fn missing(table: &[MadeSignature<'_>], inputs: Vec<SigningInput>) -> Vec<SigningInput>
    ensures { result.items ≡ missing table.now inputs.items }
{
    let mut lacking = inputs;
    lacking.retain(|input| is_missing(table, input));
    lacking
}

/// Whether a table has no signature of an input.
fn is_missing(table: &[MadeSignature<'_>], input: &SigningInput) -> bool
    ensures { result ≡ is_missing table.now input.now }
{
    signature_in(table, &input.key.for_ref(), &input.octets).is_none()
}
