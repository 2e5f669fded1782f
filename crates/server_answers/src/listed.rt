//! The types that the records of the chain in a message list.
ghost use Rattle.std.specs.Prelude.{◌≡◌, ◌++◌, map, IfOk, OnOk};
ghost use Rattle.std.specs.List.{flat_map};
ghost use Rattle.denial_bitmap.specs.Types.{types_in};
ghost use Rattle.messages.specs.Record.{spelled};
ghost use Rattle.server_answers.specs.Listed.{listed, types_of};

use denial_bitmap::bitmap::RtypeBitmap;
use messages::listed::read_message_into;
use messages::view::ViewRecord;
use numbers::rtype::Rtype;
use std::alloc::{AllocError, Global};

/// The types of each NSEC and NSEC3 record of a message, in order; none where it does not read.
pub(crate) fn listed_types(alloc: Global, message: &[u8]) -> Result<Vec<Rtype>, AllocError>
    ensures { IfOk result (λ v. v.items ≡ listed message.now) }
{
    let mut types = Vec::new(alloc);
    let mut records = Vec::new(alloc);
    let Ok((_view, read)) = read_message_into(message, &mut records) else {
        return Ok(types);
    };
    read?;
    push_listed(&mut types, message, &records)?;
    Ok(types)
}

/// Adds the types of some records of a message.
fn push_listed(
    types: &mut Vec<Rtype>,
    message: &[u8],
    records: &[ViewRecord<'_>],
) -> Result<(), AllocError>
    ensures { let more = flat_map (types_of message.now) (map spelled records.now) in
        OnOk result (types.new.items ≡ types.old.items ++ more) }
{
    for view in records {
        push_types_of(types, message, view)?;
    }
    Ok(())
}

/// Adds the types that a record lists, if it is one of a chain.
fn push_types_of(
    types: &mut Vec<Rtype>,
    message: &[u8],
    view: &ViewRecord<'_>,
) -> Result<(), AllocError>
    ensures { let more = types_of message.now (spelled view.now) in
        OnOk result (types.new.items ≡ types.old.items ++ more) }
{
    if view.rtype == Rtype::NSEC {
        return match view.link(message) {
            Some(link) => push_types(types, link.types()),
            None => Ok(()),
        };
    }
    if view.rtype == Rtype::NSEC3 {
        return match view.hashed_link(message) {
            Some(link) => push_types(types, link.types()),
            None => Ok(()),
        };
    }
    Ok(())
}

/// Adds the types of a bitmap.
fn push_types(types: &mut Vec<Rtype>, bitmap: &RtypeBitmap<&[u8]>) -> Result<(), AllocError>
    ensures { OnOk result (types.new.items ≡ types.old.items ++ types_in bitmap.now) }
{
    let mut left = bitmap.iter();
    while let Some(rtype) = left.next() {
        types.push(rtype)?;
    }
    Ok(())
}
