//! The texts of faults.

use denial_data::{
    IllegalSignatureTime, Nsec3SaltError, Nsec3SaltFromStrError, OwnerHashError,
    OwnerHashFromStrError, RtypeBitmapError,
};
use plain::base32hex::DecodeError;
use std::fmt::Display;
use test_lines::Line;

/// The texts of the faults of a kind, one behind another.
pub fn faults(line: &mut Line<'_>) {
    match line.word(1) {
        "time" => line.value(&IllegalSignatureTime),
        "salt" => line.value(&Nsec3SaltError),
        "hash" => line.value(&OwnerHashError),
        "bitmap" => {
            let faults = [
                RtypeBitmapError::BadRtypeBitmap,
                RtypeBitmapError::ShortInput,
            ];
            texts(line, &faults)
        }
        "salt-text" => {
            let fault = Nsec3SaltFromStrError::Nsec3SaltError(Nsec3SaltError);
            texts(line, &[fault, Nsec3SaltFromStrError::Memory])
        }
        "hash-text" => {
            let fault = OwnerHashFromStrError::DecodeError(DecodeError::BadChar(2));
            let other = OwnerHashFromStrError::OwnerHashError(OwnerHashError);
            texts(line, &[fault, other, OwnerHashFromStrError::Memory])
        }
        "digits" => texts(line, &[DecodeError::BadChar(2), DecodeError::Memory]),
        _ => line.lose(),
    }
}

fn texts<E: Display>(line: &mut Line<'_>, faults: &[E]) {
    let mut texts = line.aside("; ");
    for fault in faults {
        texts.value(fault);
    }
    line.append(texts);
}
