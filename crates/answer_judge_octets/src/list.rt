//! Lists in octets: entries, one behind another.
ghost use Rattle.std.specs.Prelude.{◌≡◌, ℕ, ◌++◌, ◌<◌, List, length, IfOk, MatchOption};
ghost use Rattle.std.specs.Option.{option_map};
ghost use Rattle.answer_judge_octets.specs.Written.{IsList, Splits};

use std::alloc::{AllocError, Global};

/// What can be written into octets, and is found in front of them.
pub trait Written {
    /// What fits its octets.
    ghost fits: { Self → Type 0 };

    ghost written: { Self → List ℕ };

    /// One such value stands in front of octets.
    ghost once: { (a b : Self) (x y : List ℕ) → fits a → fits b
        → written a ++ x ≡ written b ++ y → (a ≡ b) × (x ≡ y) };

    ghost some: { (a : Self) → 0 < length (written a) };
}

/// What is found in front of octets.
pub trait Entry<'a>: Written + Sized {
    /// What stands in front of octets, and what stands behind it; nothing where nothing of the kind
    /// stands there.
    fn split_first(alloc: Global, octets: &'a [u8]) -> Result<Option<(Self, &'a [u8])>, AllocError>
        ensures { let found = option_map (λ p. (p.0, p.1.now)) in
            IfOk result (λ o. Splits Self.fits Self.written octets.now (found o)) };
}

/// The list that octets spell, all of them; nothing where they spell none.
pub fn read_list<'a, E: Entry<'a> + Drop>(
    alloc: Global,
    octets: &'a [u8],
) -> Result<Option<Vec<E>>, AllocError>
    ensures { let Are = IsList E.fits E.written octets.now in
        IfOk result (λ o. MatchOption o ((items : List E) → Are items → ⊥) (λ v. Are v.items)) }
{
    let mut items = Vec::new(alloc);
    let mut rest = octets;
    while !rest.is_empty() {
        let Some((item, behind)) = E::split_first(alloc, rest)? else {
            return Ok(None);
        };
        items.push(item)?;
        rest = behind;
    }
    Ok(Some(items))
}
