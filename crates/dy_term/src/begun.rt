ghost use Rattle.std.specs.Prelude.{◌≡◌, IfOk, map, Option, option_map};
ghost use Rattle.dy_term.specs.MirrorSteps as steps;
ghost use Rattle.dy_term.specs.MirrorReader.{part_of, begun_of};

use crate::{Term, Text};
use std::alloc::{AllocError, Global};

/// A constructor with one part.
#[derive(Clone, Copy, Debug)]
pub(crate) enum Single {
    Pk,
    Vk,
    Hash,
}

/// A constructor with two parts that are terms, and nothing else.
#[derive(Clone, Copy, Debug)]
pub(crate) enum Double {
    Pair,
    Penc,
    Sign,
    Mac,
}

/// A part that was read. Past 1,024 nodes no term is part_within.
pub(crate) type Part = Option<Term>;

/// A constructor that has been begun, with the parts that were read.
#[derive(Debug, Drop)]
pub(crate) enum Begun {
    One(Single),
    First(Double),
    Second(Double, Part),
    AeadKey,
    AeadMessage(Part),
    AeadData(Part, Part),
    KdfKey,
    KdfInput(Part, Text),
}

/// The constructor of this name, begun.
pub(crate) fn begun_by(name: &[u8]) -> Option<Begun>
    ensures { option_map begun_of result ≡ steps.begun_by name.now }
{
    if name == b"pair".as_slice() {
        Some(Begun::First(Double::Pair))
    } else if name == b"pk".as_slice() {
        Some(Begun::One(Single::Pk))
    } else if name == b"vk".as_slice() {
        Some(Begun::One(Single::Vk))
    } else if name == b"penc".as_slice() {
        Some(Begun::First(Double::Penc))
    } else if name == b"aead".as_slice() {
        Some(Begun::AeadKey)
    } else if name == b"sign".as_slice() {
        Some(Begun::First(Double::Sign))
    } else if name == b"mac".as_slice() {
        Some(Begun::First(Double::Mac))
    } else if name == b"kdf".as_slice() {
        Some(Begun::KdfKey)
    } else if name == b"hash".as_slice() {
        Some(Begun::One(Single::Hash))
    } else {
        None
    }
}

/// A constructor of one part, whole.
pub(crate) fn whole_single(alloc: Global, maker: Single, part: Part) -> Result<Part, AllocError>
    ensures { IfOk result (λ made. part_of made ≡ steps.whole_single maker (part_of part)) }
{
    let Some(part) = part else {
        return Ok(None);
    };
    let part = Box::new(alloc, part)?;
    Ok(Some(match maker {
        Single::Pk => Term::Pk(part),
        Single::Vk => Term::Vk(part),
        Single::Hash => Term::Hash(part),
    }))
}

/// A constructor of two parts, whole.
pub(crate) fn whole_double(
    alloc: Global,
    maker: Double,
    first: Part,
    second: Part,
) -> Result<Part, AllocError>
    ensures { IfOk result (λ made. part_of made ≡ steps.whole_double maker (part_of first) (part_of second)) }
{
    let (Some(first), Some(second)) = (first, second) else {
        return Ok(None);
    };
    let first = Box::new(alloc, first)?;
    let second = Box::new(alloc, second)?;
    Ok(Some(match maker {
        Double::Pair => Term::Pair(first, second),
        Double::Penc => Term::Penc(first, second),
        Double::Sign => Term::Sign(first, second),
        Double::Mac => Term::Mac(first, second),
    }))
}

/// An authenticated encryption, whole.
pub(crate) fn whole_aead(
    alloc: Global,
    key: Part,
    message: Part,
    associated: Part,
) -> Result<Part, AllocError>
    ensures { IfOk result (λ made. part_of made
        ≡ steps.whole_aead (part_of key) (part_of message) (part_of associated)) }
{
    let (Some(key), Some(message), Some(associated)) = (key, message, associated) else {
        return Ok(None);
    };
    let key = Box::new(alloc, key)?;
    let message = Box::new(alloc, message)?;
    let associated = Box::new(alloc, associated)?;
    Ok(Some(Term::Aead(key, message, associated)))
}

/// A derived key, whole.
pub(crate) fn whole_kdf(
    alloc: Global,
    key: Part,
    context: Text,
    input: Part,
) -> Result<Part, AllocError>
    ensures { IfOk result (λ made. part_of made ≡ steps.whole_kdf (part_of key) context (part_of input)) }
{
    let Some(key) = key else {
        return Ok(None);
    };
    let Some(input) = input else {
        return Ok(None);
    };
    let key = Box::new(alloc, key)?;
    let input = Box::new(alloc, input)?;
    Ok(Some(Term::Kdf(key, context, input)))
}
