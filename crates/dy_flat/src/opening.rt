ghost use Rattle.std.specs.Prelude.{◌≡◌};
ghost use Rattle.dy_flat.specs.Views.{tree_of};
ghost use Rattle.dy_flat.specs.PartMeaning.{part_of};
ghost use Rattle.dy_flat.specs.Openings as openings;

use crate::comparing::same;
use crate::parts::{Parts, take_apart};
use crate::views::View;

/// Lends the message of public-key encryption. `None` exactly where the term is none, or is not encrypted to the
/// public key of this very key.
pub fn penc_message<'a>(sealed: View<'a>, key: View) -> Option<View<'a>>
    ensures { part_of result ≡ openings.penc_message (tree_of sealed.entry) (tree_of key.entry) }
{
    let Parts::Penc(to, message) = take_apart(sealed) else {
        return None;
    };
    let Parts::Pk(own) = take_apart(to) else {
        return None;
    };
    if same(own, key) { Some(message) } else { None }
}

/// Lends the message of authenticated encryption. `None` exactly where the term is none, or is not encrypted with
/// this very key.
pub fn aead_message<'a>(sealed: View<'a>, key: View) -> Option<View<'a>>
    ensures { part_of result ≡ openings.aead_message (tree_of sealed.entry) (tree_of key.entry) }
{
    let Parts::Aead(own, message, _) = take_apart(sealed) else {
        return None;
    };
    if same(own, key) { Some(message) } else { None }
}

/// Lends the message of authenticated encryption with this associated data. `None` exactly where the term is none,
/// is not encrypted with this very key, or has other associated data.
pub fn aead_message_with<'a>(sealed: View<'a>, key: View, wanted: View) -> Option<View<'a>>
    ensures { part_of result
        ≡ openings.aead_message_with (tree_of sealed.entry) (tree_of key.entry) (tree_of wanted.entry) }
{
    let Parts::Aead(own, message, associated) = take_apart(sealed) else {
        return None;
    };
    if same(own, key) && same(associated, wanted) {
        Some(message)
    } else {
        None
    }
}

/// Lends the message of a signature. `None` exactly where the term is none.
pub fn signed_message<'a>(signed: View<'a>) -> Option<View<'a>>
    ensures { part_of result ≡ openings.signed_message (tree_of signed.entry) }
{
    match take_apart(signed) {
        Parts::Sign(_, message) => Some(message),
        _ => None,
    }
}
