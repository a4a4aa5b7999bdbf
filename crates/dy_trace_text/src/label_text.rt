//! The text of labels, readers and usages.
ghost use Rattle.std.specs.Prelude.{◌≡◌, ◌<◌, ◌+◌, ◌++◌, codes, IfOk};
ghost use Rattle.std.specs.Fmt.{decimal};
ghost use Rattle.dy_label.specs.LabelsMeaning.{place_of_reader};
ghost use Rattle.dy_trace_text.specs.LabelText as texts;
ghost use Rattle.dy_trace_text.specs.MirrorPieces.{piece_text, pieces_text, label_steps, piece_steps, steps_left};

use crate::list_text::put_list;
use crate::pages::Page;
use dy_label::{Kind, Label, LabelShape, LabelView, Reader, Usage};
use dy_term::Memory;
use std::alloc::Global;

/// What of a label is still to be written.
#[derive(Drop)]
pub(crate) enum Piece<'a> {
    Label(LabelView<'a>),
    Comma,
    Close,
}

/// Adds the text of a label. A label of any depth is written without calls within calls.
#[tactic(auto, using(crate::proofs::Pieces::push_text, crate::proofs::Pieces::push_steps))]
pub(crate) fn put_label(alloc: Global, page: &mut Page, label: &Label) -> Result<(), Memory>
    ensures { IfOk result (λ _. page.new ≡ page.old ++ texts.label_text label.now) }
{
    let mut pieces = Vec::new(alloc);
    pieces.push(Piece::Label(label.whole()))?;
    while let Some(piece) = pieces.pop() {
        put_piece(page, &mut pieces, piece)?;
    }
    Ok(())
}

/// Adds what comes first of a piece, and puts the rest of it on the pieces that are left.
fn put_piece<'a>(
    page: &mut Page,
    pieces: &mut Vec<Piece<'a>>,
    piece: Piece<'a>,
) -> Result<(), Memory>
    ensures text { IfOk result (λ _. page.new ++ pieces_text pieces.new.items
        ≡ page.old ++ piece_text piece.entry ++ pieces_text pieces.old.items) }
    ensures fewer { IfOk result (λ _.
        steps_left pieces.new.items < piece_steps piece.entry + steps_left pieces.old.items) }
{
    match piece {
        Piece::Comma => page.put(b", "),
        Piece::Close => page.put(b")"),
        Piece::Label(label) => match label.shape() {
            LabelShape::Public => page.put(b"public"),
            LabelShape::Nobody => page.put(b"nobody"),
            LabelShape::One(reader) => put_reader(page, reader),
            LabelShape::Join(first, second) => {
                page.put(b"join(")?;
                push_parts(pieces, first, second)
            }
            LabelShape::Meet(first, second) => {
                page.put(b"meet(")?;
                push_parts(pieces, first, second)
            }
        },
    }
}

/// Leaves the two parts of a label to be written, the first of them next.
#[tactic(auto, using(crate::proofs::Pieces::push_text, crate::proofs::Pieces::push_steps))]
fn push_parts<'a>(
    pieces: &mut Vec<Piece<'a>>,
    first: LabelView<'a>,
    second: LabelView<'a>,
) -> Result<(), Memory>
    ensures text { IfOk result (λ _. pieces_text pieces.new.items
        ≡ texts.label_text first.entry ++ codes ", " ++ texts.label_text second.entry ++ codes ")"
        ++ pieces_text pieces.old.items) }
    ensures steps { IfOk result (λ _. steps_left pieces.new.items
        ≡ (label_steps first.entry + label_steps second.entry) + 2 + steps_left pieces.old.items) }
{
    pieces.push(Piece::Close)?;
    pieces.push(Piece::Label(second))?;
    pieces.push(Piece::Comma)?;
    pieces.push(Piece::Label(first))?;
    Ok(())
}

fn put_reader(page: &mut Page, reader: &Reader) -> Result<(), Memory>
    ensures { IfOk result (λ _. page.new ≡ page.old ++ texts.reader_text (place_of_reader reader.now)) }
{
    match reader {
        Reader::Principal(principal) => {
            page.put(b"P(")?;
            page.put(principal.as_bytes())?;
        }
        Reader::Session(principal, session) => {
            page.put(b"S(")?;
            page.put(principal.as_bytes())?;
            put_more(page, *session)?;
        }
        Reader::Version(principal, session, version) => {
            page.put(b"V(")?;
            page.put(principal.as_bytes())?;
            put_more(page, *session)?;
            put_more(page, *version)?;
        }
    }
    page.put(b")")
}

/// Adds a comma and a number.
fn put_more(page: &mut Page, number: u32) -> Result<(), Memory>
    ensures { IfOk result (λ _. page.new ≡ page.old ++ codes ", " ++ decimal number) }
{
    page.put(b", ")?;
    page.put_number(u64::from(number))
}

fn kind_text(kind: Kind) -> &'static [u8]
    ensures { result.now ≡ texts.kind_text kind }
{
    match kind {
        Kind::Nonce => b"nonce",
        Kind::Pke => b"pke",
        Kind::Sig => b"sig",
        Kind::Aead => b"aead",
        Kind::Mac => b"mac",
        Kind::Kdf => b"kdf",
    }
}

/// Adds the kind of a usage, its name and its owners.
pub(crate) fn put_usage(page: &mut Page, usage: &Usage) -> Result<(), Memory>
    ensures { IfOk result (λ _. page.new ≡ page.old ++ texts.usage_text usage.now) }
{
    page.put(kind_text(usage.kind))?;
    page.put(b" ")?;
    page.put(usage.name.as_bytes())?;
    put_list(page, usage.owners.as_slice())
}
