ghost use Rattle.std.specs.Prelude.{◌≡◌};
ghost use Rattle.dy_syntax.specs.Meaning as meaning;
ghost use Rattle.dy_cases.specs.Derived.{kind_named};

use dy_label::Kind;
use dy_syntax::KindText;

/// The kind that a kind's name in a file means.
pub fn kind_of(kind: KindText) -> Kind
    ensures { result ≡ kind_named (meaning.kind_of kind) }
{
    match kind {
        KindText::Nonce => Kind::Nonce,
        KindText::Pke => Kind::Pke,
        KindText::Sig => Kind::Sig,
        KindText::Aead => Kind::Aead,
        KindText::Mac => Kind::Mac,
        KindText::Kdf => Kind::Kdf,
    }
}
