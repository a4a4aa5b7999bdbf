ghost use Rattle.std.specs.Prelude.{◌≡◌, ℕ, IfOk, IsErrOf};
ghost use Rattle.dy_syntax.specs.Rules.{IsWellFormed};
ghost use Rattle.dy_syntax.specs.Meaning.{file_of};
ghost use Rattle.dy_check.specs.Range.{AreShort};
ghost use Rattle.dy_sound.specs.Acceptance.{IsTyped, IsRefusedFile, IsSecureFile};

use crate::typed_files::typed_is_secure;
use dy_check::{Verdict, check};
use dy_syntax::File;
use dy_term::sameness_is_equality;
use std::alloc::Global;

/// A file that was accepted. It is typed, and every interleaving of it is secure.
#[derive(Drop)]
pub struct Accepted {
    file: File,
    ghost typed: { ∥ IsTyped (file_of file) ∥₁ },
    ghost secure: { ∥ IsSecureFile (file_of file) ∥₁ },
}

/// Why a file is not accepted.
#[derive(Clone, Copy, Debug, PartialEq, Eq)]
pub enum Refusal {
    /// The statement on this line does not meet the condition. `field` is the number of the field, the event or the
    /// partner, or 0.
    NotAccepted { line: u32, condition: u8, field: u8 },
    Memory,
}

/// Accepts a file that is typed. The file is well formed, and short as a file within the limits is. `NotAccepted`
/// comes exactly where the file is not typed, and names the first demand that no derivation meets. The other refusal
/// is out of memory.
pub fn accept(alloc: Global, file: File) -> Result<Accepted, Refusal>
    requires well_formed { IsWellFormed (file_of file) }
    requires short { AreShort (file_of file).decls }
    ensures file { IfOk result (λ accepted. accepted.file ≡ file) }
    ensures typed { IfOk result (λ accepted. IsTyped (file_of file)) }
    ensures refused { (line condition field : ℕ) → IsErrOf result (Refusal.NotAccepted line condition field) →
        IsRefusedFile (file_of file) line condition field }
{
    typed_is_secure();
    let Ok(verdict) = check(alloc, &file) else {
        return Err(Refusal::Memory);
    };
    match verdict {
        Verdict::Accepted => Ok(Accepted { file }),
        Verdict::Refused {
            line,
            condition,
            field,
        } => Err(Refusal::NotAccepted {
            line,
            condition,
            field,
        }),
    }
}

impl Accepted {
    /// The file that was accepted.
    pub fn file(&self) -> &File
        ensures { result.now ≡ self.now.file }
    {
        &self.file
    }

    /// Every interleaving of the file is secure.
    pub fn is_secure(&self)
        ensures { IsSecureFile (file_of self.now.file) }
    {
        sameness_is_equality();
    }
}
