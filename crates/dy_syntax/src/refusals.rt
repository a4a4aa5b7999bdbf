ghost use Rattle.std.specs.Prelude.{OnOk, IfErr};
ghost use Rattle.dy_syntax.specs.Meaning.{file_of};
ghost use Rattle.dy_syntax.specs.Rules as rules;
ghost use Rattle.dy_syntax.specs.Refusals.{IsRefused};

use crate::files::File;
use crate::places::files::first_fault;
use std::alloc::Global;

/// Why a file is not well formed.
#[derive(Clone, Copy, Debug, PartialEq, Eq)]
pub enum FileError {
    /// The rule of this number, from 1 to 11, is broken at this line.
    Rule { line: u32, rule: u8 },
    Memory,
}

/// Tests all rules of well-formedness.
///
/// `Rule` names the least line at which a rule is broken and, on that line, the least rule. `Memory` comes only where
/// memory runs out.
pub fn well_formed(alloc: Global, file: &File) -> Result<(), FileError>
    ensures well_formed { OnOk result (rules.IsWellFormed (file_of file.now)) }
    ensures refused { IfErr result (IsRefused (file_of file.now)) }
{
    match first_fault(alloc, file) {
        Ok(least) => match least.found {
            None => Ok(()),
            Some(fault) => Err(FileError::Rule {
                line: fault.line,
                rule: fault.rule,
            }),
        },
        Err(_) => Err(FileError::Memory),
    }
}
