ghost use Rattle.std.specs.Prelude.{◌≡◌, IfOk, List, Contains};
ghost use Rattle.dy_syntax.specs.Meaning.{file_of};
ghost use Rattle.dy_entry.specs.declared.entries.Entry as declared;
ghost use Rattle.dy_entry.specs.Meaning.{entry_of, entries_of};
ghost use Rattle.dy_derive.specs.KnowledgeMeaning.{GivesSmallValues};
ghost use Rattle.dy_know.specs.Conditions.{MakesNoncesFirst};
ghost use Rattle.dy_know.specs.Reports.{IsReport};
ghost use Rattle.dy_know.specs.ReportMeaning.{report_of};

use crate::auditors::Auditor;
use crate::reports::Report;
use dy_entry::Entry;
use dy_syntax::File;
use dy_term::Memory;
use std::alloc::Global;

/// The report of a trace of this file. Its values have at most 1,024 nodes, and it makes its nonces first, as each
/// interleaving does. It refuses out of memory alone.
pub fn audit(alloc: Global, file: &File, entries: &[Entry]) -> Result<Report, Memory>
    requires small { (e : declared.Entry) → Contains entries.now e → GivesSmallValues (entry_of e) }
    requires first { MakesNoncesFirst (entries_of entries.now) }
    ensures { IfOk result (λ report. IsReport (file_of file.now).decls (entries_of entries.now) (report_of report)) }
{
    let mut auditor = Auditor::open(alloc, file)?;
    for entry in entries {
        auditor.push(entry)?;
    }
    auditor.report()
}
