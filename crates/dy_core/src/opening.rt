ghost use Rattle.std.specs.Prelude.{◌≡◌, ℕ, ◌≤◌, [], ◌∷◌, length, IfOk, IsErrOf};
ghost use Rattle.dy_syntax.specs.Meaning.{file_of};
ghost use Rattle.dy_syntax.specs.Rules.{IsWellFormed, IsFirst};
ghost use Rattle.dy_entry.specs.Entries.{Setup};
ghost use Rattle.dy_entry.specs.Meaning.{entries_of};
ghost use Rattle.dy_traces.specs.Interleavings.{Interleaves};
ghost use Rattle.dy_core.specs.Protocols.{IsProtocol};
ghost use Rattle.dy_core.specs.BookMeaning.{trace_of, file_in};
ghost use Rattle.dy_core.specs.Answers.{IsBadInput};
ghost use Rattle.dy_core.specs.MirrorFaults as mirror;

use crate::answers::OpenError;
use crate::books::Book;
use dy_entry::Entry;
use dy_lex::MAX_SOURCE_BYTES;
use dy_parse::{ParseError, parse};
use dy_syntax::{File, FileError, well_formed};
use dy_term::Memory;
use dy_traces::opening_trace;
use sqlite_items::Items;
use std::alloc::Global;

fn of_parse_error(error: ParseError) -> OpenError
    ensures { result ≡ mirror.of_parse_error error }
{
    match error {
        ParseError::BadLine { line } => OpenError::BadInput { line },
        ParseError::Limit { line, .. } => OpenError::BadInput { line },
        ParseError::Memory => OpenError::Memory,
    }
}

fn of_file_error(error: FileError) -> OpenError
    ensures { result ≡ mirror.of_file_error error }
{
    match error {
        FileError::Rule { line, .. } => OpenError::BadInput { line },
        FileError::Memory => OpenError::Memory,
    }
}

/// The file again, if it is well formed.
fn check_rules(alloc: Global, file: File) -> Result<File, OpenError>
    ensures file { IfOk result (λ same. (same ≡ file) × IsWellFormed (file_of file)) }
    ensures bad { (line : ℕ) → IsErrOf result (OpenError.BadInput line) →
        (rule : ℕ) × IsFirst (file_of file) rule line }
{
    match well_formed(alloc, &file) {
        Ok(()) => Ok(file),
        Err(error) => Err(of_file_error(error)),
    }
}

/// The well-formed file that the bytes are.
fn read_file(alloc: Global, bytes: &[u8]) -> Result<File, OpenError>
    requires { length bytes.now ≤ MAX_SOURCE_BYTES }
    ensures file { IfOk result (λ file. IsProtocol bytes.now (file_of file)) }
    ensures bad { (line : ℕ) → IsErrOf result (OpenError.BadInput line) → IsBadInput bytes.now line }
{
    match parse(alloc, bytes) {
        Ok(file) => check_rules(alloc, file),
        Err(error) => Err(of_parse_error(error)),
    }
}

/// The Setup of these bytes alone. The one refusal is out of memory.
fn setup_alone(alloc: Global, input: Vec<u8>) -> Result<Vec<Entry>, Memory>
    ensures trace { IfOk result (λ made. entries_of made.items ≡ Setup input.items ∷ []) }
    ensures one { IfOk result (λ made. length made.items ≡ 1) }
{
    let mut entries = Vec::new(alloc);
    match entries.push(Entry::Setup(Items::from_vec(input))) {
        Ok(()) => Ok(entries),
        Err(_) => Err(Memory),
    }
}

impl Book {
    /// Opens a Book of the Setup of these bytes alone, of which there are at most 1,048,576. `BadInput` comes exactly
    /// where they are no well-formed file. It has the line of the first fault: in the grammar, of a limit or of a
    /// rule. The other refusal is out of memory.
    pub fn open(alloc: Global, input: Vec<u8>) -> Result<Book, OpenError>
        requires { length input.items ≤ MAX_SOURCE_BYTES }
        ensures trace { IfOk result (λ book. trace_of book ≡ Setup input.items ∷ []) }
        ensures file { IfOk result (λ book. IsProtocol input.items (file_in book)) }
        ensures interleaves { IfOk result (λ book. Interleaves input.items (file_in book) (trace_of book)) }
        ensures bad { (line : ℕ) → IsErrOf result (OpenError.BadInput line) → IsBadInput input.items line }
    {
        opening_trace();
        let file = match read_file(alloc, input.as_slice()) {
            Ok(file) => file,
            Err(error) => return Err(error),
        };
        match setup_alone(alloc, input) {
            Ok(entries) => Ok(Book {
                alloc,
                file,
                entries,
                running: Vec::new(alloc),
            }),
            Err(_) => Err(OpenError::Memory),
        }
    }
}
