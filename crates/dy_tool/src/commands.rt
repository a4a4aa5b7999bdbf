ghost use Rattle.std.specs.Prelude.{◌≡◌, ◌≤◌, ◌↔◌, true, List, [], ◌∷◌, length, IfOk, IsTrue};
ghost use Rattle.dy_tool.specs.Answers.{CarriesOut, Says};
ghost use Rattle.dy_tool.specs.Due.{words_of, quiet_commands, tool_commands};
ghost use Rattle.dy_tool.specs.Due.{IsNamed, IsDueBy, asks_for_typing, EachInterleavingIsSecure};

use crate::answers::Answer;
use crate::checking::check;
use crate::laws::typed_files_play_unbreached;
use crate::playing::play;
use crate::running::run;
use crate::showing::print_canonical;
use crate::statuses::Status;
use dy_io::{ReadError, Sink, Source, WriteError, read_all, write_all};
use dy_lex::MAX_SOURCE_BYTES;
use dy_term::Memory;
use std::alloc::Global;

/// What the words ask for.
#[derive(Clone, Copy, Debug, PartialEq, Eq)]
pub(crate) enum Command {
    Check,
    Show,
    Run,
    Play,
}

/// Carries out the command of these words, which are those after the program's name: `check`, `show` or `play`. `check`
/// reads a protocol file and writes the verdict on it; `show` writes its canonical text. `play` runs its plan step by
/// step in text order, and writes the trace and what an attacker learns in it, whether or not the file is typed.
///
/// The refusals come in this order: the words, a read fault or the length as the bytes come, the
/// file, writing. It waits for nobody, and returns for all words, sources and sinks.
pub fn quiet<S: Source, K: Sink>(
    alloc: Global,
    words: &[String],
    source: &mut S,
    sink: &mut K,
) -> Status
    // The status and the text are those that are due. Where `check` is Done, every interleaving is secure, and where
    // `play` is Done for a typed file, its text ends with the line `breaches 0`.
    ensures carried { CarriesOut quiet_commands (words_of words.now) (S.left source.old) (S.left source.new)
        (K.held sink.old) (K.held sink.new) (S.faults source.old) (S.faults source.new)
        (K.faults sink.old) (K.faults sink.new) result }
{
    carry_out(alloc, words, quiet_command(words), source, sink)
}

/// Carries out the command of these words, as `quiet` does, or `run`. That reads and checks a protocol file, runs its
/// plan step by step in text order, and writes the trace.
pub fn tool<S: Source, K: Sink>(
    alloc: Global,
    words: &[String],
    source: &mut S,
    sink: &mut K,
) -> Status
    // As with `quiet`, and where `run` is Done, every interleaving is secure too.
    ensures carried { CarriesOut tool_commands (words_of words.now) (S.left source.old) (S.left source.new)
        (K.held sink.old) (K.held sink.new) (S.faults source.old) (S.faults source.new)
        (K.faults sink.old) (K.faults sink.new) result }
{
    carry_out(alloc, words, tool_command(words), source, sink)
}

/// Carries out a command, or refuses the words where they name none.
fn carry_out<S: Source, K: Sink>(
    alloc: Global,
    words: &[String],
    command: Option<Command>,
    source: &mut S,
    sink: &mut K,
) -> Status
    ensures carried { (commands : List Command) → IsNamed commands (words_of words.now) command →
        CarriesOut commands (words_of words.now) (S.left source.old) (S.left source.new)
        (K.held sink.old) (K.held sink.new) (S.faults source.old) (S.faults source.new)
        (K.faults sink.old) (K.faults sink.new) result }
{
    let Some(command) = command else {
        return say(sink, Status::Words, b"bad words\n");
    };
    match read_all(alloc, source, MAX_SOURCE_BYTES) {
        Ok(bytes) => match answer(alloc, command, &bytes) {
            Ok(answer) => {
                typed_files_play_unbreached();
                say(sink, answer.status, answer.text.as_slice())
            }
            Err(_) => Status::Memory,
        },
        Err(ReadError::TooLong) => say(sink, Status::TooLong, b"too long\n"),
        Err(ReadError::Fault) => Status::ReadFault,
        Err(ReadError::Memory) => Status::Memory,
    }
}

/// Whether the words are this one word.
fn is_word(words: &[String], word: &str) -> bool
    ensures { IsTrue result ↔ (words_of words.now ≡ word.now ∷ []) }
{
    match words {
        [only] => only.as_str() == word,
        _ => false,
    }
}

/// The command of `quiet` that has these words, if they are those of one.
fn quiet_command(words: &[String]) -> Option<Command>
    ensures { IsNamed quiet_commands (words_of words.now) result }
{
    if is_word(words, "check") {
        Some(Command::Check)
    } else if is_word(words, "show") {
        Some(Command::Show)
    } else if is_word(words, "play") {
        Some(Command::Play)
    } else {
        None
    }
}

/// The command of `tool` that has these words, if they are those of one.
fn tool_command(words: &[String]) -> Option<Command>
    ensures { IsNamed tool_commands (words_of words.now) result }
{
    if is_word(words, "run") {
        Some(Command::Run)
    } else {
        quiet_command(words)
    }
}

/// The answer of a command for an input of at most `MAX_SOURCE_BYTES` bytes.
fn answer(alloc: Global, command: Command, bytes: &[u8]) -> Result<Answer, Memory>
    requires { length bytes.now ≤ MAX_SOURCE_BYTES }
    ensures due { IfOk result (λ a. IsDueBy command bytes.now a.status a.text.items) }
    ensures secure { asks_for_typing command ≡ true →
        IfOk result (λ a. a.status ≡ Status.Done → EachInterleavingIsSecure bytes.now) }
{
    match command {
        Command::Check => check(alloc, bytes),
        Command::Show => print_canonical(alloc, bytes),
        Command::Run => run(alloc, bytes),
        Command::Play => play(alloc, bytes),
    }
}

/// Writes the text, and answers the status, or that writing failed.
fn say<K: Sink>(sink: &mut K, status: Status, text: &[u8]) -> Status
    ensures { Says (K.held sink.old) (K.held sink.new) (K.faults sink.old) (K.faults sink.new) status text.now result }
{
    match write_all(sink, text) {
        Ok(()) => status,
        Err(WriteError::Fault) => Status::WriteFault,
    }
}
