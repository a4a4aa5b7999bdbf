ghost use Rattle.std.specs.Prelude.{◌≡◌, ◌≢◌, ℕ, ◌≤◌, true, List, length};
ghost use Rattle.dy_lex.specs.declared.limits.TheConstants.{MAX_SOURCE_BYTES};
ghost use Rattle.dy_syntax.specs.Files.{File};
ghost use Rattle.dy_parse.specs.Reading.{Reads};
ghost use Rattle.dy_show.specs.Canonical.{canon};
ghost use Rattle.dy_sound.specs.Acceptance.{IsTyped};
ghost use Rattle.dy_tool.specs.Due.{IsDue, IsDueBy, asks_for_typing, words_for, EachInterleavingIsSecure};
ghost use Rattle.dy_tool.specs.Playing.{AreOfOneRun, EndsUnbreached};
ghost use Rattle.dy_tool.specs.declared.commands.Command.{Command};
ghost use Rattle.dy_tool.specs.Showing.{IsTextOfFile, ReadsBack};
ghost use Rattle.dy_tool.specs.declared.statuses.Status.{Status};

use dy_know::{one_report_for_a_trace, secure_where_nothing_is_breached};
use dy_parse::{one_file, one_parse, same_limits, trees_are_shallow};
use dy_plan::one_serial_interleaving;
use dy_show::{one_text, reads_again};
use dy_sound::typed_is_secure;
use dy_typing::one_refused_place;

/// For words and input bytes at most one status is due, and at most one text but for the recipes that `play` writes.
pub fn one_answer()
    ensures status { (commands : List Command) (words : List (List ℕ)) (bytes : List ℕ) (status other : Status)
        (text other_text : List ℕ) → IsDue commands words bytes status text →
        IsDue commands words bytes other other_text → status ≡ other }
    ensures text { (commands : List Command) (words : List (List ℕ)) (bytes : List ℕ) (status : Status)
        (text other : List ℕ) → (words ≡ words_for Command.Play → status ≢ Status.Done) →
        IsDue commands words bytes status text → IsDue commands words bytes status other → text ≡ other }
    ensures play { (commands : List Command) (words : List (List ℕ)) (bytes text other : List ℕ) →
        words ≡ words_for Command.Play → IsDue commands words bytes Status.Done text →
        IsDue commands words bytes Status.Done other → AreOfOneRun bytes text other }
{
    one_file();
    one_parse();
    one_refused_place();
    one_serial_interleaving();
    one_report_for_a_trace();
}

/// Where the bytes are to be accepted, each of their interleavings is secure.
pub fn accepted_files_are_secure()
    ensures { (command : Command) (bytes text : List ℕ) → asks_for_typing command ≡ true →
        IsDueBy command bytes Status.Done text → EachInterleavingIsSecure bytes }
{
    one_file();
    typed_is_secure();
}

/// Where the file is typed, what `play` is to write of it ends with the line `breaches 0`.
pub fn typed_files_play_unbreached()
    ensures { (bytes text : List ℕ) (file : File) → Reads bytes file → IsTyped file →
        IsDueBy Command.Play bytes Status.Done text → EndsUnbreached text }
{
    one_file();
    typed_is_secure();
    secure_where_nothing_is_breached();
}

/// A source of any length is a file within the limits, and the file's canonical text is not too long
/// for a source. Then that text is the same file but for line numbers, within all limits.
pub fn shown_reads_back()
    ensures { (source : List ℕ) (file : File) →
        IsTextOfFile source file → length (canon file) ≤ MAX_SOURCE_BYTES → ReadsBack file }
{
    trees_are_shallow();
    same_limits();
    reads_again();
}

/// Where the canonical text of such a file is a file, it is the canonical text of that file too.
pub fn shown_is_canonical()
    ensures { (source : List ℕ) (file again : File) →
        IsTextOfFile source file → Reads (canon file) again → canon again ≡ canon file }
{
    shown_reads_back();
    one_file();
    one_text();
}
