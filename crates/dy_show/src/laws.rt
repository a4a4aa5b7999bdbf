ghost use Rattle.std.specs.Prelude.{◌≡◌, ℕ, List};
ghost use Rattle.dy_syntax.specs.Files.{File};
ghost use Rattle.dy_syntax.specs.SameFiles.{AreSame};
ghost use Rattle.dy_show.specs.Canonical.{canon};
ghost use Rattle.dy_show.specs.Readings.{ReadsAs, ReadsAgain};

/// Where a source reads as a file, the file's canonical text reads as the same file but for line numbers.
pub fn reads_again()
    ensures { (source : List ℕ) (file : File) → ReadsAs source file → ReadsAgain file }
{}

/// Files that are the same but for line numbers have the same canonical text.
pub fn one_text()
    ensures { (a b : File) → AreSame a b → canon a ≡ canon b }
{}
