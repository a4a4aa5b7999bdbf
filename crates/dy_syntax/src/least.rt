ghost use Rattle.std.specs.Prelude.{◌≡◌, None};
ghost use Rattle.dy_syntax.specs.MirrorMeaning.{least_of};

/// A line, and the number of a rule that is broken there.
#[derive(Clone, Copy, Debug, PartialEq, Eq)]
pub(crate) struct Fault {
    pub(crate) line: u32,
    pub(crate) rule: u8,
}

/// The least fault so far: that of the least line, and on one line that of the least rule.
#[derive(Debug, Drop)]
pub(crate) struct Least {
    pub(crate) found: Option<Fault>,
}

/// No fault so far.
pub(crate) fn no_fault() -> Least
    ensures { least_of result ≡ None }
{
    Least { found: None }
}

impl Least {
    ghost use Rattle.dy_syntax.specs.Rules.Lines.{lines_if};
    ghost use Rattle.dy_syntax.specs.MirrorFaults as mirror;

    /// Takes note of a fault.
    pub(crate) fn note(&mut self, rule: u8, line: u32)
        ensures { least_of self.new ≡ mirror.note (record { line = line; rule = rule }) (least_of self.old) }
    {
        let is_before = match &self.found {
            None => true,
            Some(least) => line < least.line || (line == least.line && rule < least.rule),
        };
        if is_before {
            self.found = Some(Fault { line, rule });
        }
    }

    /// Takes note of a fault where the rule is broken.
    pub(crate) fn note_if(&mut self, broken: bool, rule: u8, line: u32)
        ensures { least_of self.new ≡ mirror.note_lines rule (lines_if broken line) (least_of self.old) }
    {
        if broken {
            self.note(rule, line);
        }
    }
}
