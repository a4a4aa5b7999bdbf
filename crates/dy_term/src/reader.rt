ghost use Rattle.std.specs.Prelude.{◌≡◌, ℕ, ◌+◌, ◌-◌, ◌*◌, ◌<◌, ◌≤◌, ◌^◌, length, IfOk, IfSome, option_map, Some, None, if◌then◌else◌};
ghost use Rattle.std.specs.Char.{is_ascii_digit};
ghost use Rattle.dy_term.specs.MirrorSteps as steps;
ghost use Rattle.dy_term.specs.MirrorReader.{part_of, begun_of, reading_of, nodes_of, stack_of, state_of};
ghost use Rattle.dy_term.specs.Meaning.{tree_of};

use crate::begun::{Begun, Part, begun_by, whole_aead, whole_double, whole_kdf, whole_single};
use crate::letters::{AT, CLOSE, COMMA, OPEN, QUOTE, SHARP, SPACE, ZERO};
use crate::limits::MAX_NODES;
use crate::{Term, Text, Word};
use std::alloc::{AllocError, Global};

/// What was read since the last part or constructor.
#[derive(Debug, Drop)]
pub(crate) enum Reading {
    /// A term is due.
    Due,
    /// Letters of a constructor's name.
    Constructor(Word),
    /// A quote, and these bytes of a literal.
    Chars(Text),
    /// `@`.
    At,
    /// `@`, and these bytes of a name.
    Letters(Word),
    /// `#`.
    Sharp,
    /// `#`, and the digits of this number.
    Digits(u32),
    /// A part, whole.
    After(Part),
    CommaDue,
    SpaceDue,
    /// `kdf(`, this key, and a comma.
    ContextSpaceDue(Part),
    ContextDue(Part),
    /// A quote, and these bytes of a context.
    ContextChars(Part, Text),
}

/// What was read of the text of a term.
#[derive(Debug, Drop)]
pub(crate) struct Reader {
    reading: Reading,
    /// The constructors that are begun, outermost first.
    begun: Vec<Begun>,
    nodes: u32,
}

/// Whether the letters begin the name of a constructor.
fn begins_name(letters: &[u8]) -> bool
    ensures { result ≡ steps.begins_name letters.now }
{
    b"pair".starts_with(letters)
        || b"pk".starts_with(letters)
        || b"vk".starts_with(letters)
        || b"penc".starts_with(letters)
        || b"aead".starts_with(letters)
        || b"sign".starts_with(letters)
        || b"mac".starts_with(letters)
        || b"kdf".starts_with(letters)
        || b"hash".starts_with(letters)
}

/// A term of this many nodes that stand up to here, or nothing where they are too many to keep.
fn part_within(nodes: u32, term: Term) -> Part
    ensures { part_of result ≡ steps.part_within MAX_NODES nodes (tree_of term) }
{
    if nodes <= MAX_NODES { Some(term) } else { None }
}

/// What stands after a leaf.
fn after_leaf(term: Term, begun: Vec<Begun>, nodes: u32) -> Reader
    requires { nodes < 2 ^ 32 - 1 }
    ensures next { state_of result ≡ steps.after_leaf MAX_NODES (tree_of term) (stack_of begun.items) nodes }
    ensures nodes { nodes_of result ≡ nodes + 1 }
{
    Reader {
        reading: Reading::After(part_within(nodes + 1, term)),
        begun,
        nodes: nodes + 1,
    }
}

/// Letters of a constructor's name, if there is one that they begin.
fn at_letters(letters: Word, begun: Vec<Begun>, nodes: u32) -> Option<Reader>
    ensures next { option_map state_of result ≡ steps.at_letters letters (stack_of begun.items) nodes }
    ensures nodes { IfSome result (λ reader. nodes_of reader ≤ nodes + 1) }
{
    if begins_name(letters.as_bytes()) {
        Some(Reader {
            reading: Reading::Constructor(letters),
            begun,
            nodes,
        })
    } else {
        None
    }
}

/// One more letter of a constructor's name.
fn next_letter(letters: &Word, byte: u8, begun: Vec<Begun>, nodes: u32) -> Option<Reader>
    ensures next { option_map state_of result ≡ steps.next_letter letters.now byte (stack_of begun.items) nodes }
    ensures nodes { IfSome result (λ reader. nodes_of reader ≤ nodes + 1) }
{
    at_letters(letters.with(byte)?, begun, nodes)
}

/// A byte where a term is due.
fn at_due(byte: u8, begun: Vec<Begun>, nodes: u32) -> Option<Reader>
    ensures next { option_map state_of result ≡ steps.at_due byte (stack_of begun.items) nodes }
    ensures nodes { IfSome result (λ reader. nodes_of reader ≤ nodes + 1) }
{
    let reading = match byte {
        QUOTE => Reading::Chars(Text::empty()),
        AT => Reading::At,
        SHARP => Reading::Sharp,
        _ => return at_letters(Word::new(&[byte])?, begun, nodes),
    };
    Some(Reader {
        reading,
        begun,
        nodes,
    })
}

/// A bracket after the name of a constructor.
fn at_bracket(name: &Word, mut begun: Vec<Begun>, nodes: u32) -> Result<Option<Reader>, AllocError>
    requires { nodes < 2 ^ 32 - 1 }
    ensures next { IfOk result (λ next. option_map state_of next
        ≡ steps.at_bracket (steps.begun_by name.now) (stack_of begun.items) nodes) }
    ensures nodes { IfOk result (λ next. IfSome next (λ reader. nodes_of reader ≤ nodes + 1)) }
{
    let Some(maker) = begun_by(name.as_bytes()) else {
        return Ok(None);
    };
    begun.push(maker)?;
    Ok(Some(Reader {
        reading: Reading::Due,
        begun,
        nodes: nodes + 1,
    }))
}

/// A comma after a part of this constructor.
fn comma_after(
    part: Part,
    maker: Begun,
    mut begun: Vec<Begun>,
    nodes: u32,
) -> Result<Option<Reader>, AllocError>
    ensures next { IfOk result (λ next. option_map state_of next
        ≡ steps.comma_after (part_of part) (begun_of maker) (stack_of begun.items) nodes) }
    ensures nodes { IfOk result (λ next. IfSome next (λ reader. nodes_of reader ≤ nodes)) }
{
    let longer = match maker {
        Begun::First(maker) => Begun::Second(maker, part),
        Begun::AeadKey => Begun::AeadMessage(part),
        Begun::AeadMessage(key) => Begun::AeadData(key, part),
        Begun::KdfKey => {
            return Ok(Some(Reader {
                reading: Reading::ContextSpaceDue(part),
                begun,
                nodes,
            }));
        }
        Begun::One(_) | Begun::Second(_, _) | Begun::AeadData(_, _) | Begun::KdfInput(_, _) => {
            return Ok(None);
        }
    };
    begun.push(longer)?;
    Ok(Some(Reader {
        reading: Reading::SpaceDue,
        begun,
        nodes,
    }))
}

/// The constructor that this part, its last one, makes whole, if it is the last one.
fn whole_of(alloc: Global, maker: Begun, part: Part) -> Result<Option<Part>, AllocError>
    ensures { IfOk result (λ whole. option_map part_of whole ≡ steps.whole_of (begun_of maker) (part_of part)) }
{
    let whole = match maker {
        Begun::One(maker) => whole_single(alloc, maker, part)?,
        Begun::Second(maker, first) => whole_double(alloc, maker, first, part)?,
        Begun::AeadData(key, message) => whole_aead(alloc, key, message, part)?,
        Begun::KdfInput(key, context) => whole_kdf(alloc, key, context, part)?,
        Begun::First(_) | Begun::AeadKey | Begun::AeadMessage(_) | Begun::KdfKey => {
            return Ok(None);
        }
    };
    Ok(Some(whole))
}

/// A byte after a part of the innermost constructor.
fn after_part(
    alloc: Global,
    part: Part,
    byte: u8,
    mut begun: Vec<Begun>,
    nodes: u32,
) -> Result<Option<Reader>, AllocError>
    ensures next { IfOk result (λ next. option_map state_of next
        ≡ steps.after_part (part_of part) byte (stack_of begun.items) nodes) }
    ensures nodes { IfOk result (λ next. IfSome next (λ reader. nodes_of reader ≤ nodes)) }
{
    let Some(maker) = begun.pop() else {
        return Ok(None);
    };
    if byte == COMMA {
        comma_after(part, maker, begun, nodes)
    } else if byte == CLOSE {
        match whole_of(alloc, maker, part)? {
            Some(whole) => Ok(Some(Reader {
                reading: Reading::After(whole),
                begun,
                nodes,
            })),
            None => Ok(None),
        }
    } else {
        Ok(None)
    }
}

/// A byte after a leaf.
fn leave_leaf(
    alloc: Global,
    term: Term,
    byte: u8,
    begun: Vec<Begun>,
    nodes: u32,
) -> Result<Option<Reader>, AllocError>
    requires { nodes < 2 ^ 32 - 1 }
    ensures next { IfOk result (λ next. option_map state_of next
        ≡ steps.leave_leaf MAX_NODES (tree_of term) byte (stack_of begun.items) nodes) }
    ensures nodes { IfOk result (λ next. IfSome next (λ reader. nodes_of reader ≤ nodes + 1)) }
{
    after_part(alloc, part_within(nodes + 1, term), byte, begun, nodes + 1)
}

/// A byte inside the text of a literal.
fn in_chars(text: Text, byte: u8, begun: Vec<Begun>, nodes: u32) -> Option<Reader>
    requires { nodes < 2 ^ 32 - 1 }
    ensures next { option_map state_of result
        ≡ steps.step_from MAX_NODES (steps.Chars text) byte (stack_of begun.items) nodes }
    ensures nodes { IfSome result (λ reader. nodes_of reader ≤ nodes + 1) }
{
    if byte == QUOTE {
        Some(after_leaf(Term::Lit(text), begun, nodes))
    } else {
        Some(Reader {
            reading: Reading::Chars(text.with(byte)?),
            begun,
            nodes,
        })
    }
}

/// A byte inside a context.
fn in_context(
    key: Part,
    text: Text,
    byte: u8,
    mut begun: Vec<Begun>,
    nodes: u32,
) -> Result<Option<Reader>, AllocError>
    ensures next { IfOk result (λ next. option_map state_of next
        ≡ steps.step_from MAX_NODES (steps.ContextChars (part_of key) text) byte (stack_of begun.items) nodes) }
    ensures nodes { IfOk result (λ next. IfSome next (λ reader. nodes_of reader ≤ nodes + 1)) }
{
    let reading = if byte == QUOTE {
        begun.push(Begun::KdfInput(key, text))?;
        Reading::CommaDue
    } else if let Some(text) = text.with(byte) {
        Reading::ContextChars(key, text)
    } else {
        return Ok(None);
    };
    Ok(Some(Reader {
        reading,
        begun,
        nodes,
    }))
}

/// The number with this digit after it, if that is still an index.
fn longer_number(number: u32, byte: u8) -> Option<u32>
    ensures { result ≡ if steps.goes_on number byte then Some (10 * number + (byte - ZERO)) else None }
{
    if byte.is_ascii_digit() && number > 0 {
        number.checked_mul(10)?.checked_add(u32::from(byte - ZERO))
    } else {
        None
    }
}

/// A byte after `#`.
fn first_digit(byte: u8) -> Option<u32>
    ensures { result ≡ if is_ascii_digit byte then Some (byte - ZERO) else None }
{
    if byte.is_ascii_digit() {
        Some(u32::from(byte - ZERO))
    } else {
        None
    }
}

/// The part that was read whole, if the text of one may end here, and the number of nodes.
fn whole_part(reading: Reading, nodes: u32) -> Option<(Part, u32)>
    requires { steps.nodes_read (reading_of reading) nodes < 2 ^ 32 }
    ensures { option_map (λ whole. (part_of whole.0, whole.1)) result
        ≡ steps.whole_part MAX_NODES (reading_of reading) nodes }
{
    match reading {
        Reading::After(part) => Some((part, nodes)),
        Reading::Letters(word) => Some((part_within(nodes + 1, Term::Name(word)), nodes + 1)),
        Reading::Digits(number) => Some((part_within(nodes + 1, Term::Nonce(number)), nodes + 1)),
        _ => None,
    }
}

impl Reader {
    /// Nothing was read.
    pub(crate) fn new(alloc: Global) -> Reader
        ensures start { state_of result ≡ steps.start }
        ensures nodes { nodes_of result ≡ 0 }
    {
        Reader {
            reading: Reading::Due,
            begun: Vec::new(alloc),
            nodes: 0,
        }
    }

    /// The next byte, or `None` where no text of a term goes on with it.
    pub(crate) fn step(self, alloc: Global, byte: u8) -> Result<Option<Reader>, AllocError>
        requires { nodes_of self < 2 ^ 32 - 1 }
        ensures next { IfOk result (λ next. option_map state_of next ≡ steps.step MAX_NODES (state_of self) byte) }
        ensures nodes { IfOk result (λ next. IfSome next (λ reader. nodes_of reader ≤ nodes_of self + 1)) }
    {
        let Reader {
            reading,
            begun,
            nodes,
        } = self;
        let reading = match reading {
            Reading::Due => return Ok(at_due(byte, begun, nodes)),
            Reading::Constructor(name) if byte == OPEN => return at_bracket(&name, begun, nodes),
            Reading::Constructor(letters) => return Ok(next_letter(&letters, byte, begun, nodes)),
            Reading::Chars(text) => return Ok(in_chars(text, byte, begun, nodes)),
            Reading::At => match Word::new(&[byte]) {
                Some(word) => Reading::Letters(word),
                None => return Ok(None),
            },
            Reading::Letters(word) => match word.with(byte) {
                Some(word) => Reading::Letters(word),
                None => return leave_leaf(alloc, Term::Name(word), byte, begun, nodes),
            },
            Reading::Sharp => match first_digit(byte) {
                Some(number) => Reading::Digits(number),
                None => return Ok(None),
            },
            Reading::Digits(number) => match longer_number(number, byte) {
                Some(number) => Reading::Digits(number),
                None => return leave_leaf(alloc, Term::Nonce(number), byte, begun, nodes),
            },
            Reading::After(part) => return after_part(alloc, part, byte, begun, nodes),
            Reading::CommaDue if byte == COMMA => Reading::SpaceDue,
            Reading::SpaceDue if byte == SPACE => Reading::Due,
            Reading::ContextSpaceDue(key) if byte == SPACE => Reading::ContextDue(key),
            Reading::ContextDue(key) if byte == QUOTE => Reading::ContextChars(key, Text::empty()),
            Reading::ContextChars(key, text) => return in_context(key, text, byte, begun, nodes),
            _ => return Ok(None),
        };
        Ok(Some(Reader {
            reading,
            begun,
            nodes,
        }))
    }

    /// Whether a term was read whole, and ends before this byte.
    pub(crate) fn ends_before(&self, byte: u8) -> bool
        ensures { result ≡ steps.ends_before (state_of self.now) byte }
    {
        if !self.begun.is_empty() {
            return false;
        }
        match &self.reading {
            Reading::After(_) => true,
            Reading::Letters(word) => word.with(byte).is_none(),
            Reading::Digits(number) => longer_number(*number, byte).is_none(),
            _ => false,
        }
    }

    /// The term that was read whole, if one was, and its number of nodes.
    pub(crate) fn end(self) -> Option<(Part, u32)>
        requires { nodes_of self < 2 ^ 32 }
        ensures { option_map (λ whole. (part_of whole.0, whole.1)) result ≡ steps.end MAX_NODES (state_of self) }
    {
        let Reader {
            reading,
            begun,
            nodes,
        } = self;
        if begun.is_empty() {
            whole_part(reading, nodes)
        } else {
            None
        }
    }
}
