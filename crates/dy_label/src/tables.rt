ghost use Rattle.std.specs.Prelude.{◌≡◌, ℕ, ◌+◌, ◌*◌, ◌<◌, ◌↔◌, true, false, ◌||◌, ◌&&◌, IsTrue};
ghost use Rattle.dy_label.specs.Labels.{Join, Meet};
ghost use Rattle.dy_label.specs.Words as words;
ghost use Rattle.dy_label.specs.Words.{is_below, uses_names_below, Implies};
ghost use Rattle.dy_label.specs.Tables.{is_set, bit_of, opens_in, value_at, IsTableOf, IsWithin};
ghost use Rattle.dy_label.specs.WordsMeaning.{atom_of, static_label_of};

use crate::words::{Atom, NAMES, Scope, StaticLabel};

/// In a row's number the bits before this one say which names are open, and this one whether the
/// session is.
pub const SESSION_BIT: u8 = NAMES;

/// The bit of a row's number for the prior version.
pub const PRIOR_BIT: u8 = 10;

/// The bit of a row's number for the next version.
pub const NEXT_BIT: u8 = 11;

/// How many bits a row's number has.
pub const ROW_BITS: u8 = 12;

/// How many rows a table has.
pub const ROWS: usize = 4096;

/// How many rows a block of a table has, one for each of its bits.
pub const BLOCK_ROWS: usize = 64;

/// How many blocks a table has.
pub const BLOCKS: usize = 64;

/// The truth table of a label over a handler's words, in blocks of rows: row r stands at bit
/// `r % BLOCK_ROWS` of block `r / BLOCK_ROWS`.
pub type Table = [u64; BLOCKS];

/// The rows of a block, by the bits of a row's number that are set in them. There is one number for
/// each bit that says which row of the block it is.
const ROWS_WITH: [u64; 6] = [
    0xaaaa_aaaa_aaaa_aaaa,
    0xcccc_cccc_cccc_cccc,
    0xf0f0_f0f0_f0f0_f0f0,
    0xff00_ff00_ff00_ff00,
    0xffff_0000_ffff_0000,
    0xffff_ffff_0000_0000,
];

/// The lawful rows of a block, by the three high bits of the rows' number. They are those of the
/// session, the prior version and the next one. With the session open these are the rows in which
/// `self` is. With no session they are all, or none where a version is open.
const LAWFUL: [u64; 8] = [
    0xffff_ffff_ffff_ffff,
    0xaaaa_aaaa_aaaa_aaaa,
    0,
    0xaaaa_aaaa_aaaa_aaaa,
    0,
    0xaaaa_aaaa_aaaa_aaaa,
    0,
    0xaaaa_aaaa_aaaa_aaaa,
];

/// The bit of a row's number that says whether the word is open.
fn bit_for(atom: Atom, scope: &Scope) -> u8
    requires { is_below scope.now (atom_of atom) ≡ true }
    ensures bit { result ≡ bit_of (atom_of atom) }
    ensures range { result < ROW_BITS }
{
    let names = scope.names();
    match atom {
        Atom::Name(number) => {
            prove!(number < names);
            number
        }
        Atom::Session => SESSION_BIT,
        Atom::Prior => PRIOR_BIT,
        Atom::Next => NEXT_BIT,
    }
}

/// The rows of this block of a table in which this bit of the row's number is set.
fn rows_with(bit: u8, block: u8) -> u64
    requires bit { bit < ROW_BITS }
    requires block { block < BLOCKS }
    ensures { (place : ℕ) → place < BLOCK_ROWS → is_set result place ≡ is_set (block * BLOCK_ROWS + place) bit }
{
    if bit < 6 {
        ROWS_WITH[bit as usize]
    } else if (block >> (bit - 6)) & 1 == 1 {
        u64::MAX
    } else {
        0
    }
}

/// The table in which those rows are set in which the word is open.
fn table_of_atom(atom: Atom, scope: &Scope) -> Table
    requires { is_below scope.now (atom_of atom) ≡ true }
    ensures { (row : ℕ) → row < ROWS → value_at result row ≡ opens_in row (atom_of atom) }
{
    let bit = bit_for(atom, scope);
    let mut table = [0; BLOCKS];
    for block in 0..BLOCKS as u8 {
        table[block as usize] = rows_with(bit, block);
    }
    table
}

/// The table in which each row is set.
fn every_row() -> Table
    ensures { (row : ℕ) → row < ROWS → value_at result row ≡ true }
{
    [u64::MAX; BLOCKS]
}

/// The table in which no row is set.
fn no_row() -> Table
    ensures { (row : ℕ) → row < ROWS → value_at result row ≡ false }
{
    [0; BLOCKS]
}

/// The table that has in each row the label's truth value there. The label uses names of the scope
/// alone.
pub fn table_of(label: &StaticLabel, scope: &Scope) -> Table
    requires { uses_names_below scope.now (static_label_of label.now) ≡ true }
    ensures { IsTableOf (static_label_of label.now) result }
{
    match label {
        StaticLabel::Public => every_row(),
        StaticLabel::Nobody => no_row(),
        StaticLabel::One(atom) => table_of_atom(*atom, scope),
        StaticLabel::Join(first, second) => join(&table_of(first, scope), &table_of(second, scope)),
        StaticLabel::Meet(first, second) => meet(&table_of(first, scope), &table_of(second, scope)),
    }
}

/// The table that is set where one of the two is: of two labels' tables that of their join.
pub fn join(first: &Table, second: &Table) -> Table
    ensures rows { (row : ℕ) → row < ROWS →
        value_at result row ≡ (value_at first.now row || value_at second.now row) }
    ensures labels { (l m : words.StaticLabel) →
        IsTableOf l first.now → IsTableOf m second.now → IsTableOf (Join l m) result }
{
    let mut table = [0; BLOCKS];
    for block in 0..BLOCKS {
        table[block] = first[block] | second[block];
    }
    table
}

/// The table that is set where both are: of two labels' tables that of their meet.
pub fn meet(first: &Table, second: &Table) -> Table
    ensures rows { (row : ℕ) → row < ROWS →
        value_at result row ≡ (value_at first.now row && value_at second.now row) }
    ensures labels { (l m : words.StaticLabel) →
        IsTableOf l first.now → IsTableOf m second.now → IsTableOf (Meet l m) result }
{
    let mut table = [0; BLOCKS];
    for block in 0..BLOCKS {
        table[block] = first[block] & second[block];
    }
    table
}

/// Whether each of these lawful rows of one block that is set in the first table is set in the second.
fn block_within(first: u64, second: u64, lawful: u64) -> bool
    ensures { IsTrue result ↔ ((place : ℕ) → place < BLOCK_ROWS →
        is_set lawful place ≡ true → is_set first place ≡ true → is_set second place ≡ true) }
{
    first & !second & lawful == 0
}

/// Whether each lawful row that is set in the first table is set in the second. Of two labels'
/// tables it says whether the one label implies the other.
pub fn within(first: &Table, second: &Table) -> bool
    ensures rows { IsTrue result ↔ IsWithin first.now second.now }
    ensures labels { (l m : words.StaticLabel) →
        uses_names_below NAMES l ≡ true → uses_names_below NAMES m ≡ true →
        IsTableOf l first.now → IsTableOf m second.now → (IsTrue result ↔ Implies l m) }
{
    for block in 0..BLOCKS {
        if !block_within(first[block], second[block], LAWFUL[block / 8]) {
            return false;
        }
    }
    true
}

/// Whether the label l implies the label m: where l is open so is m. This holds for every choice of
/// principals, session and versions for the handler's words, and all corruptions. Both labels use
/// names of the scope alone.
pub fn entails(l: &StaticLabel, m: &StaticLabel, scope: &Scope) -> bool
    requires first { uses_names_below scope.now (static_label_of l.now) ≡ true }
    requires second { uses_names_below scope.now (static_label_of m.now) ≡ true }
    ensures { IsTrue result ↔ Implies (static_label_of l.now) (static_label_of m.now) }
{
    prove!(scope.names() <= NAMES);
    within(&table_of(l, scope), &table_of(m, scope))
}
