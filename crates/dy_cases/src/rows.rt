ghost use Rattle.std.specs.Prelude.{◌≡◌, find, map};
ghost use Rattle.std.specs.Option.{option_map, option_copied};
ghost use Rattle.std.specs.Str.{bytes_eq};
ghost use Rattle.dy_syntax.specs.Meaning.{row_of};

use dy_syntax::Row;
use dy_term::Text;

/// The first of the rows that has this text.
pub(crate) fn row_for<'a>(rows: &'a [Row], text: &Text) -> Option<&'a Row>
    ensures { option_map row_of (option_copied result) ≡
        find (λ row. bytes_eq row.text.text text.now) (map row_of rows.now) }
{
    for row in rows {
        if row.text.text.same(text) {
            return Some(row);
        }
    }
    None
}
