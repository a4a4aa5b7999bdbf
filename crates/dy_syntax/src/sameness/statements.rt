ghost use Rattle.std.specs.Prelude.{◌≡◌, ◌≢◌, true, false};
ghost use Rattle.dy_syntax.specs.Statements as s;
ghost use Rattle.dy_syntax.specs.Meaning.{pattern_of, on_part_of, act_of, statement_of, handler_of};
ghost use Rattle.dy_syntax.specs.SameFiles as same;

use crate::sameness::expressions::same_expr;
use crate::sameness::labels::same_label;
use crate::sameness::{Part, same_option, same_parts};
use crate::statements::{Act, Handler, OnPart, Pattern, Statement};

impl Part for Pattern {
    ghost Plain = { s.Pattern };

    ghost plain = { pattern_of };

    ghost bare = { same.bare_pattern };

    fn same(&self, other: &Pattern) -> bool {
        match (self, other) {
            (Pattern::Bind(name), Pattern::Bind(other)) => name.same(other),
            (
                Pattern::Named { line: _, name },
                Pattern::Named {
                    line: _,
                    name: other,
                },
            ) => name.same(other),
            (Pattern::Equal { line: _, to }, Pattern::Equal { line: _, to: other }) => to.same(
                other,
            ),
            _ => false,
        }
    }
}

impl Part for OnPart {
    ghost Plain = { s.OnPart };

    ghost plain = { on_part_of };

    ghost bare = { same.bare_on_part };

    fn same(&self, other: &OnPart) -> bool {
        self.state.same(&other.state) && same_parts(self.pats.as_slice(), other.pats.as_slice())
    }
}

fn same_act(act: &Act, other: &Act) -> bool
    ensures same { result ≡ true → same.bare_act (act_of act.now) ≡ same.bare_act (act_of other.now) }
    ensures other { result ≡ false → same.bare_act (act_of act.now) ≢ same.bare_act (act_of other.now) }
{
    match (act, other) {
        (
            Act::New { name, usage, label },
            Act::New {
                name: other,
                usage: other_usage,
                label: other_label,
            },
        ) => name.same(other) && usage.same(other_usage) && same_label(label, other_label),
        (
            Act::Let { name, value },
            Act::Let {
                name: other,
                value: other_value,
            },
        ) => name.same(other) && same_expr(value, other_value),
        (Act::Event(atom), Act::Event(other)) => atom.same(other),
        (Act::Send(value), Act::Send(other)) => same_expr(value, other),
        (
            Act::Store { state, fields },
            Act::Store {
                state: other,
                fields: other_fields,
            },
        ) => state.same(other) && same_parts(fields.as_slice(), other_fields.as_slice()),
        (
            Act::Certify { key, usage },
            Act::Certify {
                key: other,
                usage: other_usage,
            },
        ) => key.same(other) && usage.same(other_usage),
        (
            Act::Find { usage, owner, name },
            Act::Find {
                usage: other,
                owner: other_owner,
                name: other_name,
            },
        ) => usage.same(other) && owner.same(other_owner) && name.same(other_name),
        (
            Act::Recall { state, pats },
            Act::Recall {
                state: other,
                pats: other_pats,
            },
        ) => state.same(other) && same_parts(pats.as_slice(), other_pats.as_slice()),
        (
            Act::Split { value, tag, pats },
            Act::Split {
                value: other,
                tag: other_tag,
                pats: other_pats,
            },
        ) => value.same(other)
            && tag.same(other_tag)
            && same_parts(pats.as_slice(), other_pats.as_slice()),
        (
            Act::Opened {
                value,
                key,
                usage,
                tag,
                pats,
                ad,
            },
            Act::Opened {
                value: other,
                key: other_key,
                usage: other_usage,
                tag: other_tag,
                pats: other_pats,
                ad: other_ad,
            },
        ) => {
            value.same(other)
                && key.same(other_key)
                && usage.same(other_usage)
                && tag.same(other_tag)
                && same_parts(pats.as_slice(), other_pats.as_slice())
                && same_expr(ad, other_ad)
        }
        (
            Act::Popened {
                value,
                key,
                usage,
                tag,
                pats,
            },
            Act::Popened {
                value: other,
                key: other_key,
                usage: other_usage,
                tag: other_tag,
                pats: other_pats,
            },
        )
        | (
            Act::Verify {
                value,
                key,
                usage,
                tag,
                pats,
            },
            Act::Verify {
                value: other,
                key: other_key,
                usage: other_usage,
                tag: other_tag,
                pats: other_pats,
            },
        ) => {
            value.same(other)
                && key.same(other_key)
                && usage.same(other_usage)
                && tag.same(other_tag)
                && same_parts(pats.as_slice(), other_pats.as_slice())
        }
        (
            Act::Check {
                value,
                key,
                usage,
                tag,
                args,
            },
            Act::Check {
                value: other,
                key: other_key,
                usage: other_usage,
                tag: other_tag,
                args: other_args,
            },
        ) => {
            value.same(other)
                && key.same(other_key)
                && usage.same(other_usage)
                && tag.same(other_tag)
                && same_parts(args.as_slice(), other_args.as_slice())
        }
        (Act::Same(left, right), Act::Same(other_left, other_right)) => {
            left.same(other_left) && right.same(other_right)
        }
        _ => false,
    }
}

impl Part for Statement {
    ghost Plain = { s.Statement };

    ghost plain = { statement_of };

    ghost bare = { same.bare_statement };

    fn same(&self, other: &Statement) -> bool {
        same_act(&self.act, &other.act)
    }
}

pub(crate) fn same_handler(handler: &Handler, other: &Handler) -> bool
    ensures same { result ≡ true → same.bare_handler (handler_of handler.now) ≡ same.bare_handler
        (handler_of other.now) }
    ensures other { result ≡ false → same.bare_handler (handler_of handler.now) ≢ same.bare_handler
        (handler_of other.now) }
{
    handler.name.same(&other.name)
        && same_option(&handler.on, &other.on)
        && same_parts(handler.args.as_slice(), other.args.as_slice())
        && same_option(&handler.recv, &other.recv)
        && same_parts(handler.body.as_slice(), other.body.as_slice())
}
