ghost use Rattle.std.specs.Prelude.{◌≡◌, map, IfOk};
ghost use Rattle.dy_syntax.specs.Meaning.{nm_of, atom_of, label_of, param_of, partner_of, event_of};

use dy_flat::FlatTerm;
use dy_syntax::{AtomText, EventDecl, LabelText, Nm, Param, Partner};
use dy_term::Memory;
use sqlite_items::Items;
use std::alloc::Global;

fn name_copy(name: &Nm) -> Nm
    ensures { nm_of result ≡ nm_of name.now }
{
    match name {
        Nm::Named(id) => Nm::Named(id.copy()),
        Nm::Me { line } => Nm::Me { line: *line },
    }
}

fn names_copy(alloc: Global, names: &[Nm]) -> Result<Items<Nm>, Memory>
    ensures { IfOk result (λ made. map nm_of made ≡ map nm_of names.now) }
{
    let mut made = Items::new(alloc);
    for name in names {
        made.push(name_copy(name))?;
    }
    Ok(made)
}

fn atom_copy(alloc: Global, atom: &AtomText) -> Result<AtomText, Memory>
    ensures { IfOk result (λ made. atom_of made ≡ atom_of atom.now) }
{
    Ok(AtomText {
        event: atom.event.copy(),
        args: names_copy(alloc, atom.args.as_slice())?,
    })
}

fn label_copy(alloc: Global, label: &LabelText) -> Result<LabelText, Memory>
    ensures { IfOk result (λ made. label_of made ≡ label_of label.now) }
{
    Ok(match label {
        LabelText::Public(line) => LabelText::Public(*line),
        LabelText::Nobody(line) => LabelText::Nobody(*line),
        LabelText::Session(line) => LabelText::Session(*line),
        LabelText::Next(line) => LabelText::Next(*line),
        LabelText::Prior(line) => LabelText::Prior(*line),
        LabelText::Here(line) => LabelText::Here(*line),
        LabelText::One(name) => LabelText::One(name_copy(name)),
        LabelText::Join(line, left, right) => {
            let left = label_copy(alloc, left)?;
            let right = label_copy(alloc, right)?;
            LabelText::Join(*line, Box::new(alloc, left)?, Box::new(alloc, right)?)
        }
        LabelText::Meet(line, left, right) => {
            let left = label_copy(alloc, left)?;
            let right = label_copy(alloc, right)?;
            LabelText::Meet(*line, Box::new(alloc, left)?, Box::new(alloc, right)?)
        }
    })
}

fn param_copy(param: &Param) -> Param
    ensures { param_of result ≡ param_of param.now }
{
    Param {
        line: param.line,
        is_name: param.is_name,
        name: param.name.copy(),
    }
}

fn params_copy(alloc: Global, params: &[Param]) -> Result<Items<Param>, Memory>
    ensures { IfOk result (λ made. map param_of made ≡ map param_of params.now) }
{
    let mut made = Items::new(alloc);
    for param in params {
        made.push(param_copy(param))?;
    }
    Ok(made)
}

fn partner_copy(alloc: Global, partner: &Partner) -> Result<Partner, Memory>
    ensures { IfOk result (λ made. partner_of made ≡ partner_of partner.now) }
{
    Ok(Partner {
        atom: atom_copy(alloc, &partner.atom)?,
        unless: label_copy(alloc, &partner.unless)?,
    })
}

fn partners_copy(alloc: Global, partners: &[Partner]) -> Result<Items<Partner>, Memory>
    ensures { IfOk result (λ made. map partner_of made ≡ map partner_of partners.now) }
{
    let mut made = Items::new(alloc);
    for partner in partners {
        made.push(partner_copy(alloc, partner)?)?;
    }
    Ok(made)
}

/// An equal declaration in memory of its own. It refuses out of memory alone.
pub(crate) fn event_copy(alloc: Global, event: &EventDecl) -> Result<EventDecl, Memory>
    ensures { IfOk result (λ made. event_of made ≡ event_of event.now) }
{
    Ok(EventDecl {
        line: event.line,
        name: event.name.copy(),
        params: params_copy(alloc, event.params.as_slice())?,
        after: partners_copy(alloc, event.after.as_slice())?,
    })
}

/// The same terms in memory of their own. It refuses out of memory alone.
pub(crate) fn terms_copy(alloc: Global, terms: &[FlatTerm]) -> Result<Items<FlatTerm>, Memory>
    ensures { IfOk result (λ made. made ≡ terms.now) }
{
    let mut made = Items::new(alloc);
    for term in terms {
        made.push(term.copy(alloc)?)?;
    }
    Ok(made)
}
