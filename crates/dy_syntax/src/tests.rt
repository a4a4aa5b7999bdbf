//! Each public call once. The rules are tested sentence by sentence in `dy_tool`, on texts.

use super::*;
use dy_term::{Text, Word};
use sqlite_items::Items;
use std::alloc::{AllocError, Global};
use std::test::*;

fn id(bytes: &[u8], line: u32) -> Option<Id> {
    Some(Id {
        word: Word::new(bytes)?,
        line,
    })
}

/// A usage `M` of kind `mac` on this line.
fn usage(alloc: Global, line: u32) -> Option<Decl> {
    Some(Decl::Usage(UsageDecl {
        line,
        kind: KindText::Mac,
        kind_line: line,
        name: id(b"M", line)?,
        params: Items::new(alloc),
        rows: Items::new(alloc),
    }))
}

/// The case `t` of this usage on this line.
fn case(alloc: Global, usage: &[u8], line: u32) -> Option<Decl> {
    Some(Decl::Case(CaseDecl {
        line,
        usage: id(usage, line)?,
        tag: Quote {
            text: Text::new(b"t")?,
            line,
        },
        fields: Items::new(alloc),
        requires_: Items::new(alloc),
    }))
}

/// An event, a state and a handler of these names, on lines 3 to 5.
fn others(alloc: Global, which: u8) -> Option<Decl> {
    Some(match which {
        0 => Decl::Event(EventDecl {
            line: 3,
            name: id(b"E", 3)?,
            params: Items::new(alloc),
            after: Items::new(alloc),
        }),
        1 => Decl::State(StateDecl {
            line: 4,
            name: id(b"S", 4)?,
            lasting: false,
            fields: Items::new(alloc),
            knows: Items::new(alloc),
        }),
        _ => Decl::Handler(Handler {
            line: 5,
            name: id(b"H", 5)?,
            on: None,
            args: Items::new(alloc),
            recv: None,
            body: Items::new(alloc),
        }),
    })
}

/// A file of these declarations without a plan.
fn file_of(alloc: Global, decls: [Option<Decl>; 2]) -> Result<File, AllocError> {
    let mut items = Items::new(alloc);
    for decl in decls {
        if let Some(decl) = decl {
            items.push(decl)?;
        }
    }
    Ok(File {
        version: 1,
        decls: items,
        plan: Plan {
            rounds: Items::new(alloc),
        },
    })
}

#[test]
fn a_case_belongs_to_a_usage(rt: HostRuntime) -> Result<(), Fail> {
    let alloc = rt.alloc();
    let good = file_of(alloc, [usage(alloc, 1), case(alloc, b"M", 2)])?;
    assert_eq!(rt; good.decls.len(), 2);
    assert_eq!(rt; well_formed(alloc, &good), Ok(()));
    let bad = file_of(alloc, [usage(alloc, 1), case(alloc, b"N", 7)])?;
    assert_eq!(rt;
        well_formed(alloc, &bad),
        Err(FileError::Rule { line: 7, rule: 2 })
    );
    Ok(())
}

#[test]
fn files_are_the_same_but_for_line_numbers(rt: HostRuntime) -> Result<(), Fail> {
    let alloc = rt.alloc();
    let file = file_of(alloc, [usage(alloc, 1), case(alloc, b"M", 2)])?;
    let moved = file_of(alloc, [usage(alloc, 3), case(alloc, b"M", 8)])?;
    assert!(rt; same_file(&file, &moved));
    let shorter = file_of(alloc, [usage(alloc, 1), None])?;
    assert!(rt; !same_file(&file, &shorter));
    Ok(())
}

#[test]
fn declarations_are_found_by_their_names(rt: HostRuntime) -> Result<(), Fail> {
    let alloc = rt.alloc();
    let (Some(m), Some(e), Some(s), Some(h), Some(t)) = (
        Word::new(b"M"),
        Word::new(b"E"),
        Word::new(b"S"),
        Word::new(b"H"),
        Text::new(b"t"),
    ) else {
        return Err("no name")?;
    };
    let first = file_of(alloc, [usage(alloc, 1), case(alloc, b"M", 2)])?;
    assert!(rt; usage_named(first.decls.as_slice(), &m).is_some());
    assert!(rt; case_named(first.decls.as_slice(), &m, &t).is_some());
    let second = file_of(alloc, [others(alloc, 0), others(alloc, 1)])?;
    assert!(rt; event_named(second.decls.as_slice(), &e).is_some());
    assert!(rt; state_named(second.decls.as_slice(), &s).is_some());
    assert!(rt; usage_named(second.decls.as_slice(), &m).is_none());
    let third = file_of(alloc, [others(alloc, 2), None])?;
    assert!(rt; handler_named(third.decls.as_slice(), &h).is_some());
    Ok(())
}

#[test]
fn the_line_of_an_expression_is_that_of_its_first_token(rt: HostRuntime) {
    let me = Nm::Me { line: 4 };
    assert_eq!(rt; line_of(&Expr::Pk(3, me)), 3);
}
