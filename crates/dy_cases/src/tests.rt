use super::*;
use dy_label::{Kind, Usage};
use dy_syntax::{
    CaseDecl, Decl, EventDecl, File, Handler, Id, KindText, Plan, Quote, Row, StateDecl, UsageDecl,
};
use dy_term::{Text, Word};
use sqlite_items::Items;
use std::alloc::{AllocError, Global};
use std::test::*;

fn id(bytes: &[u8], line: u32) -> Option<Id> {
    Some(Id {
        word: Word::new(bytes)?,
        line,
    })
}

fn quote(bytes: &[u8], line: u32) -> Option<Quote> {
    Some(Quote {
        text: Text::new(bytes)?,
        line,
    })
}

fn usage(alloc: Global, kind: KindText, name: &[u8], line: u32) -> Option<UsageDecl> {
    Some(UsageDecl {
        line,
        kind,
        kind_line: line,
        name: id(name, line)?,
        params: Items::new(alloc),
        rows: Items::new(alloc),
    })
}

fn case(alloc: Global, usage: &[u8], tag: &[u8], line: u32) -> Option<Decl> {
    Some(Decl::Case(CaseDecl {
        line,
        usage: id(usage, line)?,
        tag: quote(tag, line)?,
        fields: Items::new(alloc),
        requires_: Items::new(alloc),
    }))
}

fn event(alloc: Global, line: u32) -> Option<Decl> {
    Some(Decl::Event(EventDecl {
        line,
        name: id(b"Sent", line)?,
        params: Items::new(alloc),
        after: Items::new(alloc),
    }))
}

fn state(alloc: Global, line: u32) -> Option<Decl> {
    Some(Decl::State(StateDecl {
        line,
        name: id(b"Sent", line)?,
        lasting: false,
        fields: Items::new(alloc),
        knows: Items::new(alloc),
    }))
}

fn handler(alloc: Global, line: u32) -> Option<Decl> {
    Some(Decl::Handler(Handler {
        line,
        name: id(b"H", line)?,
        on: None,
        args: Items::new(alloc),
        recv: None,
        body: Items::new(alloc),
    }))
}

/// The declaration on this line: some stand twice under one name, and several kinds have one name.
fn decl_at(alloc: Global, line: u32) -> Option<Decl> {
    match line {
        1 => Some(Decl::Usage(usage(alloc, KindText::Aead, b"Enc", 1)?)),
        2 => Some(Decl::Usage(usage(alloc, KindText::Kdf, b"Enc", 2)?)),
        3 => case(alloc, b"Enc", b"one", 3),
        4 => case(alloc, b"Enc", b"two", 4),
        5 => case(alloc, b"Enc", b"one", 5),
        6 | 7 => event(alloc, line),
        8 | 9 => state(alloc, line),
        10 | 11 => handler(alloc, line),
        _ => None,
    }
}

fn file_of(alloc: Global, decls: Items<Decl>) -> File {
    File {
        version: 1,
        decls,
        plan: Plan {
            rounds: Items::new(alloc),
        },
    }
}

/// A file of the declarations on lines 1 to 11.
fn file(alloc: Global) -> Result<File, AllocError> {
    let mut decls = Items::new(alloc);
    for line in 1..12 {
        if let Some(decl) = decl_at(alloc, line) {
            decls.push(decl)?;
        }
    }
    Ok(file_of(alloc, decls))
}

/// The lines of the usage, the event and the state of this name.
fn lines(cases: &Cases<'_>, name: &[u8]) -> [Option<u32>; 3] {
    match Word::new(name) {
        None => [None; 3],
        Some(word) => [
            cases.usage_named(&word).map(|usage| usage.line),
            cases.event_named(&word).map(|event| event.line),
            cases.state_named(&word).map(|state| state.line),
        ],
    }
}

/// The line of the case of this usage with this tag.
fn case_line(cases: &Cases<'_>, usage: &[u8], tag: &[u8]) -> Option<u32> {
    let usage = Word::new(usage)?;
    let tag = Text::new(tag)?;
    cases.case_of(&usage, &tag).map(|case| case.line)
}

#[test]
fn the_first_declaration_of_a_name_is_found(rt: HostRuntime) -> Result<(), Fail> {
    let file = file(rt.alloc())?;
    let cases = Cases::of(rt.alloc(), &file)?;
    assert_eq!(rt; lines(&cases, b"Enc"), [Some(1), None, None]);
    assert_eq!(rt; lines(&cases, b"Sent"), [None, Some(6), Some(8)]);
    assert_eq!(rt; lines(&cases, b"Other"), [None, None, None]);
    assert_eq!(rt; case_line(&cases, b"Enc", b"one"), Some(3));
    assert_eq!(rt; case_line(&cases, b"Enc", b"two"), Some(4));
    assert_eq!(rt; case_line(&cases, b"Sent", b"one"), None);
    assert_eq!(rt; cases.handlers().len(), 2);
    Ok(())
}

fn row(key: &[u8], kind: KindText, usage: &[u8]) -> Option<Row> {
    Some(Row {
        text: quote(key, 1)?,
        kind,
        kind_line: 1,
        usage: id(usage, 1)?,
    })
}

/// A file with a table of one row.
fn table(alloc: Global) -> Result<File, AllocError> {
    let mut decls = Items::new(alloc);
    let row = row(b"enc", KindText::Aead, b"Enc");
    if let (Some(mut root), Some(row)) = (usage(alloc, KindText::Kdf, b"Root", 1), row) {
        root.rows.push(row)?;
        decls.push(Decl::Usage(root))?;
    }
    Ok(file_of(alloc, decls))
}

/// A key's usage without owners.
fn key(alloc: Global, kind: Kind, name: &[u8]) -> Option<Usage> {
    Some(Usage {
        kind,
        name: Word::new(name)?,
        owners: Items::new(alloc),
    })
}

/// Whether a key of kind `kdf` and this usage gives, with this text, one of kind `aead` and usage `Enc`.
fn gives_enc(alloc: Global, cases: &Cases<'_>, usage: &[u8], text: &[u8]) -> bool {
    let Some(root) = key(alloc, Kind::Kdf, usage) else {
        return false;
    };
    let (Some(enc), Some(text)) = (key(alloc, Kind::Aead, b"Enc"), Text::new(text)) else {
        return false;
    };
    match cases.derived(alloc, &root, &text) {
        Ok(Some(derived)) => derived.same(&enc),
        _ => false,
    }
}

#[test]
fn derived_keys_have_the_usages_of_their_rows(rt: HostRuntime) -> Result<(), Fail> {
    let alloc = rt.alloc();
    let file = table(alloc)?;
    let cases = Cases::of(alloc, &file)?;
    assert!(rt; gives_enc(alloc, &cases, b"Root", b"enc"));
    assert!(rt; !gives_enc(alloc, &cases, b"Root", b"other"));
    assert!(rt; !gives_enc(alloc, &cases, b"Enc", b"enc"));
    Ok(())
}

#[test]
fn a_row_is_found_by_its_usage_and_text(rt: HostRuntime) -> Result<(), Fail> {
    let file = table(rt.alloc())?;
    let cases = Cases::of(rt.alloc(), &file)?;
    let (Some(root), Some(enc)) = (Word::new(b"Root"), Text::new(b"enc")) else {
        return Err("no name")?;
    };
    assert!(rt; cases.row_named(&root, &enc).is_some());
    Ok(())
}

#[test]
fn kinds_keep_their_names(rt: HostRuntime) {
    for (kind, wanted) in [
        (KindText::Nonce, Kind::Nonce),
        (KindText::Pke, Kind::Pke),
        (KindText::Sig, Kind::Sig),
        (KindText::Aead, Kind::Aead),
        (KindText::Mac, Kind::Mac),
        (KindText::Kdf, Kind::Kdf),
    ] {
        assert_eq!(rt; kind_of(kind), wanted);
    }
}
