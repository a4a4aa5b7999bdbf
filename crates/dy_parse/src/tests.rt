use super::*;
use crate::examples::{ONE_MESSAGE, PUBLIC_KEY_PROTOCOL, REPAIRED_PROTOCOL, SIGNED_QUESTION};
use dy_syntax::File;
use std::alloc::{AllocError, Global};
use std::test::*;

/// `parse`, at the sources of these tests.
fn parse_test(alloc: Global, source: &[u8]) -> Result<File, ParseError> {
    if source.len() > 1_000_000 {
        return Err(ParseError::Memory);
    }
    parse(alloc, source)
}

fn is_read(alloc: Global, source: &[u8]) -> bool {
    parse_test(alloc, source).is_ok()
}

fn is_bad(alloc: Global, source: &[u8], line: u32) -> bool {
    match parse_test(alloc, source) {
        Err(error) => error == ParseError::BadLine { line },
        Ok(_) => false,
    }
}

fn is_over(alloc: Global, source: &[u8], line: u32, which: LimitName) -> bool {
    match parse_test(alloc, source) {
        Err(error) => error == ParseError::Limit { line, which },
        Ok(_) => false,
    }
}

/// A text that is built from parts, some of them many times. It has a start, so many openings, what is inside,
/// as many closings, and an end.
#[derive(Clone, Copy)]
struct Shape {
    start: &'static [u8],
    opening: &'static [u8],
    inside: &'static [u8],
    closing: &'static [u8],
    end: &'static [u8],
}

fn build(alloc: Global, shape: &Shape, times: usize) -> Result<Vec<u8>, AllocError> {
    let mut source = shape.start.to_vec(alloc)?;
    for _ in 0..times {
        source.extend_from_slice(shape.opening)?;
    }
    source.extend_from_slice(shape.inside)?;
    for _ in 0..times {
        source.extend_from_slice(shape.closing)?;
    }
    source.extend_from_slice(shape.end)?;
    Ok(source)
}

/// Whether so many are read, and one more is over the limit on this line.
fn is_edge(alloc: Global, shape: &Shape, most: usize, line: u32, which: LimitName) -> bool {
    let Ok(fits) = build(alloc, shape, most) else {
        return false;
    };
    let Ok(over) = build(alloc, shape, most.saturating_add(1)) else {
        return false;
    };
    is_read(alloc, fits.as_slice()) && is_over(alloc, over.as_slice(), line, which)
}

/// A list: a start, so many parts, and an end.
fn list(start: &'static [u8], part: &'static [u8], end: &'static [u8]) -> Shape {
    Shape {
        start,
        opening: part,
        inside: b"",
        closing: b"",
        end,
    }
}

#[test]
fn words_and_texts_end_at_32_bytes(rt: HostRuntime) {
    let alloc = rt.alloc();
    let word = list(b"dystar 1\nusage mac ", b"a", b"();");
    assert!(rt; is_edge(alloc, &word, 32, 2, LimitName::Word));
    let text = list(b"dystar 1\ncase A \"", b"x", b"\"();");
    assert!(rt; is_edge(alloc, &text, 32, 2, LimitName::Text));
}

#[test]
fn declarations_are_counted_by_sort(rt: HostRuntime) {
    let alloc = rt.alloc();
    let usages = list(b"dystar 1", b"\nusage mac A();", b"");
    assert!(rt; is_edge(alloc, &usages, 256, 258, LimitName::Usages));
    let cases = list(b"dystar 1", b"\ncase A \"c\"();", b"");
    assert!(rt; is_edge(alloc, &cases, 1024, 1026, LimitName::Cases));
    let events = list(b"dystar 1", b"\nevent A();", b"");
    assert!(rt; is_edge(alloc, &events, 256, 258, LimitName::Events));
    let states = list(b"dystar 1", b"\nstate A ();", b"");
    assert!(rt; is_edge(alloc, &states, 256, 258, LimitName::States));
    let handlers = list(b"dystar 1", b"\nhandler A args() { }", b"");
    assert!(rt; is_edge(alloc, &handlers, 256, 258, LimitName::Handlers));
}

#[test]
fn parts_of_handlers_are_counted(rt: HostRuntime) {
    let alloc = rt.alloc();
    let statements = list(b"dystar 1\nhandler A args() {", b"\nsend a;", b" }");
    assert!(rt; is_edge(alloc, &statements, 64, 67, LimitName::Statements));
    let args = list(b"dystar 1\nhandler A args(a", b",\na", b") { }");
    assert!(rt; is_edge(alloc, &args, 5, 8, LimitName::Names));
    let names = list(
        b"dystar 1\nhandler A args() {\nuse S(name a",
        b",\nname a",
        b"); }",
    );
    assert!(rt; is_edge(alloc, &names, 5, 9, LimitName::Names));
    let on = list(
        b"dystar 1\nhandler A on S(\nname a) args(a",
        b",\na",
        b") { }",
    );
    assert!(rt; is_edge(alloc, &on, 4, 3, LimitName::Names));
}

#[test]
fn lists_in_parentheses_are_counted(rt: HostRuntime) {
    let alloc = rt.alloc();
    let params = list(b"dystar 1\nusage mac A(a", b",\na", b");");
    assert!(rt; is_edge(alloc, &params, 15, 18, LimitName::Fields));
    let fields = list(b"dystar 1\nstate A (a: any", b",\na: any", b");");
    assert!(rt; is_edge(alloc, &fields, 15, 18, LimitName::Fields));
    let args = list(
        b"dystar 1\nhandler A args() { send \"t\"(a",
        b",\na",
        b"); }",
    );
    assert!(rt; is_edge(alloc, &args, 15, 18, LimitName::Fields));
    let recipes = list(
        b"dystar 1\nplan { round { s: inject \"t\"(\"x\"",
        b",\n\"x\"",
        b"); } }",
    );
    assert!(rt; is_edge(alloc, &recipes, 15, 18, LimitName::Fields));
}

#[test]
fn partners_and_rows_are_counted(rt: HostRuntime) {
    let alloc = rt.alloc();
    let required = list(b"dystar 1\ncase A \"c\"() requires E()", b",\nE()", b";");
    assert!(rt; is_edge(alloc, &required, 7, 10, LimitName::Partners));
    let after = list(
        b"dystar 1\nevent A() after E() unless a",
        b",\nE() unless a",
        b";",
    );
    assert!(rt; is_edge(alloc, &after, 7, 10, LimitName::Partners));
    let known = list(
        b"dystar 1\nstate A () knows E() unless a",
        b",\nE() unless a",
        b";",
    );
    assert!(rt; is_edge(alloc, &known, 7, 10, LimitName::Partners));
    let rows = list(b"dystar 1\nusage kdf A() {", b"\n\"c\" -> mac M;", b"};");
    assert!(rt; is_edge(alloc, &rows, 16, 19, LimitName::Rows));
}

#[test]
fn rounds_and_steps_are_counted(rt: HostRuntime) {
    let alloc = rt.alloc();
    let rounds = list(b"dystar 1\nplan {", b"\nround { }", b"}");
    assert!(rt; is_edge(alloc, &rounds, 256, 259, LimitName::Rounds));
    let steps = list(
        b"dystar 1\nplan { round { s: forge; } round {",
        b"\ns: forge;",
        b"} }",
    );
    assert!(rt; is_edge(alloc, &steps, 1023, 1026, LimitName::Steps));
}

#[test]
fn nesting_ends_at_64_levels(rt: HostRuntime) {
    let alloc = rt.alloc();
    let exprs = Shape {
        start: b"dystar 1\nhandler A args() { send ",
        opening: b"hash(\n",
        inside: b"a",
        closing: b")",
        end: b"; }",
    };
    assert!(rt; is_edge(alloc, &exprs, 63, 66, LimitName::Nesting));
    let recipes = Shape {
        start: b"dystar 1\nplan { round { s: inject ",
        opening: b"hash(\n",
        inside: b"\"x\"",
        closing: b")",
        end: b"; } }",
    };
    assert!(rt; is_edge(alloc, &recipes, 63, 66, LimitName::Nesting));
    let leaves = Shape {
        start: b"dystar 1\ncase A \"c\"(f: upto ",
        opening: b"join(a,\n",
        inside: b"a",
        closing: b")",
        end: b");",
    };
    assert!(rt; is_edge(alloc, &leaves, 15, 18, LimitName::Leaves));
}

/// A plan that names so many different principals, each on a line, and each of them again.
fn principals(alloc: Global, many: u8) -> Result<Vec<u8>, AllocError> {
    let mut source = b"dystar 1\nplan { round {".to_vec(alloc)?;
    for i in 0..many {
        let name = [b'a' + i / 10, b'0' + i % 10];
        source.extend_from_slice(b"\ns: corrupt ")?;
        source.extend_from_slice(&name)?;
        source.extend_from_slice(b" s 1; s: inject name ")?;
        source.extend_from_slice(&name)?;
        source.extend_from_slice(b";")?;
    }
    source.extend_from_slice(b"} }")?;
    Ok(source)
}

#[test]
fn different_principals_are_counted(rt: HostRuntime) -> Result<(), Fail> {
    let alloc = rt.alloc();
    let fits = principals(alloc, 64)?;
    assert!(rt; is_read(alloc, fits.as_slice()));
    let over = principals(alloc, 65)?;
    assert!(rt; is_over(alloc, over.as_slice(), 67, LimitName::Principals));
    Ok(())
}

/// The sources of which the line is not read.
fn are_bad(alloc: Global, sources: &[(&[u8], u32)]) -> bool {
    sources.iter().all(|bad| is_bad(alloc, bad.0, bad.1))
}

#[test]
fn faulty_tokens_are_found(rt: HostRuntime) {
    let sources: [(&[u8], u32); 12] = [
        (b"#", 1),
        (b"dystar\n1a", 2),
        (b"dystar 01", 1),
        (b"dystar 1\nplan { round { s: corrupt p s 1234567; } }", 2),
        (b"dystar 1\ncase A \"c\n\"();", 2),
        (b"dystar 1\ncase A \"c\\\"();", 2),
        (b"dystar 1\nusage kdf A() { \"c\" -\n> mac M; };", 2),
        (b"dystar 1\nusage mac A();\n\"", 3),
        (b"dystar 1\nusage mac A();\n\n#", 4),
        (b"dystar 1\n# $", 2),
        // A fault of the grammar stands before it.
        (b"dystar 1\nusage usage\n#", 3),
        (b"\n\nusage #", 3),
    ];
    assert!(rt; are_bad(rt.alloc(), &sources));
}

#[test]
fn faults_of_the_grammar_are_found(rt: HostRuntime) {
    let sources: [(&[u8], u32); 16] = [
        (b"", 1),
        (b"\n\n", 3),
        (b"\nusage mac A();", 2),
        (b"dystar", 1),
        (b"dystar\n2", 2),
        (b"dystar 1\nusage mac A(a,\n);", 3),
        (b"dystar 1\nusage mac\nplan();", 3),
        (b"dystar 1\nevent A() after\n;", 3),
        (b"dystar 1\nhandler A args() {\nsend hash(a;\n}", 3),
        (b"dystar 1\nhandler A args() { send a\n}", 3),
        (b"dystar 1\nusage mac A(\n", 3),
        (b"dystar 1\nplan { }\nusage mac A();", 3),
        (b"dystar 1\nplan { }\nplan { }", 3),
        (b"dystar 1\nplan {\n\n", 4),
        (b"dystar 1\nstate A(a: public);\nstate", 2),
        // A fault of the grammar stands before a limit.
        (
            b"dystar 1\nusage mac a23456789012345678901234567890123();\nusage",
            3,
        ),
    ];
    assert!(rt; are_bad(rt.alloc(), &sources));
}

#[test]
fn the_first_limit_is_named(rt: HostRuntime) {
    let alloc = rt.alloc();
    let word_first =
        b"dystar 1\ncase a23456789012345678901234567890123\n\"123456789012345678901234567890123\"();";
    assert!(rt; is_over(alloc, word_first, 2, LimitName::Word));
    let text_first =
        b"dystar 1\ncase A \"123456789012345678901234567890123\"(\na23456789012345678901234567890123: any);";
    assert!(rt; is_over(alloc, text_first, 2, LimitName::Text));
    let one_line =
        b"dystar 1\ncase A \"123456789012345678901234567890123\"(a23456789012345678901234567890123: any);";
    assert!(rt; is_over(alloc, one_line, 2, LimitName::Word));
}

#[test]
fn deep_input_is_read_to_its_end(rt: HostRuntime) -> Result<(), Fail> {
    let alloc = rt.alloc();
    let deep = Shape {
        start: b"dystar 1\nhandler A args() {\nsend ",
        opening: b"hash(",
        inside: b"a",
        closing: b")",
        end: b"; }",
    };
    let closed = build(alloc, &deep, 100_000)?;
    assert!(rt; is_over(alloc, closed.as_slice(), 3, LimitName::Nesting));
    let unclosed = list(b"dystar 1\nhandler A args() {\nsend ", b"hash(", b"\n");
    let unclosed = build(alloc, &unclosed, 100_000)?;
    assert!(rt; is_bad(alloc, unclosed.as_slice(), 4));
    Ok(())
}

#[test]
fn whole_files_are_read(rt: HostRuntime) {
    let alloc = rt.alloc();
    let files: [&[u8]; 6] = [
        b"dystar 1",
        b"dystar 1\nplan { }",
        REPAIRED_PROTOCOL,
        PUBLIC_KEY_PROTOCOL,
        ONE_MESSAGE,
        SIGNED_QUESTION,
    ];
    assert!(rt; files.iter().all(|file| is_read(alloc, file)));
}

#[test]
fn errors_have_texts(rt: HostRuntime) -> Result<(), Fail> {
    let alloc = rt.alloc();
    let line = 3;
    let which = LimitName::Nesting;
    let bad = ParseError::BadLine { line }.to_string(alloc)?;
    assert_eq!(rt;
        bad.as_str(),
        "line 3: no file of the language goes on like this"
    );
    let over = ParseError::Limit { line, which }.to_string(alloc)?;
    assert_eq!(rt; over.as_str(), "line 3: over the limit nesting");
    assert_eq!(rt; which.as_str(), "nesting");
    Ok(())
}
