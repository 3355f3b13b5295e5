use crate::run_quiet;
use mir_syntax::List;
use pipe_io::{FaultySink, FaultySource, PlainSink, PlainSource};
use std::test::Fail;

const RETURNS: &str =
    "fn f() -> () {\n    let mut _0: ();\n\n    bb0: {\n        return;\n    }\n}\n";

const SKIPS: &str =
    "fn g() -> i32 { let mut _0: i32; bb0: { goto -> bb2; } bb1: { unreachable; } bb2: { _0 = const 4_i32; return; } }";

const SKIPPED: &str =
    "fn g() -> i32 {\n    let mut _0: i32;\n\n    bb0: {\n        _0 = const 4_i32;\n        return;\n    }\n}\n";

const UNREAD: &str =
    "fn h(_1: u8) -> u8 { let mut _0: u8; let mut _2: u8; bb0: { _2 = const 3_u8; _0 = copy _1; return; } }";

const READ: &str =
    "fn h(_1: u8) -> u8 {\n    let mut _0: u8;\n\n    bb0: {\n        _0 = copy _1;\n        return;\n    }\n}\n";

const BACK_TO_START: &str =
    "fn l() -> () {\n    let mut _0: ();\n\n    bb0: {\n        goto -> bb1;\n    }\n\n    bb1: {\n        goto -> bb0;\n    }\n}\n";

const DROPS: &str =
    "struct G(u32);\nextern fn note(u32) -> ();\n\ndrop fn drop_g(_1: &mut G) -> () {\n    let mut _0: ();\n\n    bb0: {\n        _0 = note(copy ((*_1).0: u32)) -> [return: bb1, unwind unreachable];\n    }\n\n    bb1: {\n        return;\n    }\n}\n\n#[inline(never)]\nfn eat(_1: G) -> () {\n    let mut _0: ();\n\n    bb0: {\n        drop(_1) -> [return: bb1, unwind unreachable];\n    }\n\n    bb1: {\n        return;\n    }\n}\n";

const GOING: &str = "going\n";

const RAN: &str = "call note(3) = ()\nreturned\n";

fn list(rt: &HostRuntime, text: &str) -> Result<List<u8>, Fail> {
    let mut list = List::new(rt.alloc());
    list.extend(text.as_bytes())?;
    Ok(list)
}

// The words of a line.
fn words(rt: &HostRuntime, line: &str) -> Result<Vec<String>, Fail> {
    let mut words = Vec::new(rt.alloc());
    for word in line.split_whitespace() {
        words.push(format!(in rt.alloc(); "{word}")?)?;
    }
    Ok(words)
}

// The status, the output and the notes, where no object fails.
fn told(rt: &HostRuntime, asked: &str, input: &str) -> Result<(u8, PlainSink, PlainSink), Fail> {
    let words = words(rt, asked)?;
    let mut source = PlainSource::new(list(rt, input)?);
    let mut sink = PlainSink::new(rt.alloc());
    let mut notes = PlainSink::new(rt.alloc());
    let status = run_quiet(
        rt.alloc(),
        words.as_slice(),
        &mut source,
        &mut sink,
        &mut notes,
    );
    Ok((status, sink, notes))
}

#[test]
fn answers_by_words_and_input(rt: HostRuntime) -> Result<(), Fail> {
    for (asked, input, status, out, line) in [
        ("check", "", 0, "ok 0\n", ""),
        ("seq", "", 0, "", ""),
        ("check", DROPS, 0, "ok 2\n", ""),
        ("seq", RETURNS, 0, RETURNS, ""),
        ("seq", SKIPS, 0, SKIPPED, ""),
        ("seq", UNREAD, 0, READ, ""),
        ("", RETURNS, 2, "", "word 1\n"),
        ("seq x", RETURNS, 2, "", "word 2\n"),
        ("check", "fn f() -> () {", 1, "", "S05 line 1\n"),
        ("check", "struct S { a: S }", 1, "", "V01 line 1\n"),
        ("seq", BACK_TO_START, 1, "", "V05 line 9\n"),
        ("seq", DROPS, 1, "", "S16 line 21\n"),
        ("run eat 3 --answers - --steps 9", DROPS, 0, RAN, ""),
        ("run eat 3 --answers - --steps 1", DROPS, 0, GOING, ""),
        ("run eats 3 --answers - --steps 9", DROPS, 1, "", "E01\n"),
        ("run eat - --answers - --steps 9", DROPS, 1, "", "E02\n"),
        ("run eat 03 --answers - --steps 9", DROPS, 2, "", "word 3\n"),
        ("dump promoted g", SKIPS, 0, SKIPPED, ""),
        ("dump optimised h", UNREAD, 0, READ, ""),
        ("dump built h", SKIPS, 1, "", "E01\n"),
        ("dump built eats", DROPS, 1, "", "S16 line 21\n"),
        ("dump halved g", SKIPS, 2, "", "word 2\n"),
    ] {
        let (told, sink, notes) = told(&rt, asked, input)?;
        assert_eq!(rt; told, status);
        assert!(rt; sink.bytes() == out.as_bytes());
        assert!(rt; notes.bytes() == line.as_bytes());
    }
    Ok(())
}

#[test]
fn tells_faults(rt: HostRuntime) -> Result<(), Fail> {
    let words = words(&rt, "seq")?;
    let mut fails = List::new(rt.alloc());
    fails.push(2)?;
    let mut source = PlainSource::new(list(&rt, RETURNS)?);
    let mut sink = FaultySink::new(rt.alloc(), fails, 1);
    let mut notes = PlainSink::new(rt.alloc());
    let told = run_quiet(
        rt.alloc(),
        words.as_slice(),
        &mut source,
        &mut sink,
        &mut notes,
    );
    assert_eq!(rt; told, 4);
    assert!(rt; sink.bytes() == "fn".as_bytes());
    assert!(rt; notes.bytes() == "write fault\n".as_bytes());

    let mut fails = List::new(rt.alloc());
    fails.push(0)?;
    let mut source = FaultySource::new(list(&rt, RETURNS)?, fails);
    let mut sink = PlainSink::new(rt.alloc());
    let mut notes = PlainSink::new(rt.alloc());
    let told = run_quiet(
        rt.alloc(),
        words.as_slice(),
        &mut source,
        &mut sink,
        &mut notes,
    );
    assert_eq!(rt; told, 3);
    assert!(rt; sink.bytes().is_empty());
    assert!(rt; notes.bytes() == "read fault\n".as_bytes());
    Ok(())
}
