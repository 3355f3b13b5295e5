use crate::read_symbols;
use mir_lex::LexFault;
use mir_syntax::{IntTy, OutOfMemory};
use mir_text::Symbol;

#[test]
fn an_assignment(rt: HostRuntime) -> Result<(), OutOfMemory> {
    let found = read_symbols(rt.alloc(), b"// first\n_1 = a(5_u8, \"a\");".as_slice())?;
    assert_eq!(rt; found.symbols.len(), 9);
    assert!(rt; found.symbols.get(0) == Some(&Symbol::Local(1)));
    assert!(rt; found.symbols.get(2) == Some(&Symbol::Name(8)));
    assert!(rt; found.symbols.get(4) == Some(&Symbol::Typed(IntTy::U8, 5)));
    assert!(rt; found.symbols.get(6) == Some(&Symbol::Text(8)));
    assert!(rt; found.lines.get(8) == Some(&2));
    assert!(rt; found.strings.get(8) == Some(b"a".as_slice()));
    assert_eq!(rt; found.fault, None);
    assert_eq!(rt; found.end_line, 2);
    Ok(())
}

#[test]
fn numbers_that_are_too_large(rt: HostRuntime) -> Result<(), OutOfMemory> {
    let found = read_symbols(
        rt.alloc(),
        b"bb4294967296 _4294967296 bb1 inline f64 ?".as_slice(),
    )?;
    assert!(rt; found.symbols.get(0) == Some(&Symbol::LargeBlock));
    assert!(rt; found.symbols.get(1) == Some(&Symbol::LargeLocal));
    assert!(rt; found.symbols.get(2) == Some(&Symbol::Block(1)));
    assert!(rt; found.symbols.get(3) == Some(&Symbol::Name(0)));
    assert!(rt; found.symbols.get(4) == Some(&Symbol::LeftOut));
    assert!(rt; found.symbols.get(5) == Some(&Symbol::Question));
    Ok(())
}

#[test]
fn a_fault_has_its_line(rt: HostRuntime) -> Result<(), OutOfMemory> {
    let found = read_symbols(rt.alloc(), b"fn\n\"a\n".as_slice())?;
    assert_eq!(rt; found.fault, Some(LexFault { code: 3, line: 2 }));
    assert_eq!(rt; found.symbols.len(), 1);
    Ok(())
}
