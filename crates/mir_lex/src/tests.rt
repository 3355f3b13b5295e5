use crate::{Kind, LexFault, Token, lex};
use mir_syntax::{IntTy, OutOfMemory};

fn kind_at(tokens: &[Token], place: usize) -> Option<Kind> {
    match tokens.get(place) {
        Some(token) => Some(token.kind),
        None => None,
    }
}

#[test]
fn an_assignment_has_four_tokens(rt: HostRuntime) -> Result<(), OutOfMemory> {
    let text = b"_1 = 5_u8;";
    let lexed = lex(rt.alloc(), text.as_slice())?;
    assert_eq!(rt; lexed.tokens.len(), 4);
    assert_eq!(rt; kind_at(lexed.tokens.as_slice(), 0), Some(Kind::Local(1)));
    assert_eq!(rt;
        kind_at(lexed.tokens.as_slice(), 2),
        Some(Kind::Number(5, Some(IntTy::U8)))
    );
    assert_eq!(rt; lexed.fault, None);
    Ok(())
}

#[test]
fn names_and_words(rt: HostRuntime) -> Result<(), OutOfMemory> {
    let text = b"bb0x MulUnchecked ShrUnchecked 5_u9";
    let lexed = lex(rt.alloc(), text.as_slice())?;
    assert_eq!(rt; kind_at(lexed.tokens.as_slice(), 0), Some(Kind::Name));
    assert_eq!(rt; kind_at(lexed.tokens.as_slice(), 1), Some(Kind::Word(63)));
    assert_eq!(rt; kind_at(lexed.tokens.as_slice(), 2), Some(Kind::Word(94)));
    assert_eq!(rt;
        kind_at(lexed.tokens.as_slice(), 3),
        Some(Kind::Number(5, None))
    );
    assert_eq!(rt; kind_at(lexed.tokens.as_slice(), 4), Some(Kind::Name));
    Ok(())
}

#[test]
fn faults(rt: HostRuntime) -> Result<(), OutOfMemory> {
    let open = lex(rt.alloc(), b"\n\"a\\\n\"".as_slice())?;
    assert_eq!(rt; open.fault, Some(LexFault { code: 3, line: 2 }));
    let alone = lex(rt.alloc(), b"_ ".as_slice())?;
    assert_eq!(rt; alone.fault, Some(LexFault { code: 1, line: 1 }));
    let large = lex(
        rt.alloc(),
        b"340282366920938463463374607431768211456".as_slice(),
    )?;
    assert_eq!(rt; large.fault, Some(LexFault { code: 2, line: 1 }));
    Ok(())
}
