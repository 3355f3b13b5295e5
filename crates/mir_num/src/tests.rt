// Answers of rustc's operators on the primitive types.
use crate::{binop, cast, over, signed, unary, width, wrap};
use mir_syntax::{BinOp, IntTy, OverOp, ScalarTy, UnOp};

#[test]
fn binop_as_rustc(rt: HostRuntime) {
    let i8 = ScalarTy::Int(IntTy::I8);
    let i32 = ScalarTy::Int(IntTy::I32);
    let u128 = ScalarTy::Int(IntTy::U128);
    assert_eq!(rt; binop(BinOp::Add, i8, 0x7f, 1), Some(0x80));
    assert_eq!(rt; binop(BinOp::Div, i32, 0xffff_fff9, 2), Some(0xffff_fffd));
    assert_eq!(rt; binop(BinOp::Rem, i32, 0xffff_fff9, 2), Some(0xffff_ffff));
    assert_eq!(rt; binop(BinOp::Rem, i8, 0x80, 0xff), None);
    assert_eq!(rt; binop(BinOp::Shr, i8, 0x80, 7), Some(0xff));
    assert_eq!(rt;
        binop(
            BinOp::Mul,
            u128,
            0xffff_ffff_ffff_ffff_ffff_ffff_ffff_ffff,
            3
        ),
        Some(0xffff_ffff_ffff_ffff_ffff_ffff_ffff_fffd)
    );
    assert_eq!(rt; binop(BinOp::Le, i8, 0xff, 0), Some(1));
    assert_eq!(rt;
        binop(BinOp::MulUnchecked, i32, 0xffff_ffff, 0x8000_0000),
        None
    );
    assert_eq!(rt; binop(BinOp::BitXor, ScalarTy::Bool, 1, 1), Some(0));
}

#[test]
fn others_as_rustc(rt: HostRuntime) {
    assert_eq!(rt; over(OverOp::Sub, IntTy::U8, 3, 5), (0xfe, true));
    assert_eq!(rt;
        over(OverOp::Mul, IntTy::I16, 0xffff, 0x7fff),
        (0x8001, false)
    );
    assert_eq!(rt; unary(UnOp::Not, ScalarTy::Bool, 0), 1);
    assert_eq!(rt;
        unary(UnOp::Neg, ScalarTy::Int(IntTy::I64), 1),
        0xffff_ffff_ffff_ffff
    );
    assert_eq!(rt; cast(ScalarTy::Int(IntTy::I8), IntTy::U16, 0x80), 0xff80);
    assert_eq!(rt; cast(ScalarTy::Int(IntTy::U64), IntTy::I8, 0x1234), 0x34);
    assert_eq!(rt;
        wrap(ScalarTy::Int(IntTy::Usize), 0x1_0000_0000_0000_0002),
        2
    );
    assert_eq!(rt;
        (
            width(ScalarTy::Int(IntTy::Isize)),
            signed(ScalarTy::Int(IntTy::Isize))
        ),
        (64, true)
    );
}
