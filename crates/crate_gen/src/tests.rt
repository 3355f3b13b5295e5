use crate::{generate, schedule};
use mir_syntax::{
    BinOp, Block, Callee, Const, FnLines, Function, IntTy, Operand, Rvalue, Stmt, Term,
};
use std::test::Fail;

// The constants that a function's first block has, in their order.
fn constants(function: &Function) -> [Option<u128>; 2] {
    let mut found = [None, None];
    if let Some(block) = function.body.blocks.get(0) {
        for stmt in block.stmts.as_slice() {
            match stmt {
                Stmt::Assign(_, Rvalue::Use(Operand::Const(Const::Int(IntTy::U32, value)))) => {
                    found[0] = Some(*value);
                }
                Stmt::Assign(
                    _,
                    Rvalue::Binary(BinOp::Lt, _, Operand::Const(Const::Int(IntTy::U32, value))),
                ) => found[1] = Some(*value),
                _ => {}
            }
        }
    }
    found
}

// The operator with which a function begins.
fn operator(function: &Function) -> Option<BinOp> {
    match function.body.blocks.get(0)?.stmts.get(1)? {
        Stmt::Assign(_, Rvalue::Binary(op, _, _)) => Some(*op),
        _ => None,
    }
}

// The function that a block calls.
fn called(block: Option<&Block>) -> Option<u32> {
    match block?.term {
        Term::Call(_, Callee::Local(function), _, _) => Some(function.0),
        _ => None,
    }
}

fn term_line(lines: &FnLines, block: usize) -> Option<u32> {
    Some(lines.blocks.get(block)?.term)
}

#[test]
fn draws_one_after_another(rt: HostRuntime) -> Result<(), Fail> {
    let turns = schedule(rt.alloc(), 1, 32_768)?;
    assert_eq!(rt; turns.len(), 4_096);
    for (at, turn) in [16_838, 5_758, 10_113, 17_515, 31_051].iter().enumerate() {
        assert!(rt; turns.get(at) == Some(turn));
    }
    Ok(())
}

#[test]
fn makes_what_is_drawn(rt: HostRuntime) -> Result<(), Fail> {
    // The number, the functions, and of one of them its number, path, what is drawn for it, and the lines of its head and its terminators.
    let rows: [(u32, u32, usize, &[u8], [u128; 2], BinOp, [u32; 2], [u32; 5]); 4] = [
        (
            1,
            1,
            0,
            b"f00000",
            [38, 13],
            BinOp::Sub,
            [0, 0],
            [1, 11, 15, 19, 23],
        ),
        (
            7,
            2,
            0,
            b"f00000",
            [64, 68],
            BinOp::Mul,
            [0, 1],
            [1, 11, 15, 19, 23],
        ),
        (
            7,
            2,
            1,
            b"f00001",
            [65, 90],
            BinOp::Add,
            [1, 1],
            [27, 37, 41, 45, 49],
        ),
        (
            2_147_483_647,
            10_000,
            9_999,
            b"f09999",
            [18, 87],
            BinOp::Sub,
            [7_071, 6_756],
            [259_975, 259_985, 259_989, 259_993, 259_997],
        ),
    ];
    for (start, functions, at, path, numbers, op, calls, lines) in rows {
        let made = generate(rt.alloc(), start, functions)?;
        assert!(rt; made.program.functions.len() == functions as usize);
        assert!(rt; made.lines.functions.len() == functions as usize);
        let Some(function) = made.program.functions.get(at) else {
            return Err(Fail::new("no function"));
        };
        let blocks = &function.body.blocks;
        assert!(rt; function.path.as_slice() == path);
        assert!(rt; constants(function) == [Some(numbers[0]), Some(numbers[1])]);
        assert!(rt; operator(function) == Some(op));
        assert!(rt; called(blocks.get(1)) == Some(calls[0]));
        assert!(rt; called(blocks.get(2)) == Some(calls[1]));
        let Some(told) = made.lines.functions.get(at) else {
            return Err(Fail::new("no lines"));
        };
        assert_eq!(rt; told.head, lines[0]);
        for block in 0..4 {
            assert!(rt; term_line(told, block) == Some(lines[block + 1]));
        }
    }
    Ok(())
}
