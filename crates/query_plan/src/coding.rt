//! The numbers of queries.
ghost use Rattle.std.specs.Prelude.{◌≡◌, ◌<◌, ◌≤◌, ◌*◌, ◌/◌, ◌%◌, ◌^◌};
ghost use Rattle.mir_syntax.specs.Crate.{TypedBody};
ghost use Rattle.query_plan.specs.Queries.{Pipeline};
ghost use Rattle.query_plan.specs.Needs.{kind_at, query, stolen_by as stolen};

use crate::kind::Kind;
use mir_syntax::FnId;

/// The number of a query of a function, of so many functions.
pub fn query_number(functions: u32, kind: Kind, f: FnId) -> u32
    requires few { functions ≤ 2 ^ 26 }
    requires f { f.0 < functions }
    ensures { result ≡ query functions kind f.0 }
{
    let n = functions;
    match kind {
        Kind::Built => f.0,
        Kind::Qualif => n + f.0,
        Kind::Prom => 2 * n + f.0,
        Kind::Callees => 3 * n + f.0,
        Kind::Cost => 4 * n + f.0,
        Kind::Reach => 5 * n + f.0,
        Kind::Elab => 6 * n + f.0,
        Kind::Opt => 7 * n + f.0,
    }
}

/// The kind and the function of a query.
pub fn query_of(functions: u32, q: u32) -> (Kind, FnId)
    requires few { functions ≤ 2 ^ 26 }
    requires q { q < 8 * functions }
    ensures kind { result.0 ≡ kind_at (q / functions) }
    ensures function { result.1.0 ≡ q % functions }
    ensures below { result.1.0 < functions }
{
    let kind = match q / functions {
        1 => Kind::Qualif,
        2 => Kind::Prom,
        3 => Kind::Callees,
        4 => Kind::Cost,
        5 => Kind::Reach,
        6 => Kind::Elab,
        7 => Kind::Opt,
        _ => Kind::Built,
    };
    (kind, FnId(q % functions))
}

/// The slot that a query of a function steals: its last need. `None` where it steals none.
pub fn stolen_by(functions: u32, kind: Kind, f: FnId) -> Option<u32>
    requires few { functions ≤ 2 ^ 26 }
    requires f { f.0 < functions }
    ensures { (P : Pipeline TypedBody) → P.functions ≡ functions → result ≡ stolen P kind f.0 }
{
    match kind {
        Kind::Prom => Some(query_number(functions, Kind::Built, f)),
        Kind::Elab => Some(query_number(functions, Kind::Prom, f)),
        Kind::Opt => Some(query_number(functions, Kind::Elab, f)),
        _ => None,
    }
}
