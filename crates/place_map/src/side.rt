ghost use Rattle.std.specs.Prelude.{◌≡◌};
ghost use Rattle.place_map.specs.Order.{path_side, place_side, is_before, is_until};
ghost use Rattle.place_map.specs.Tracked.{beyond};

use mir_syntax::{Place, Proj};

/// Where a tracked place lies against a place: before it, at or under it, or after it.
#[derive(Clone, Copy, Debug, Drop, PartialEq, Eq)]
pub enum Side {
    Before,
    Within,
    After,
}

fn path_side(tracked: &[Proj], path: &[Proj]) -> Side
    ensures { result ≡ path_side tracked.now path.now }
{
    let mut left = tracked;
    let mut rest = path;
    while let [proj, others @ ..] = rest {
        let [own, own_others @ ..] = left else {
            return Side::Before;
        };
        match (own, proj) {
            (Proj::Field(i), Proj::Field(j)) => {
                if *i < *j {
                    return Side::Before;
                }
                if *j < *i {
                    return Side::After;
                }
            }
            _ => return Side::Before,
        }
        left = own_others;
        rest = others;
    }
    Side::Within
}

/// Where a tracked place lies against the place at the end of a way from another.
fn place_side(tracked: &Place, place: &Place, way: &[Proj]) -> Side
    ensures { result ≡ place_side tracked.now (beyond place.now way.now) }
{
    if tracked.local < place.local {
        return Side::Before;
    }
    if place.local < tracked.local {
        return Side::After;
    }
    let own = tracked.proj.as_slice();
    match path_side(own, place.proj.as_slice()) {
        Side::Before => Side::Before,
        Side::Within => path_side(&own[place.proj.len()..], way),
        Side::After => Side::After,
    }
}

/// Whether a tracked place is before the place at the end of a way from another.
pub(crate) fn is_before(tracked: &Place, place: &Place, way: &[Proj]) -> bool
    ensures { result ≡ is_before (place_side tracked.now (beyond place.now way.now)) }
{
    matches!(place_side(tracked, place, way), Side::Before)
}

/// Whether a tracked place is before the place at the end of a way from another, or at or under it.
pub(crate) fn is_until(tracked: &Place, place: &Place, way: &[Proj]) -> bool
    ensures { result ≡ is_until (place_side tracked.now (beyond place.now way.now)) }
{
    !matches!(place_side(tracked, place, way), Side::After)
}
