//! Finds the first manager of a kind in a list of managers: mode `run` uses it.
ghost use Rattle.std.specs.Prelude.{◌≡◌, map};
ghost use Rattle.top_call.specs.FirstOfKind.{first_of_kind, same_kind};

use cf_base::Kind;
use cf_model::Manager;

/// For mode `run`, whether the two kinds are the same.
fn is_same(one: Kind, other: Kind) -> bool
    ensures { result ≡ same_kind one other }
{
    match (one, other) {
        (Kind::Moving, Kind::Moving) => true,
        (Kind::NonMoving, Kind::NonMoving) => true,
        (Kind::Tlsf, Kind::Tlsf) => true,
        (Kind::HalfFit, Kind::HalfFit) => true,
        _ => false,
    }
}

/// For mode `run`, the index of the first manager of the kind in the list, counted from 0; `None` if there is none.
pub fn first_of<H: Manager>(managers: &Vec<H>, kind: Kind) -> Option<usize>
    ensures { result ≡ first_of_kind kind (map (λ m. H.state m) managers.now.items) }
{
    for i in 0..managers.len() {
        if is_same(managers[i].kind(), kind) {
            return Some(i);
        }
    }
    None
}
