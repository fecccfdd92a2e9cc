//! Which parts a pass has.
ghost use Rattle.std.specs.Prelude.{◌≡◌, position};
ghost use Rattle.its_player.specs.Held as spec;

use crate::held::Held;
use its_types::Part;

/// Whether two parts are the same.
pub fn same_part(a: Part, b: Part) -> bool
    ensures { result ≡ spec.same_part a b }
{
    match (a, b) {
        (Part::Maps(its), Part::Maps(other)) => its == other,
        (Part::Mem, Part::Mem) => true,
        (Part::Shard(its, n), Part::Shard(other, m)) => its == other && n == m,
        (Part::Conf(vcpu), Part::Conf(other)) => vcpu.0 == other.0,
        (Part::Pend(vcpu), Part::Pend(other)) => vcpu.0 == other.0,
        _ => false,
    }
}

/// Whether a part is held.
pub fn holds(held: &[Held], part: Part) -> bool
    ensures { result ≡ spec.holds part held.now }
{
    held.iter().any(|x| same_part(x.part(), part))
}

/// Whether every part held is out of its slot.
pub fn all_out(held: &[Held]) -> bool
    ensures { result ≡ spec.all_out held.now }
{
    held.iter().all(|x| x.is_out())
}

/// Whether every one of some parts is held.
pub fn covers(held: &[Held], parts: &[Part]) -> bool
    ensures { result ≡ spec.covers held.now parts.now }
{
    parts.iter().all(|part| holds(held, *part))
}

/// Where a part is held that is out of its slot.
pub fn find_out(held: &[Held], part: Part) -> Option<usize>
    ensures { result ≡ position (spec.is_out part) held.now }
{
    held.iter()
        .position(|x| same_part(x.part(), part) && x.is_out())
}

/// Where a part is held that stands in its slot.
pub fn find_kept(held: &[Held], part: Part) -> Option<usize>
    ensures { result ≡ position (spec.is_kept part) held.now }
{
    held.iter()
        .position(|x| same_part(x.part(), part) && !x.is_out())
}
