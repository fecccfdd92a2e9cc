//! Sets of redistributors.
ghost use Rattle.std.specs.Prelude.{◌≡◌, ◌||◌, ℕ, true, false, MatchOption};
ghost use Rattle.owned_parts.specs.RedistSets.{is_in, is_target, IsNext, IsLast, HasNone, IsWithin};
ghost use Rattle.owned_parts.specs.RedistSets.{lower_of, higher_of};

use its_types::Vcpu;

/// The redistributors of some virtual processors, as commands need them.
#[derive(Clone, Copy, Debug, PartialEq, Eq)]
pub enum RedistSet {
    /// No redistributor.
    Nothing,
    /// That of one virtual processor.
    One(Vcpu),
    /// Those of two, which may be the same.
    Two(Vcpu, Vcpu),
    /// Those of the first so many.
    First(u16),
}

impl RedistSet {
    /// The redistributor of the target, if there is one.
    pub fn of(target: Option<Vcpu>) -> RedistSet
        ensures { (v : ℕ) → is_in result v ≡ is_target target v }
    {
        match target {
            Some(vcpu) => RedistSet::One(vcpu),
            None => RedistSet::Nothing,
        }
    }

    /// Those of two targets, so far as there are any.
    pub fn of_both(target: Option<Vcpu>, other: Option<Vcpu>) -> RedistSet
        ensures { (v : ℕ) → is_in result v ≡ (is_target target v || is_target other v) }
    {
        match (target, other) {
            (Some(vcpu), Some(other)) => RedistSet::Two(vcpu, other),
            (Some(vcpu), None) => RedistSet::One(vcpu),
            (None, other) => RedistSet::of(other),
        }
    }

    /// Whether there is none in it.
    pub fn is_empty(&self) -> bool
        ensures { result ≡ true → (v : ℕ) → is_in self.now v ≡ false }
    {
        matches!(self, RedistSet::Nothing)
    }

    /// Whether the redistributor of a virtual processor is in it.
    pub fn has(&self, vcpu: Vcpu) -> bool
        ensures { result ≡ is_in self.now vcpu.0 }
    {
        match *self {
            RedistSet::Nothing => false,
            RedistSet::One(one) => one == vcpu,
            RedistSet::Two(one, other) => one == vcpu || other == vcpu,
            RedistSet::First(count) => vcpu.0 < count,
        }
    }

    /// The lowest virtual processor from `from` on and below `end` whose redistributor is in it.
    pub fn next(&self, from: u16, end: u16) -> Option<u16>
        ensures { MatchOption result (HasNone self.now from end) (IsNext self.now from end) }
    {
        match *self {
            RedistSet::Nothing => None,
            RedistSet::One(one) => within(one, from, end),
            RedistSet::Two(one, other) => {
                lower(within(one, from, end), within(other, from, end))
            }
            RedistSet::First(count) if from < end && from < count => Some(from),
            RedistSet::First(_) => None,
        }
    }

    /// The highest virtual processor below `end` whose redistributor is in it.
    pub fn last(&self, end: u16) -> Option<u16>
        ensures { MatchOption result (HasNone self.now 0 end) (IsLast self.now end) }
    {
        match *self {
            RedistSet::Nothing => None,
            RedistSet::One(one) => within(one, 0, end),
            RedistSet::Two(one, other) => higher(within(one, 0, end), within(other, 0, end)),
            RedistSet::First(0) => None,
            RedistSet::First(_) if end == 0 => None,
            RedistSet::First(count) if count < end => Some(count - 1),
            RedistSet::First(_) => Some(end - 1),
        }
    }
}

// Its number, if that is from `from` on and below `end`.
fn within(vcpu: Vcpu, from: u16, end: u16) -> Option<u16>
    ensures { IsWithin vcpu from end result }
{
    if from <= vcpu.0 && vcpu.0 < end {
        Some(vcpu.0)
    } else {
        None
    }
}

// The lower of two numbers, so far as there are any.
fn lower(one: Option<u16>, other: Option<u16>) -> Option<u16>
    ensures { result ≡ lower_of one other }
{
    match (one, other) {
        (Some(one), Some(other)) => Some(if other < one { other } else { one }),
        (Some(one), None) => Some(one),
        (None, other) => other,
    }
}

// The higher of two numbers, so far as there are any.
fn higher(one: Option<u16>, other: Option<u16>) -> Option<u16>
    ensures { result ≡ higher_of one other }
{
    match (one, other) {
        (Some(one), Some(other)) => Some(if one < other { other } else { one }),
        (Some(one), None) => Some(one),
        (None, other) => other,
    }
}
