//! The stretches of guest memory that a step reads, one after another.
ghost use Rattle.std.specs.Iterator.{YieldsFirstBy, item_count};
ghost use Rattle.step_views.specs.Pairs.{pair_of};

use crate::config_reads::ConfigReads;
use crate::stretch::Stretch;
use std::marker::Model;

/// The stretches that a step reads, in the order in which it reads them, each once. It is seen as
/// the list of those that are left, by their addresses and lengths.
#[derive(Drop)]
pub struct Needs<'a> {
    first: Option<Stretch>,
    second: Option<Stretch>,
    configs: Option<ConfigReads<'a>>,
}

impl<'a> Model for Needs<'a> {
    ghost use Rattle.std.specs.Prelude.{ℕ, List};
    ghost use Rattle.step_views.specs.Pairs.{all_left};

    ghost Value = { List (ℕ × ℕ) };

    ghost view = { λ n. all_left n.first n.second n.configs };
}

impl<'a> Needs<'a> {
    ghost use Rattle.std.specs.Prelude.{◌≡◌, ◌∷◌, []};
    ghost use Rattle.step_views.specs.Pairs.{one_left, more_left};

    /// None.
    pub(crate) fn none() -> Needs<'a>
        ensures { result ≡ [] }
    {
        Needs {
            first: None,
            second: None,
            configs: None,
        }
    }

    /// One stretch.
    pub(crate) fn one(first: Stretch) -> Needs<'a>
        ensures { result ≡ pair_of first ∷ [] }
    {
        Needs::with_entry(first, None)
    }

    /// One stretch, and another if there is one.
    pub(crate) fn with_entry(first: Stretch, second: Option<Stretch>) -> Needs<'a>
        ensures { result ≡ pair_of first ∷ one_left second }
    {
        Needs {
            first: Some(first),
            second,
            configs: None,
        }
    }

    /// One stretch, and what is read of configurations if something is.
    pub(crate) fn with_configs(first: Stretch, configs: Option<ConfigReads<'a>>) -> Needs<'a>
        ensures { result ≡ pair_of first ∷ more_left configs.entry }
    {
        Needs {
            first: Some(first),
            second: None,
            configs,
        }
    }
}

impl<'a> Iterator for Needs<'a> {
    type Item = Stretch;

    ghost next_gives = { YieldsFirstBy pair_of (λ n. n) };

    ghost remaining = { item_count (λ n. n) };

    fn next(&mut self) -> Option<Stretch> {
        if let Some(stretch) = self.first.take() {
            return Some(stretch);
        }
        if let Some(stretch) = self.second.take() {
            return Some(stretch);
        }
        self.configs.as_mut()?.next()
    }
}
