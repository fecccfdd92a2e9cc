//! Shards of the cache, as lists of ways.
ghost use Rattle.std.specs.Prelude.{◌≡◌, OnOk, IfOk};
ghost use Rattle.its_player.specs.Contents.{content_of};
ghost use Rattle.its_player.specs.Shared.{looked_as, cache_as};
ghost use Rattle.its_steps.specs.World as world;

use crate::content::Content;
use crate::held::Held;
use its_types::{Listed, Part, Word};
use std::alloc::{AllocError, Global};

/// A shard and its ways.
#[derive(Drop)]
pub struct Looked {
    pub its: u8,
    pub number: u32,
    pub ways: Listed<Option<xlate_cache::Entry>>,
}

/// What a pass knows of the cache: the shard that it held last, and both that and the word read
/// last as they were when it last got some maps.
#[derive(Drop)]
pub struct Cache {
    pub looked: Looked,
    pub early: Looked,
    pub early_word: Word,
}

impl Looked {
    /// No shard.
    pub fn none(alloc: Global) -> Looked
        ensures { looked_as result ≡ world.no_look }
    {
        Looked {
            its: 0,
            number: 0,
            ways: Listed::new(alloc),
        }
    }

    /// An equal value.
    pub fn copy(&self, alloc: Global) -> Result<Looked, AllocError>
        ensures { IfOk result (λ l. l ≡ self.now) }
    {
        let ways = Vec::from_slice(alloc, self.ways.as_slice())?;
        Ok(Looked {
            its: self.its,
            number: self.number,
            ways: Listed::from_vec(ways),
        })
    }

    /// Looks at the shard again, if it is held.
    pub fn look_again(&mut self, alloc: Global, held: &[Held]) -> Result<(), AllocError>
        ensures { OnOk result (looked_as self.new ≡ world.looked_in held.now (looked_as self.old)) }
    {
        for x in held {
            if self.is_at(x.part()) {
                return self.look(alloc, x.part(), x.owed());
            }
        }
        Ok(())
    }

    // Whether the part is the shard.
    fn is_at(&self, part: Part) -> bool
        ensures { result ≡ world.is_looked (looked_as self.now) part }
    {
        match part {
            Part::Shard(its, number) => its == self.its && number == self.number,
            _ => false,
        }
    }

    // Looks at the part, if that is a shard.
    fn look(&mut self, alloc: Global, part: Part, content: &Content) -> Result<(), AllocError>
        ensures { OnOk result (looked_as self.new
            ≡ world.looked_of part (content_of content.now) (looked_as self.old)) }
    {
        if let Part::Shard(its, number) = part {
            if let Content::Shard(shard) = content {
                let ways = Vec::from_slice(alloc, shard.ways())?;
                *self = Looked {
                    its,
                    number,
                    ways: Listed::from_vec(ways),
                };
            }
        }
        Ok(())
    }
}

impl Cache {
    /// The pass gets a part that contains this.
    pub fn get(
        &mut self,
        alloc: Global,
        part: Part,
        content: &Content,
        last: Word,
    ) -> Result<(), AllocError>
        ensures { OnOk result (cache_as self.new
            ≡ world.cache_got part (content_of content.now) last (cache_as self.old)) }
    {
        if let Part::Maps(_) = part {
            self.early = self.looked.copy(alloc)?;
            self.early_word = last;
            return Ok(());
        }
        self.looked.look(alloc, part, content)
    }
}
