//! A page that is made before it is needed.

ghost use Rattle.std.specs.Prelude.{◌≡◌, true, false, OnOk, OnErr};
ghost use Rattle.its_maps.specs.Pages.{IsBlank};

use crate::page::Page;
use std::alloc::{AllocError, Global};
use std::marker::Model;

/// A page with no value, or none. Seen as whether there is one.
#[derive(Drop)]
pub struct Reserve<V> {
    page: Option<Page<V>>,
}

impl<V> Model for Reserve<V> {
    ghost use Rattle.std.specs.Prelude.{Bool, IfSome, is_some};
    ghost use Rattle.its_maps.specs.Pages.{IsBlank};

    ghost Value = { Bool };

    ghost view = { λ r. is_some r.page };

    ghost invariant = { λ r. IfSome r.page IsBlank };
}

impl<V: Drop> Reserve<V> {
    /// No page.
    pub fn empty() -> Self
        ensures { result ≡ false }
    {
        Reserve { page: None }
    }

    /// Puts a page in, if there is none.
    pub fn fill(&mut self, alloc: Global) -> Result<(), AllocError>
        ensures ok { OnOk result (self.new ≡ true) }
        ensures err { OnErr result (self.new ≡ self.old) }
        ensures lacking { OnErr result (self.old ≡ false) }
    {
        if self.page.is_none() {
            let page = Page::blank(alloc)?;
            self.page = Some(page);
        }
        Ok(())
    }

    /// Takes the page that is there.
    pub fn take(&mut self) -> Page<V>
        requires { self.old ≡ true }
        ensures { IsBlank result }
    {
        self.page.take().unwrap()
    }
}
