//! The pages of guest memory as a plain list.
ghost use Rattle.std.specs.Prelude.{◌≡◌, true, false, map, IfOk};
ghost use Rattle.std.specs.List.{list_all};
ghost use Rattle.guest_windows.specs.Fields.{pairs};
ghost use Rattle.guest_windows.specs.Windows.{in_range};
ghost use Rattle.dirty_log.specs.Pages as spec;

use dirty_log::Page;
use its_types::Addr;
use std::alloc::{AllocError, Global};

// How many bytes a page has.
const PAGE: u64 = 4096;

/// All pages of windows, each of them dirty. Each number below the last one's is tried.
#[tactic(auto, unfolding(dirty_log::specs::Pages::pages_of))]
pub fn all_dirty(alloc: Global, windows: &[(Addr, u64)]) -> Result<Vec<Page>, AllocError>
    requires { list_all in_range (pairs windows.now) ≡ true }
    ensures { IfOk result (λ v. v.items ≡ spec.all_pages true (pairs windows.now)) }
{
    let mut pages = Vec::new(alloc);
    for number in 0..pages_end(windows) {
        if is_there(windows, number) {
            pages.push(Page {
                number,
                dirty: true,
            })?;
        }
    }
    Ok(pages)
}

// No window has a byte in this page or in a later one.
fn pages_end(windows: &[(Addr, u64)]) -> u64
    requires { list_all in_range (pairs windows.now) ≡ true }
    ensures { result ≡ spec.pages_end (pairs windows.now) }
{
    match windows {
        [] => 0,
        [first, rest @ ..] => ((first.0.0 + first.1) / PAGE + 1).max(pages_end(rest)),
    }
}

// Whether a page has a byte in one of the windows.
fn is_there(windows: &[(Addr, u64)], number: u64) -> bool
    ensures { result ≡ spec.is_there (pairs windows.now) number }
{
    let mut rest = windows;
    while let [window, others @ ..] = rest {
        if meets(window.0.0, window.1, number) {
            return true;
        }
        rest = others;
    }
    false
}

// Whether it has one of so many bytes.
fn meets(addr: u64, len: u64, number: u64) -> bool
    ensures { result ≡ spec.meets addr len number }
{
    let end = u128::from(addr) + u128::from(len);
    0 < len && addr / PAGE <= number && u128::from(PAGE) * u128::from(number) < end
}

/// The pages of these bytes are dirty.
pub fn mark(pages: &mut [Page], addr: u64, len: u64)
    ensures { pages.new ≡ spec.marked addr len pages.old }
{
    for at in 0..pages.len() {
        pages[at] = mark_one(pages[at], addr, len);
    }
}

fn mark_one(page: Page, addr: u64, len: u64) -> Page
    ensures { result ≡ spec.mark_one addr len page }
{
    Page {
        number: page.number,
        dirty: page.dirty || meets(addr, len, page.number),
    }
}

/// No page is dirty.
pub fn clear(pages: &mut [Page])
    ensures { pages.new ≡ spec.set_all false pages.old }
{
    for at in 0..pages.len() {
        pages[at] = clean(pages[at]);
    }
}

fn clean(page: Page) -> Page
    ensures { result ≡ spec.set_one false page }
{
    Page {
        number: page.number,
        dirty: false,
    }
}

/// How many pages are dirty.
pub fn count(pages: &[Page]) -> u64
    ensures { result ≡ spec.dirty_count pages.now }
{
    pages.iter().filter(|page| page.dirty).count() as u64
}
