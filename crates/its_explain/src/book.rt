//! Which line's command last changed what the machine answers, and which line wrote a command.
ghost use Rattle.std.specs.Prelude.{ℕ, ◌≡◌, ◌&&◌, ◌==◌, if◌then◌else◌, Some, None, IfOk, OnOk};
ghost use Rattle.its_explain.specs.Book as spec;
ghost use Rattle.call_facts.specs.declared.answers.Key as asked;

use call_facts::Key;
use event_script::Script;
use its_plain::{Call, Fill, Reply};
use its_types::Addr;
use std::alloc::{AllocError, Global};
use std::collections::BTreeMap;

/// What the maps of a translator are asked.
#[derive(Clone, Copy, PartialEq, Eq, PartialOrd, Ord)]
struct Asked {
    its: u8,
    key: Key,
}

/// By what is asked of the maps the line whose command last changed the answer, and by each 32
/// bytes of guest memory the line that wrote there last.
#[derive(Drop)]
pub struct Book {
    changers: BTreeMap<Asked, u64>,
    writers: BTreeMap<u64, u64>,
}

impl Book {
    /// No line has changed anything, and the lines of a description wrote their bytes.
    pub fn of_script(alloc: Global, script: &Script) -> Result<Book, AllocError>
        ensures changers { IfOk result (λ b. (i : ℕ) (k : asked.Key)
            → spec.changer b i k ≡ None) }
        ensures writers { IfOk result (λ b. (a : ℕ) → spec.writer b a
            ≡ spec.line_of script.now.desc.fills script.now.fill_lines a) }
    {
        Book::of_fills(
            alloc,
            script.desc.fills.as_slice(),
            script.fill_lines.as_slice(),
        )
    }

    fn of_fills(alloc: Global, fills: &[Fill], lines: &[u64]) -> Result<Book, AllocError>
        ensures changers { IfOk result (λ b. (i : ℕ) (k : asked.Key) → spec.changer b i k ≡ None) }
        ensures writers { IfOk result (λ b. (a : ℕ) → spec.writer b a
            ≡ spec.line_of fills.now lines.now a) }
    {
        let mut book = Book {
            changers: BTreeMap::new(alloc),
            writers: BTreeMap::new(alloc),
        };
        for (fill, line) in fills.iter().zip(lines) {
            book.wrote(fill.addr.0, fill.bytes.len() as u64, *line)?;
        }
        Ok(book)
    }

    /// The line that last wrote the command at an address.
    pub fn writer(&self, addr: u64) -> Option<u64>
        ensures { result ≡ spec.writer self.now addr }
    {
        self.writers.get(&(addr / 32)).copied()
    }

    /// The line whose command last changed an answer.
    pub fn changer(&self, its: u8, key: Key) -> Option<u64>
        ensures { result ≡ spec.changer self.now its key }
    {
        let asked = Asked { its, key };
        self.changers.get(&asked).copied()
    }

    /// A line wrote so many bytes of guest memory.
    fn wrote(&mut self, addr: u64, count: u64, line: u64) -> Result<(), AllocError>
        ensures changers { OnOk result ((i : ℕ) (k : asked.Key)
            → spec.changer self.new i k ≡ spec.changer self.old i k) }
        ensures writers { OnOk result ((a : ℕ) → spec.writer self.new a
            ≡ (if spec.meets addr count a then Some line else spec.writer self.old a)) }
    {
        let last = addr.saturating_add(count.saturating_sub(1)) / 32;
        for slot in addr / 32..last.saturating_add(1) {
            self.writers.insert(slot, line)?;
        }
        Ok(())
    }

    /// A call of a line changed these answers: by its own line, and a step by that which wrote the
    /// command that it took, if one did.
    pub fn changed_by(
        &mut self,
        its: u8,
        keys: &[Key],
        command: Option<Addr>,
        line: u64,
    ) -> Result<(), AllocError>
        ensures changers { OnOk result ((i : ℕ) (k : asked.Key) → spec.changer self.new i k
            ≡ (if spec.is_among its keys.now i k then Some (spec.line_by self.old command line)
            else spec.changer self.old i k)) }
        ensures writers { OnOk result ((a : ℕ) → spec.writer self.new a ≡ spec.writer self.old a) }
    {
        let line = self.line_by(command, line);
        self.changed(its, keys, line)
    }

    fn line_by(&self, command: Option<Addr>, line: u64) -> u64
        ensures { result ≡ spec.line_by self.now command line }
    {
        match command {
            Some(addr) => self.writer(addr.0).unwrap_or(line),
            None => line,
        }
    }

    /// A call of a line was answered so, which may have written guest memory.
    pub fn wrote_by(&mut self, call: &Call, reply: &Reply, line: u64) -> Result<(), AllocError>
        ensures changers { OnOk result ((i : ℕ) (k : asked.Key)
            → spec.changer self.new i k ≡ spec.changer self.old i k) }
        ensures writers { OnOk result ((a : ℕ) → spec.writer self.new a
            ≡ (if spec.writes call.now reply.now a then Some line else spec.writer self.old a)) }
    {
        match (call, reply) {
            (Call::Poke { addr, bytes } | Call::Dma { addr, bytes, .. }, Reply::Ok) => {
                self.wrote(addr.0, bytes.as_slice().len() as u64, line)
            }
            _ => Ok(()),
        }
    }

    /// A line's command changed these answers.
    fn changed(&mut self, its: u8, keys: &[Key], line: u64) -> Result<(), AllocError>
        ensures changers { OnOk result ((i : ℕ) (k : asked.Key) → spec.changer self.new i k
            ≡ (if spec.is_among its keys.now i k then Some line else spec.changer self.old i k)) }
        ensures writers { OnOk result ((a : ℕ) → spec.writer self.new a ≡ spec.writer self.old a) }
    {
        for key in keys {
            self.change(its, *key, line)?;
        }
        Ok(())
    }

    fn change(&mut self, its: u8, key: Key, line: u64) -> Result<(), AllocError>
        ensures changers { OnOk result ((i : ℕ) (k : asked.Key) → spec.changer self.new i k
            ≡ (if its == i && spec.is_key key k then Some line else spec.changer self.old i k)) }
        ensures writers { OnOk result ((a : ℕ) → spec.writer self.new a ≡ spec.writer self.old a) }
    {
        let asked = Asked { its, key };
        self.changers.insert(asked, line)?;
        Ok(())
    }
}
