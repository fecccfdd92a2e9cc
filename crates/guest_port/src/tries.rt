//! Writes, reads and copies of guest memory that wait for nobody.
ghost use Rattle.std.specs.Prelude.{◌≡◌, ◌∷◌, [], Err, MatchResult, IfOk};
ghost use Rattle.its_types.specs.declared.machine.Part.TheVariants as part;
ghost use Rattle.its_plain.specs.declared.call.Call.TheVariants as call;
ghost use Rattle.its_plain.specs.declared.call.Reply.TheVariants as reply;
ghost use Rattle.its_turns.specs.Calls.{TriesPart, GaveUp};
ghost use Rattle.its_turns.specs.Machines.{view, IsOf};
ghost use Rattle.guest_port.specs.Pokes.{write_of, IsWriteReply, IfMade};
ghost use Rattle.guest_port.specs.declared.pages.Unheld.TheVariants.{Full};

use crate::answers::{peek_answer, poke_answer, write_bytes};
use crate::copies::{catch_up, count};
use crate::pages::{AllPages, PageRule, Unheld, hold};
use crate::writer::Writer;
use its_plain::{Bytes64, Call, Reply};
use its_steps::ShardChange;
use its_turns::{Attempt, Machine, Pass, Value, put, try_commit, try_take_memory};
use its_types::{Addr, Gate, Part, Placed};
use std::alloc::AllocError;

/// Writes 1 to 64 bytes, where one window of memory has them all. Holds the pages that it may need
/// before it is made; where there is no memory for them it isn't made.
pub fn try_poke<G: Gate>(
    machine: &Machine,
    pass: &mut Pass,
    gate: &G,
    addr: Addr,
    bytes: &Bytes64,
) -> Result<Attempt<Reply>, AllocError>
    requires of { IsOf machine.now pass.old }
    requires free { (view pass.old).held ≡ [] }
    ensures of { IsOf machine.now pass.new }
    ensures answer { MatchResult result
        (λ a. TriesPart (view pass.old) part.Mem (call.Poke addr bytes.now) (λ r. r)
        (view pass.new) a) (λ _. GaveUp (view pass.old) (part.Mem ∷ []) (view pass.new)) }
{
    try_write(machine, pass, gate, Writer::Guest, addr, bytes)
}

/// Writes as `try_poke` does, where the rule allows the pages that it wants.
pub fn try_poke_within<G: Gate, R: PageRule>(
    machine: &Machine,
    pass: &mut Pass,
    gate: &G,
    addr: Addr,
    bytes: &Bytes64,
    rule: &R,
) -> Result<Attempt<Reply>, Unheld>
    requires of { IsOf machine.now pass.old }
    requires free { (view pass.old).held ≡ [] }
    ensures of { IsOf machine.now pass.new }
    ensures answer { MatchResult result
        (λ a. TriesPart (view pass.old) part.Mem (call.Poke addr bytes.now) (λ r. r)
        (view pass.new) a) (λ _. GaveUp (view pass.old) (part.Mem ∷ []) (view pass.new)) }
    ensures full { result ≡ Err Full → R.is_limit rule.now }
{
    try_write_within(machine, pass, gate, Writer::Guest, addr, bytes, rule)
}

/// Writes as `try_poke` does, whoever does it.
pub fn try_write<G: Gate>(
    machine: &Machine,
    pass: &mut Pass,
    gate: &G,
    writer: Writer,
    addr: Addr,
    bytes: &Bytes64,
) -> Result<Attempt<Reply>, AllocError>
    requires of { IsOf machine.now pass.old }
    requires free { (view pass.old).held ≡ [] }
    ensures of { IsOf machine.now pass.new }
    ensures answer { MatchResult result
        (λ a. TriesPart (view pass.old) part.Mem (write_of writer addr bytes.now) (λ r. r)
        (view pass.new) a) (λ _. GaveUp (view pass.old) (part.Mem ∷ []) (view pass.new)) }
    ensures reply { IfOk result (IfMade IsWriteReply) }
{
    match try_write_within(machine, pass, gate, writer, addr, bytes, &AllPages) {
        Ok(attempt) => Ok(attempt),
        Err(Unheld::NoMemory) => Err(AllocError),
        Err(Unheld::Full) => unreachable!(),
    }
}

/// Writes as `try_write` does, where the rule allows the pages that it wants.
pub fn try_write_within<G: Gate, R: PageRule>(
    machine: &Machine,
    pass: &mut Pass,
    gate: &G,
    writer: Writer,
    addr: Addr,
    bytes: &Bytes64,
    rule: &R,
) -> Result<Attempt<Reply>, Unheld>
    requires of { IsOf machine.now pass.old }
    requires free { (view pass.old).held ≡ [] }
    ensures of { IsOf machine.now pass.new }
    ensures answer { MatchResult result
        (λ a. TriesPart (view pass.old) part.Mem (write_of writer addr bytes.now) (λ r. r)
        (view pass.new) a) (λ _. GaveUp (view pass.old) (part.Mem ∷ []) (view pass.new)) }
    ensures reply { IfOk result (IfMade IsWriteReply) }
    ensures full { result ≡ Err Full → R.is_limit rule.now }
{
    let mut memory = match try_take_memory(machine, pass) {
        Ok(memory) => memory,
        Err(busy) => return Ok(Attempt::Busy(busy)),
    };
    let len = bytes.as_slice().len() as u64;
    if let Err(unheld) = hold(&mut memory, rule, addr, len) {
        put(machine, pass, Part::Mem, Value::Mem(memory));
        return Err(unheld);
    }
    let reply = poke_answer(&memory.memory, addr, bytes);
    let call = writer.call(addr, bytes);
    match try_commit(machine, pass, gate, &call, &reply, ShardChange::Keep) {
        Ok(word) => {
            write_bytes(&mut memory, addr, bytes);
            put(machine, pass, Part::Mem, Value::Mem(memory));
            Ok(Attempt::Done(Placed {
                place: word.place,
                reply,
            }))
        }
        Err(lost) => {
            put(machine, pass, Part::Mem, Value::Mem(memory));
            Ok(lost.attempt())
        }
    }
}

/// Reads `count` bytes, 1 to 64, where one window of memory has them all.
pub fn try_peek<G: Gate>(
    machine: &Machine,
    pass: &mut Pass,
    gate: &G,
    addr: Addr,
    count: u8,
) -> Attempt<Reply>
    requires of { IsOf machine.now pass.old }
    requires free { (view pass.old).held ≡ [] }
    ensures of { IsOf machine.now pass.new }
    ensures answer { TriesPart (view pass.old) part.Mem (call.Peek addr count) (λ r. r)
        (view pass.new) result }
{
    let memory = match try_take_memory(machine, pass) {
        Ok(memory) => memory,
        Err(busy) => return Attempt::Busy(busy),
    };
    let reply = peek_answer(&memory.memory, addr, count);
    let call = Call::Peek { addr, count };
    match try_commit(machine, pass, gate, &call, &reply, ShardChange::Keep) {
        Ok(word) => {
            put(machine, pass, Part::Mem, Value::Mem(memory));
            Attempt::Done(Placed {
                place: word.place,
                reply,
            })
        }
        Err(lost) => {
            put(machine, pass, Part::Mem, Value::Mem(memory));
            lost.attempt()
        }
    }
}

/// Copies the pages of memory that were written since the last copy, and answers how many they
/// were: 0 where the machine has no second memory. Takes no memory of the host.
pub fn try_copy<G: Gate>(machine: &Machine, pass: &mut Pass, gate: &G) -> Attempt<u64>
    requires of { IsOf machine.now pass.old }
    requires free { (view pass.old).held ≡ [] }
    ensures of { IsOf machine.now pass.new }
    ensures answer { TriesPart (view pass.old) part.Mem call.Copy reply.Copied (view pass.new)
        result }
{
    let mut memory = match try_take_memory(machine, pass) {
        Ok(memory) => memory,
        Err(busy) => return Attempt::Busy(busy),
    };
    let pages = count(&memory.track);
    let reply = Reply::Copied(pages);
    match try_commit(machine, pass, gate, &Call::Copy, &reply, ShardChange::Keep) {
        Ok(word) => {
            catch_up(&mut memory);
            put(machine, pass, Part::Mem, Value::Mem(memory));
            Attempt::Done(Placed {
                place: word.place,
                reply: pages,
            })
        }
        Err(lost) => {
            put(machine, pass, Part::Mem, Value::Mem(memory));
            lost.attempt()
        }
    }
}
