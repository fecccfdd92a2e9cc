//! Answers as numbers.
ghost use Rattle.std.specs.Prelude.{◌≡◌, length};
ghost use Rattle.device_port.specs.Dmas as dmas;
ghost use Rattle.its_numbers.specs.Replies.{signal_out, ack_out};
ghost use Rattle.its_shared.specs.Answers.{HasCount, IsLong};
ghost use Rattle.its_shared.specs.Telling as spec;

use crate::answer::Answer;
use device_port::Dma;
use its_numbers::{
    AckOut, BUSY, DONE, DmaOut, FAULT, FULL, NO_MEMORY, OUTSIDE, SPENT, SaveFaultOut, SignalOut,
    ack_out, dma_out, save_fault_out, signal_out,
};
use its_plain::{Ack, Reply, Route, SaveFault, Signal};

/// A message's.
pub fn tell_signal(answer: Answer<Signal>, place: &mut u64, out: &mut SignalOut) -> u32
    ensures code { result ≡ spec.code_of spec.is_done answer }
    ensures place { place.new ≡ spec.place_after answer place.old }
    ensures out { out.new ≡ spec.out_after (spec.as_told signal_out) answer out.old }
{
    match answer {
        Answer::Made(placed) => {
            *place = placed.place;
            *out = signal_out(placed.reply);
            DONE
        }
        Answer::Busy => BUSY,
        Answer::Spent => SPENT,
        Answer::NoMemory => NO_MEMORY,
        Answer::Full => FULL,
    }
}

/// A write by address's, which was this by the description.
pub fn tell_dma(answer: Answer<Dma>, route: Route, place: &mut u64, out: &mut DmaOut) -> u32
    ensures code { result ≡ spec.code_of spec.is_done answer }
    ensures place { place.new ≡ spec.place_after answer place.old }
    ensures out { out.new ≡ spec.out_after (spec.as_told (spec.dma_told route)) answer out.old }
{
    match answer {
        Answer::Made(placed) => {
            *place = placed.place;
            *out = dma_out(route, reply_of(placed.reply));
            DONE
        }
        Answer::Busy => BUSY,
        Answer::Spent => SPENT,
        Answer::NoMemory => NO_MEMORY,
        Answer::Full => FULL,
    }
}

// As the history has it.
fn reply_of(answer: Dma) -> Reply
    ensures { result ≡ dmas.reply_of answer }
{
    match answer {
        Dma::Signal(signal) => Reply::Signal(signal),
        Dma::NoRequester => Reply::NoRequester,
        Dma::Ok => Reply::Ok,
        Dma::Outside => Reply::Outside,
    }
}

/// An acknowledgement's.
pub fn tell_ack(answer: Answer<Ack>, place: &mut u64, out: &mut AckOut) -> u32
    ensures code { result ≡ spec.code_of spec.is_done answer }
    ensures place { place.new ≡ spec.place_after answer place.old }
    ensures out { out.new ≡ spec.out_after (spec.as_told ack_out) answer out.old }
{
    match answer {
        Answer::Made(placed) => {
            *place = placed.place;
            *out = ack_out(placed.reply);
            DONE
        }
        Answer::Busy => BUSY,
        Answer::Spent => SPENT,
        Answer::NoMemory => NO_MEMORY,
        Answer::Full => FULL,
    }
}

/// A read of a register's.
pub fn tell_value(answer: Answer<u64>, place: &mut u64, out: &mut u64) -> u32
    ensures code { result ≡ spec.code_of spec.is_done answer }
    ensures place { place.new ≡ spec.place_after answer place.old }
    ensures out { out.new ≡ spec.out_after spec.value_told answer out.old }
{
    match answer {
        Answer::Made(placed) => {
            *place = placed.place;
            *out = placed.reply;
            DONE
        }
        Answer::Busy => BUSY,
        Answer::Spent => SPENT,
        Answer::NoMemory => NO_MEMORY,
        Answer::Full => FULL,
    }
}

/// A write of a register's.
pub fn tell_unit(answer: Answer<()>, place: &mut u64) -> u32
    ensures code { result ≡ spec.code_of spec.is_done answer }
    ensures place { place.new ≡ spec.place_after answer place.old }
{
    match answer {
        Answer::Made(placed) => {
            *place = placed.place;
            DONE
        }
        Answer::Busy => BUSY,
        Answer::Spent => SPENT,
        Answer::NoMemory => NO_MEMORY,
        Answer::Full => FULL,
    }
}

/// A write of guest memory's.
pub fn tell_write(answer: Answer<Reply>, place: &mut u64) -> u32
    ensures code { result ≡ spec.code_of spec.write_code answer }
    ensures place { place.new ≡ spec.place_after answer place.old }
{
    match answer {
        Answer::Made(placed) => {
            *place = placed.place;
            written(placed.reply)
        }
        Answer::Busy => BUSY,
        Answer::Spent => SPENT,
        Answer::NoMemory => NO_MEMORY,
        Answer::Full => FULL,
    }
}

/// A read of guest memory's.
pub fn tell_bytes(answer: Answer<Reply>, place: &mut u64, buffer: &mut [u8]) -> u32
    requires { HasCount (length buffer.old) answer }
    ensures code { result ≡ spec.code_of spec.read_code answer }
    ensures place { place.new ≡ spec.place_after answer place.old }
    ensures out { buffer.new ≡ spec.out_after spec.bytes_told answer buffer.old }
{
    match answer {
        Answer::Made(placed) => {
            *place = placed.place;
            tell_read(placed.reply, buffer)
        }
        Answer::Busy => BUSY,
        Answer::Spent => SPENT,
        Answer::NoMemory => NO_MEMORY,
        Answer::Full => FULL,
    }
}

fn tell_read(reply: Reply, buffer: &mut [u8]) -> u32
    requires { IsLong (length buffer.old) reply }
    ensures code { result ≡ spec.read_code reply }
    ensures out { buffer.new ≡ spec.bytes_told reply buffer.old }
{
    match reply {
        Reply::Bytes(bytes) => {
            buffer.copy_from_slice(bytes.as_slice());
            DONE
        }
        _ => OUTSIDE,
    }
}

/// A save's.
pub fn tell_save(
    answer: Answer<Result<(), SaveFault>>,
    place: &mut u64,
    out: &mut SaveFaultOut,
) -> u32
    ensures code { result ≡ spec.code_of spec.save_code answer }
    ensures place { place.new ≡ spec.place_after answer place.old }
    ensures out { out.new ≡ spec.out_after spec.save_told answer out.old }
{
    match answer {
        Answer::Made(placed) => {
            *place = placed.place;
            tell_fault(placed.reply, out)
        }
        Answer::Busy => BUSY,
        Answer::Spent => SPENT,
        Answer::NoMemory => NO_MEMORY,
        Answer::Full => FULL,
    }
}

fn written(reply: Reply) -> u32
    ensures { result ≡ spec.write_code reply }
{
    match reply {
        Reply::Ok => DONE,
        _ => OUTSIDE,
    }
}

fn tell_fault(saved: Result<(), SaveFault>, out: &mut SaveFaultOut) -> u32
    ensures code { result ≡ spec.save_code saved }
    ensures out { out.new ≡ spec.save_told saved out.old }
{
    match saved {
        Ok(()) => DONE,
        Err(fault) => {
            *out = save_fault_out(fault);
            FAULT
        }
    }
}
