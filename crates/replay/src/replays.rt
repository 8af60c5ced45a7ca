// A list of calls, sent one by one to a receiver that is opened for it.
ghost use Rattle.std.specs.Prelude.{◌≡◌, ◌+◌, ◌<◌, ◌≤◌, length, map, take, IfOk, IfErr, OnOk, vec_len, vec_capacity};
ghost use Rattle.calls.specs.Plain.{call_of, reply_of};
ghost use Rattle.receiver.specs.Receivers.{world};
ghost use Rattle.replay.specs.Ends.{Replays, Runs};

use crate::ended::Ended;
use crate::steps::{ask, run_one};
use calls::{Call, Reply};
use display::Display;
use receiver::phases::{Running, Unset};
use receiver::receivers::Receiver;
use std::alloc::{AllocError, Global};

// The replies in order, and the receiver at the end.
#[derive(Drop)]
pub struct Replayed<D> {
    pub replies: Vec<Reply>,
    pub receiver: Ended<D>,
}

// What was replayed before memory was wanting: the replies to the first calls, and the receiver as these left it.
#[derive(Drop)]
pub struct Interrupted<D> {
    pub replayed: Replayed<D>,
    pub error: AllocError,
}

// The error alone, for a caller that has no use for the rest.
impl<D: Drop> From<Interrupted<D>> for AllocError {
    ghost from_gives = { λ interrupted error. error ≡ interrupted.error };

    fn from(interrupted: Interrupted<D>) -> AllocError {
        interrupted.error
    }
}

// Sends the calls to a running receiver, and puts the replies behind those that are there; there is room for all of them.
// Where memory is wanting for a reply it goes no further, and that call changed nothing.
fn run_on<D: Display>(
    heap: Global,
    mut receiver: Receiver<D, Running>,
    memory: &mut [u8],
    calls: &[Call<'_>],
    mut replies: Vec<Reply>,
) -> (Replayed<D>, Result<(), AllocError>)
    requires runs { 0 < receiver.parts.clock }
    requires room { vec_len replies + length calls.now ≤ vec_capacity replies }
    ensures { Runs D.Display.meaning D.Display.told (world D.Display.meaning receiver memory.old) receiver.display calls.now (map reply_of replies.items) result.0 result.1 memory.new }
{
    for call in calls {
        match run_one(heap, &mut receiver, memory, call) {
            Ok(reply) => replies.push(reply).unwrap(),
            Err(error) => {
                let receiver = Ended::NowRunning(receiver);
                return (Replayed { replies, receiver }, Err(error));
            }
        }
    }
    let receiver = Ended::NowRunning(receiver);
    (Replayed { replies, receiver }, Ok(()))
}

// The same of a receiver that was not set: from the first accepted setting on it runs. The rest of the calls is cut off by
// index, since the checker does not cover a loop that splits the first call off a slice and moves the receiver.
fn run_unset<D: Display>(
    heap: Global,
    mut receiver: Receiver<D, Unset>,
    memory: &mut [u8],
    calls: &[Call<'_>],
    mut replies: Vec<Reply>,
) -> (Replayed<D>, Result<(), AllocError>)
    requires unset { receiver.parts.clock ≡ 0 }
    requires room { vec_len replies + length calls.now ≤ vec_capacity replies }
    ensures { Runs D.Display.meaning D.Display.told (world D.Display.meaning receiver memory.old) receiver.display calls.now (map reply_of replies.items) result.0 result.1 memory.new }
{
    for (i, call) in calls.iter().enumerate() {
        match call {
            Call::Time { bytes } => match receiver.set(memory, bytes) {
                Ok(started) => {
                    replies.push(Reply::Counted(Ok(started.shows))).unwrap();
                    return run_on(heap, started.receiver, memory, &calls[i + 1..], replies);
                }
                Err(unmoved) => {
                    replies.push(Reply::Counted(Err(unmoved.fault))).unwrap();
                    receiver = unmoved.receiver;
                }
            },
            _ => match ask(heap, &mut receiver, memory, call) {
                Ok(reply) => replies.push(reply).unwrap(),
                Err(error) => {
                    let receiver = Ended::StillUnset(receiver);
                    return (Replayed { replies, receiver }, Err(error));
                }
            },
        }
    }
    let receiver = Ended::StillUnset(receiver);
    (Replayed { replies, receiver }, Ok(()))
}

// Opens a receiver and sends it the calls, up to where memory is wanting.
fn run<D: Display>(
    heap: Global,
    display: D,
    slot_size: u32,
    memory: &mut [u8],
    calls: &[Call<'_>],
) -> (Replayed<D>, Result<(), AllocError>)
    ensures all { OnOk result.1 (Replays D.Display.meaning D.Display.told display slot_size memory.old (map call_of calls.now) result.0 memory.new) }
    ensures first { Replays D.Display.meaning D.Display.told display slot_size memory.old (take (vec_len result.0.replies) (map call_of calls.now)) result.0 memory.new }
{
    let receiver = Receiver::open(display, slot_size);
    let mut replies = Vec::new(heap);
    match replies.reserve(calls.len()) {
        Ok(()) => run_unset(heap, receiver, memory, calls, replies),
        Err(error) => {
            let receiver = Ended::StillUnset(receiver);
            (Replayed { replies, receiver }, Err(error))
        }
    }
}

// Opens a receiver over a display, with slots of at most that size, and sends it the calls in order: a time field sets the
// clock until one is accepted, and is a reading after that. Where memory is wanting for a reply, that call and those behind
// it are not made, and what was replayed before is handed back.
pub fn replay<D: Display>(
    heap: Global,
    display: D,
    slot_size: u32,
    memory: &mut [u8],
    calls: &[Call<'_>],
) -> Result<Replayed<D>, Interrupted<D>>
    ensures replays { IfOk result (λ x. Replays D.Display.meaning D.Display.told display slot_size memory.old (map call_of calls.now) x memory.new) }
    ensures interrupted { IfErr result (λ e. Replays D.Display.meaning D.Display.told display slot_size memory.old (take (vec_len e.replayed.replies) (map call_of calls.now)) e.replayed memory.new) }
{
    let (replayed, ran) = run(heap, display, slot_size, memory, calls);
    match ran {
        Ok(()) => Ok(replayed),
        Err(error) => Err(Interrupted { replayed, error }),
    }
}
