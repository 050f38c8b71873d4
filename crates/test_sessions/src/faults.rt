//! Runs with faults over a server in memory: connections break, and those at an end of one are killed.
//!
//! `both_ends` has a producer and a worker, and `together` has the workers of a group. Both count the faults and
//! the outcome of a run in a tally.

pub mod both_ends;
pub mod together;

use crate::make_group_settings;
use redis_wire::{Limits, ReplyStream};
use server_commands::{Client, Server};
use std::alloc::{AllocError, Global};
use std::mem;
use worker::Settings;

/// The number of bytes, steps or moments of a fault that never happens.
const NEVER: usize = usize::MAX;

/// The result of a turn of an end.
#[derive(Clone, Copy)]
enum Turn {
    Done,
    /// The connection broke.
    Cut,
    /// The end was killed.
    Killed,
}

/// The faults of an end and of its connection.
#[derive(Clone, Copy)]
struct Faults {
    /// The connection breaks after this number of bytes, in either direction.
    bytes: usize,
    /// The end is killed after this number of steps.
    steps: usize,
    /// The unsent bytes arrive this number of moments after the next connection starts.
    delay: usize,
}

/// No fault.
const CALM: Faults = Faults {
    bytes: NEVER,
    steps: NEVER,
    delay: NEVER,
};

/// Returns the faults of an end whose connection breaks after some bytes, and which is killed after some steps.
fn make_faults(bytes: usize, steps: usize) -> Faults {
    Faults {
        bytes,
        steps,
        delay: NEVER,
    }
}

/// The numbers of faults in some runs, and of these runs by their outcome.
#[derive(Clone, Copy, Default)]
struct Tally {
    runs: usize,
    /// How many times a connection broke.
    cuts: usize,
    /// How many times an end was killed.
    kills: usize,
    /// How many commits failed.
    failed: usize,
    /// How many times late bytes arrived.
    late_arrivals: usize,
    /// How many times they added records.
    late_records: usize,
    /// The number of runs with exactly one cut or kill.
    broken_once: usize,
    /// The number of runs that settled.
    settled: usize,
    /// The number of runs in which a worker that is gone left entries pending.
    left: usize,
    /// The number of runs whose file does not have the lines of all records, in order, and nothing else.
    differ: usize,
    /// The number of runs whose file has a line twice.
    twice: usize,
    /// The number of runs whose file lacks the line of a record.
    missing: usize,
    /// The number of runs whose file has a line of no record.
    foreign: usize,
}

/// Adds `more` to `number`, up to the largest number.
fn add_to(number: &mut usize, more: usize) {
    *number = number.saturating_add(more);
}

impl Tally {
    /// Adds the numbers of other runs.
    fn add(&mut self, more: Tally) {
        add_to(&mut self.runs, more.runs);
        add_to(&mut self.cuts, more.cuts);
        add_to(&mut self.kills, more.kills);
        add_to(&mut self.failed, more.failed);
        add_to(&mut self.late_arrivals, more.late_arrivals);
        add_to(&mut self.late_records, more.late_records);
        add_to(&mut self.broken_once, more.broken_once);
        add_to(&mut self.settled, more.settled);
        add_to(&mut self.left, more.left);
        add_to(&mut self.differ, more.differ);
        add_to(&mut self.twice, more.twice);
        add_to(&mut self.missing, more.missing);
        add_to(&mut self.foreign, more.foreign);
    }

    /// Returns how many times a connection broke or an end was killed.
    fn count_breaks(&self) -> usize {
        self.cuts.saturating_add(self.kills)
    }
}

/// A server in memory, its clock, and the tally of the run over it.
#[derive(Drop)]
struct World {
    alloc: Global,
    server: Server,
    now: u64,
    tally: Tally,
    /// Whether an end refused a reply, sent too long a command, or got an entry that was not added.
    is_refused: bool,
}

impl World {
    /// Returns a new server, and the tally of no run.
    fn new(alloc: Global) -> World {
        World {
            alloc,
            server: Server::new(alloc),
            now: 0,
            tally: Tally::default(),
            is_refused: false,
        }
    }

    /// Executes a command over a connection of its own, and returns the bytes of the reply.
    fn ask_server(&mut self, command: &str) -> Result<Vec<u8>, AllocError> {
        let mut client = Client::new(self.alloc);
        let mut reply = Vec::new(self.alloc);
        client.answer(
            self.alloc,
            &mut self.server,
            0,
            command.as_bytes(),
            &mut reply,
        )?;
        Ok(reply)
    }

    /// Returns whether nothing is pending in the group.
    fn is_nothing_pending(&mut self) -> Result<bool, AllocError> {
        let reply = self.ask_server("XPENDING k g\r\n")?;
        Ok(reply.starts_with(b"*4\r\n:0\r\n"))
    }

    /// Returns the server's side of a new connection, over RESP3 or RESP2.
    fn make_client(&mut self, is_resp3: bool) -> Result<Client, AllocError> {
        let mut client = Client::new(self.alloc);
        if is_resp3 {
            let mut reply = Vec::new(self.alloc);
            client.answer(self.alloc, &mut self.server, 0, b"HELLO 3\r\n", &mut reply)?;
        }
        Ok(client)
    }

    /// Counts a fault.
    fn count_fault(&mut self, turn: Turn) {
        match turn {
            Turn::Done => {}
            Turn::Cut => add_to(&mut self.tally.cuts, 1),
            Turn::Killed => add_to(&mut self.tally.kills, 1),
        }
    }
}

/// Bytes of a broken connection that are still to arrive at the server.
#[derive(Drop)]
struct Late {
    client: Client,
    bytes: Vec<u8>,
    /// The number of moments until they arrive.
    moments: usize,
}

/// The connection of an end to the server. It breaks after a number of bytes, and the unsent ones may arrive later.
#[derive(Drop)]
struct Link {
    is_resp3: bool,
    client: Client,
    /// Bytes of replies that the end received.
    replies: ReplyStream,
    /// The bytes that were not sent before the connection broke.
    unsent: Vec<u8>,
    late: Option<Late>,
    faults: Faults,
}

impl Link {
    /// Returns a connection without a fault.
    fn new(world: &mut World, is_resp3: bool) -> Result<Link, AllocError> {
        let client = world.make_client(is_resp3)?;
        Ok(Link {
            is_resp3,
            client,
            replies: ReplyStream::new(world.alloc, Limits::default()),
            unsent: Vec::new(world.alloc),
            late: None,
            faults: CALM,
        })
    }

    /// Replaces this connection with one without a fault. Unsent bytes of this one may arrive later.
    fn connect_again(&mut self, world: &mut World) -> Result<(), AllocError> {
        let next = world.make_client(self.is_resp3)?;
        let client = mem::replace(&mut self.client, next);
        let bytes = mem::replace(&mut self.unsent, Vec::new(world.alloc));
        let moments = self.faults.delay;
        if moments < NEVER && !bytes.is_empty() {
            self.late = Some(Late {
                client,
                bytes,
                moments,
            });
        }
        self.replies = ReplyStream::new(world.alloc, Limits::default());
        self.faults = CALM;
        Ok(())
    }

    /// Returns whether the connection has no fault.
    fn is_calm(&self) -> bool {
        self.faults.bytes == NEVER && self.faults.steps == NEVER
    }

    /// Advances by one moment, at each turn of the end and in the middle of each request. Late bytes may arrive now,
    /// and the replies to them are dropped.
    fn pass_moment(&mut self, world: &mut World) -> Result<(), AllocError> {
        let Some(mut late) = self.late.take() else {
            return Ok(());
        };
        if late.moments > 0 {
            late.moments -= 1;
            self.late = Some(late);
            return Ok(());
        }
        add_to(&mut world.tally.late_arrivals, 1);
        let before = world.ask_server("XLEN k\r\n")?;
        let mut replies = Vec::new(world.alloc);
        late.client.answer(
            world.alloc,
            &mut world.server,
            world.now,
            &late.bytes,
            &mut replies,
        )?;
        if world.ask_server("XLEN k\r\n")? != before {
            add_to(&mut world.tally.late_records, 1);
        }
        Ok(())
    }

    /// Takes one step. Returns `false` if the end is killed before it.
    fn take_step(&mut self) -> bool {
        if self.faults.steps == 0 {
            return false;
        }
        self.faults.steps -= 1;
        true
    }

    /// Splits bytes where the connection breaks.
    fn split_at_break<'a>(&mut self, bytes: &'a [u8]) -> (&'a [u8], &'a [u8]) {
        let len = bytes.len().min(self.faults.bytes);
        self.faults.bytes -= len;
        bytes.split_at(len)
    }

    /// Sends bytes in two pieces, with a moment between them. Returns the replies, or `None` if the connection broke.
    fn send_bytes(
        &mut self,
        world: &mut World,
        bytes: &[u8],
    ) -> Result<Option<Vec<u8>>, AllocError> {
        let (sent, unsent) = self.split_at_break(bytes);
        let (first, second) = sent.split_at(sent.len() / 2);
        let mut replies = Vec::new(world.alloc);
        self.client.answer(
            world.alloc,
            &mut world.server,
            world.now,
            first,
            &mut replies,
        )?;
        self.pass_moment(world)?;
        self.client.answer(
            world.alloc,
            &mut world.server,
            world.now,
            second,
            &mut replies,
        )?;
        if unsent.is_empty() {
            return Ok(Some(replies));
        }
        self.unsent.extend_from_slice(unsent)?;
        Ok(None)
    }

    /// Delivers replies to the end, unless it is killed before.
    fn deliver_replies(&mut self, replies: &[u8]) -> Result<Turn, AllocError> {
        if !self.take_step() {
            return Ok(Turn::Killed);
        }
        let (received, lost) = self.split_at_break(replies);
        if self.replies.feed(received).is_err() {
            return Err(AllocError);
        }
        Ok(if lost.is_empty() {
            Turn::Done
        } else {
            Turn::Cut
        })
    }

    /// Sends bytes, and delivers the replies.
    fn exchange(&mut self, world: &mut World, bytes: &[u8]) -> Result<Turn, AllocError> {
        match self.send_bytes(world, bytes)? {
            Some(replies) => self.deliver_replies(&replies),
            None => Ok(Turn::Cut),
        }
    }
}

/// Returns the settings of a worker of the stream `k` that creates the group. After every two reads of new entries
/// it claims those that were idle for `idle` milliseconds.
fn make_claim_settings(
    alloc: Global,
    consumer: &str,
    count: usize,
    idle: usize,
) -> Result<Settings, AllocError> {
    let mut settings = make_group_settings(alloc, "k", consumer)?;
    settings.set_count(count).unwrap_or(());
    settings.set_every(2);
    settings.set_min_idle(idle);
    Ok(settings)
}

/// Returns the next number of a pseudo-random sequence.
fn draw_next(state: u64) -> u64 {
    state
        .wrapping_mul(6_364_136_223_846_793_005)
        .wrapping_add(1_442_695_040_888_963_407)
}

/// Returns a number below `limit`, from the bits of `state` that are not below `bit`.
fn draw_number(state: u64, bit: u32, limit: u64) -> usize {
    let bits = if bit < 64 { state >> bit } else { 0 };
    if limit == 0 {
        return 0;
    }
    usize::try_from(bits % limit).unwrap_or(0)
}
