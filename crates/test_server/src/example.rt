//! An example of a worker, tested without a server or a connection: to copy from.
mod loopback;

use crate::check_same;
use redis_wire::{Decoded, Limits, Reply, command_words, decode};
use server_commands::{Protocol, Server, Session, append_reply};
use std::alloc::{AllocError, Global};
use std::test::Fail;
use worker::{
    EntryRef, Handler, MakeGroup, NotCommitted, Settings, SettingsError, Verdict, Worker,
};

/// Counts the entries that it handles.
#[derive(Drop)]
struct Count {
    done: usize,
}

impl Handler for Count {
    ghost History = { Unit {0} };

    ghost with_verdict = { λ history e verdict. history };

    ghost with_commit = { λ history. history };

    ghost history = { λ handler. tt };

    fn handle(&mut self, _alloc: Global, _entry: &EntryRef<'_>) -> Verdict {
        self.done = self.done.saturating_add(1);
        Verdict::Done
    }

    fn commit(&mut self, _alloc: Global) -> Result<(), NotCommitted> {
        Ok(())
    }
}

/// Returns a new worker. It makes its group, which begins with the first entry.
fn worker_of(alloc: Global, consumer: &str) -> Result<Worker, Fail> {
    let mut settings = Settings::new(
        String::from_str(alloc, "k")?,
        String::from_str(alloc, "g")?,
        String::from_str(alloc, consumer)?,
    )?;
    settings.set_make_group(MakeGroup::FromTheFirst);
    Ok(Worker::new(alloc, settings))
}

/// Decodes bytes as a reply.
fn reply_of(alloc: Global, bytes: &[u8]) -> Result<Reply, Fail> {
    match decode(alloc, bytes, Limits::default())? {
        Decoded::Complete { reply, .. } => Ok(reply),
        Decoded::Incomplete => Err("no whole reply".into()),
    }
}

/// Runs the command of this line. Returns the bytes of its reply.
fn run_command(
    alloc: Global,
    server: &mut Server,
    session: &mut Session,
    line: &str,
) -> Result<String, Fail> {
    let mut words = Vec::new(alloc);
    for word in line.split(' ') {
        words.push(Vec::from_slice(alloc, word.as_bytes())?)?;
    }
    let reply = server.step(alloc, 0, session, words)?;
    let mut bytes = Vec::new(alloc);
    append_reply(alloc, &mut bytes, session.protocol, &reply)?;
    Ok(String::from_utf8(bytes)?)
}

#[test]
fn my_worker_takes_each_entry(rt: HostRuntime) -> Result<(), Fail> {
    let alloc = rt.alloc();
    let mut server = Server::new(alloc);
    let mut session = Session::new(alloc, Protocol::Resp2);
    for line in ["XADD k 1-1 item tea", "XADD k 2-1 item cup"] {
        let _id = run_command(alloc, &mut server, &mut session, line)?;
    }
    let mut worker = worker_of(alloc, "ann")?;
    let mut handler = Count { done: 0 };
    for now in 0..8u64 {
        let mut question = Vec::new(alloc);
        worker.request(alloc, &mut question, &mut handler)?;
        let Some(command) = command_words(alloc, reply_of(alloc, &question)?)? else {
            return Err("no command".into());
        };
        let reply = server.step(alloc, now, &mut session, command)?;
        let mut answer = Vec::new(alloc);
        append_reply(alloc, &mut answer, session.protocol, &reply)?;
        let limits = Limits::default();
        let _progress = worker.answered_in_place(alloc, &answer, limits, &mut handler)?;
    }
    check_same(&rt, handler.done, 2);
    let pending = run_command(alloc, &mut server, &mut session, "XPENDING k g")?;
    check_same(&rt, pending.as_str(), "*4\r\n:0\r\n$-1\r\n$-1\r\n*-1\r\n");
    Ok(())
}

/// Returns why settings with these names are refused, or `None` if they are made.
fn check_names(
    alloc: Global,
    key: &str,
    group: &str,
    consumer: &str,
) -> Result<Option<SettingsError>, AllocError> {
    let key = String::from_str(alloc, key)?;
    let group = String::from_str(alloc, group)?;
    let consumer = String::from_str(alloc, consumer)?;
    Ok(Settings::new(key, group, consumer).err())
}

#[test]
fn empty_names_are_refused(rt: HostRuntime) -> Result<(), Fail> {
    let alloc = rt.alloc();
    check_same(&rt, check_names(alloc, "k", "g", "ann")?, None);
    check_same(
        &rt,
        check_names(alloc, "", "", "")?,
        Some(SettingsError::NoKey),
    );
    check_same(
        &rt,
        check_names(alloc, "k", "", "")?,
        Some(SettingsError::NoGroup),
    );
    check_same(
        &rt,
        check_names(alloc, "k", "g", "")?,
        Some(SettingsError::NoConsumer),
    );
    Ok(())
}

#[test]
fn a_count_is_from_1_to_10000(rt: HostRuntime) -> Result<(), Fail> {
    let alloc = rt.alloc();
    let name = String::from_str(alloc, "k")?;
    let mut settings = Settings::new(name.clone()?, name.clone()?, name)?;
    check_same(&rt, settings.set_count(0), Err(SettingsError::NoCount));
    check_same(&rt, settings.set_count(1), Ok(()));
    check_same(&rt, settings.set_count(10_000), Ok(()));
    check_same(
        &rt,
        settings.set_count(10_001),
        Err(SettingsError::LargeCount),
    );
    Ok(())
}
