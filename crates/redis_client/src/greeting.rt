//! The first commands on a new connection.
ghost use Rattle.std.specs.Prelude.{◌∷◌, [], IfErr, OnOk};
ghost use Rattle.redis_client.specs.AddressMeaning.{meaning_of};
ghost use Rattle.redis_client.specs.Asked.{AsksEach, BreaksOff};
ghost use Rattle.redis_client.specs.Greeting.{greeting, hello, login, naming, selection};

use crate::address::{Address, Protocol};
use redis_connection::{AskError, Connection};
use redis_resp::{ToRedisArgs, Value};
use std::alloc::Global;
use std::io::{Read, Write};

/// Sends the first commands of a new connection: `HELLO 3` with the login and the name, or `AUTH` and
/// `CLIENT SETNAME`; then `SELECT`, if the database is not 0. It stops at an error of the server.
pub fn greet<R: Read + Drop, W: Write + Drop>(
    alloc: Global,
    connection: &mut Connection<R, W>,
    address: &Address,
) -> Result<(), AskError>
    ensures ok { OnOk result (AsksEach connection.old connection.new (greeting (meaning_of address.now))) }
    ensures err { IfErr result (BreaksOff connection.old connection.new (greeting (meaning_of address.now))) }
{
    match address.protocol {
        Protocol::Resp3 => ask_hello(alloc, connection, address)?,
        Protocol::Resp2 => {
            ask_login(alloc, connection, address)?;
            ask_name(alloc, connection, address)?;
        }
    }
    ask_database(alloc, connection, address)
}

/// Sends one command. Any reply but an error will do.
fn ask<R: Read + Drop, W: Write + Drop, T: ToRedisArgs>(
    alloc: Global,
    connection: &mut Connection<R, W>,
    command: &T,
) -> Result<(), AskError>
    ensures ok { OnOk result (AsksEach connection.old connection.new (T.args command.now ∷ [])) }
    ensures err { IfErr result (BreaksOff connection.old connection.new (T.args command.now ∷ [])) }
{
    let _answer: Value = connection.ask_as(alloc, command)?;
    Ok(())
}

/// `HELLO 3`, with the login and the name.
fn ask_hello<R: Read + Drop, W: Write + Drop>(
    alloc: Global,
    connection: &mut Connection<R, W>,
    address: &Address,
) -> Result<(), AskError>
    ensures ok { OnOk result (AsksEach connection.old connection.new (hello (meaning_of address.now) ∷ [])) }
    ensures err { IfErr result (BreaksOff connection.old connection.new (hello (meaning_of address.now) ∷ [])) }
{
    let login = match &address.login {
        Some(login) => Some(("AUTH", login.user_or_default(), &login.password)),
        None => None,
    };
    let name = match &address.name {
        Some(name) => Some(("SETNAME", name)),
        None => None,
    };
    ask(alloc, connection, &("HELLO", 3usize, login, name))
}

/// `AUTH`, if there are credentials.
fn ask_login<R: Read + Drop, W: Write + Drop>(
    alloc: Global,
    connection: &mut Connection<R, W>,
    address: &Address,
) -> Result<(), AskError>
    ensures ok { OnOk result (AsksEach connection.old connection.new (login (meaning_of address.now).login)) }
    ensures err { IfErr result (BreaksOff connection.old connection.new (login (meaning_of address.now).login)) }
{
    let Some(login) = &address.login else {
        return Ok(());
    };
    if login.user.is_empty() {
        return ask(alloc, connection, &("AUTH", &login.password));
    }
    ask(alloc, connection, &("AUTH", &login.user, &login.password))
}

/// `CLIENT SETNAME`, if the connection has a name.
fn ask_name<R: Read + Drop, W: Write + Drop>(
    alloc: Global,
    connection: &mut Connection<R, W>,
    address: &Address,
) -> Result<(), AskError>
    ensures ok { OnOk result (AsksEach connection.old connection.new (naming (meaning_of address.now).name)) }
    ensures err { IfErr result (BreaksOff connection.old connection.new (naming (meaning_of address.now).name)) }
{
    let Some(name) = &address.name else {
        return Ok(());
    };
    ask(alloc, connection, &("CLIENT", "SETNAME", name))
}

/// `SELECT`, if the database is not 0.
fn ask_database<R: Read + Drop, W: Write + Drop>(
    alloc: Global,
    connection: &mut Connection<R, W>,
    address: &Address,
) -> Result<(), AskError>
    ensures ok { OnOk result (AsksEach connection.old connection.new (selection address.now.database)) }
    ensures err { IfErr result (BreaksOff connection.old connection.new (selection address.now.database)) }
{
    if address.database == 0 {
        return Ok(());
    }
    ask(alloc, connection, &("SELECT", address.database))
}
