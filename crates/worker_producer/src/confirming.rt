//! WAIT after what a producer sent.
ghost use Rattle.std.specs.Prelude.{◌≡◌, IfErr, OnErr, OnOk};
ghost use Rattle.redis_connection.specs.Wait.{IsConfirmed, IsUnconfirmed};
ghost use Rattle.worker_producer.specs.Machine.{idle, standing_of};

use crate::producer::Producer;
use redis_connection::{ConfirmError, Connection, Wait, confirm};
use std::alloc::Global;
use std::io::{Read, Write};

impl Producer {
    /// Sends WAIT as `confirm` does. After an `Err` the producer is disconnected.
    pub(crate) fn confirm<R: Read + Drop, W: Write + Drop>(
        &mut self,
        alloc: Global,
        connection: &mut Connection<R, W>,
        wait: &Wait,
    ) -> Result<(), ConfirmError>
        ensures ok { OnOk result (IsConfirmed wait.now connection.old connection.new) }
        ensures err { IfErr result (IsUnconfirmed wait.now connection.old connection.new) }
        ensures kept { OnOk result (self.new ≡ self.old) }
        ensures err_standing { OnErr result (standing_of self.new ≡ idle) }
        ensures settings { self.new.settings ≡ self.old.settings }
    {
        match confirm(alloc, connection, wait) {
            Ok(()) => Ok(()),
            Err(error) => {
                self.disconnected();
                Err(error)
            }
        }
    }
}
