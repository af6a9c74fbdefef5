ghost use Rattle.std.specs.Prelude.{◌≡◌, ◌<◌, length};
ghost use Rattle.lw_api_msg.specs.Endpoints.{closefd, openfd, setfd, setvar, signalled};

use crate::Endpoints;
use lw_base::Err;
use lw_conn::Variable;
use lw_events::{FdOption, Handle, Proto, Reply};

impl Endpoints {
    /// Opens a descriptor for a connection.
    pub fn open_fd(&mut self, conn: u32) -> Reply
        ensures { (result, self.new) ≡ openfd self.old conn }
    {
        let Some(connection) = self.conns.get(conn) else {
            return Reply::Fail(Err::Conn);
        };
        let udp = connection.proto == Proto::Udp;
        let Some(fd) = self.fds.lowest_free() else {
            return Reply::Fail(Err::Mem);
        };
        self.fds.open(fd, conn, udp);
        Reply::Fd(fd)
    }

    /// Tells a descriptor whether to wait, or how long.
    pub fn set_fd(&mut self, fd: u32, option: FdOption) -> Reply
        ensures { (result, self.new) ≡ setfd self.old fd option }
    {
        if self.fds.get(fd).is_none() {
            return Reply::Fail(Err::Conn);
        }
        self.fds.set(fd, option);
        Reply::Done
    }

    /// Frees a descriptor, and answers its connection.
    pub fn close_fd(&mut self, fd: u32) -> Reply
        ensures { (result, self.new) ≡ closefd self.old fd }
    {
        let Some(descriptor) = self.fds.get(fd) else {
            return Reply::Fail(Err::Conn);
        };
        let conn = descriptor.conn;
        self.fds.close(fd);
        Reply::Conn(conn)
    }

    /// A variable is to name a live connection, or a descriptor.
    pub fn set_var(&mut self, var: u32, handle: Handle) -> Reply
        requires there { var < length self.old.vars }
        ensures { (result, self.new) ≡ setvar self.old var handle }
    {
        let udp = match handle {
            Handle::Fd(_) => false,
            Handle::Conn(conn) => match self.conns.get(conn) {
                None => return Reply::Fail(Err::Conn),
                Some(connection) => connection.proto == Proto::Udp,
            },
        };
        self.vars.set(var, Variable { handle, udp });
        Reply::Done
    }

    /// A signal comes, and is counted.
    pub fn signal(&mut self, signal: u32) -> Reply
        requires there { signal < 16 }
        ensures { (result, self.new) ≡ signalled self.old signal }
    {
        self.signals.raise(signal);
        Reply::Count(self.signals.count(signal))
    }
}
