ghost use Rattle.std.specs.Prelude.{◌≡◌, codes, negsuc, pos};
ghost use Rattle.lw_base.specs.Errors.{code_of, word_of};

/// The codes of lwIP's `err_t`, in the order of their numbers.
#[derive(Clone, Copy, Debug, PartialEq, Eq)]
pub enum Err {
    Ok,
    Mem,
    Buf,
    Timeout,
    Rte,
    InProgress,
    Val,
    WouldBlock,
    Use,
    Already,
    IsConn,
    Conn,
    If,
    Abrt,
    Rst,
    Clsd,
    Arg,
}

impl Err {
    /// The number of lwIP's `err_t`, 0 down to -16.
    pub fn code(self) -> i8
        ensures { result ≡ code_of self }
    {
        match self {
            Err::Ok => 0,
            Err::Mem => -1,
            Err::Buf => -2,
            Err::Timeout => -3,
            Err::Rte => -4,
            Err::InProgress => -5,
            Err::Val => -6,
            Err::WouldBlock => -7,
            Err::Use => -8,
            Err::Already => -9,
            Err::IsConn => -10,
            Err::Conn => -11,
            Err::If => -12,
            Err::Abrt => -13,
            Err::Rst => -14,
            Err::Clsd => -15,
            Err::Arg => -16,
        }
    }

    /// The word that stands for this code in a transcript.
    pub fn word(self) -> &'static str
        ensures { result.now ≡ word_of self }
    {
        match self {
            Err::Ok => "OK",
            Err::Mem => "MEM",
            Err::Buf => "BUF",
            Err::Timeout => "TIMEOUT",
            Err::Rte => "RTE",
            Err::InProgress => "INPROGRESS",
            Err::Val => "VAL",
            Err::WouldBlock => "WOULDBLOCK",
            Err::Use => "USE",
            Err::Already => "ALREADY",
            Err::IsConn => "ISCONN",
            Err::Conn => "CONN",
            Err::If => "IF",
            Err::Abrt => "ABRT",
            Err::Rst => "RST",
            Err::Clsd => "CLSD",
            Err::Arg => "ARG",
        }
    }
}
