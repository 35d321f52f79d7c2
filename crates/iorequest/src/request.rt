//! One timer request, and what comes of beginning it.
ghost use Rattle.std.specs.Prelude.{◌≡◌, ◌+◌, ◌<◌, ◌^◌};
ghost use Rattle.iorequest.specs.Request.{idle_request, is_under_way, is_opened, is_until, is_to_wait, time_of, in_progress, outcome};

/// TR_ADDREQUEST: a reply once a time is over.
const TR_ADDREQUEST: u16 = 9;

/// TR_GETSYSTIME: system time is reported.
const TR_GETSYSTIME: u16 = 10;

/// TR_SETSYSTIME: system time is set.
const TR_SETSYSTIME: u16 = 11;

/// UNIT_WAITUNTIL: the unit whose requests name a system time.
pub const UNIT_WAITUNTIL: u32 = 3;

/// IOERR_NOCMD: the device does not know the command.
const IOERR_NOCMD: i8 = -3;

/// The microseconds of a second.
const SECOND: u64 = 1_000_000;

/// How far a request has come. RKM Devices, Introduction to Amiga System Devices; that an idle one is distinguished:
/// project rule.
#[derive(Clone, Copy, Debug)]
pub enum ReqState {
    /// It was never begun.
    Idle,
    /// It was begun, and is not finished.
    UnderWay,
    /// It was finished at once, without a reply.
    Quick,
    /// It was finished, and replied.
    Replied,
}

/// A timer request. RKM Devices, Timer Device: `timerequest`; Introduction to Amiga System Devices: `IORequest`.
#[derive(Clone, Copy, Debug)]
pub struct Request {
    /// Its reply port, as the caller names it.
    pub port: u32,
    pub state: ReqState,
    /// The unit that it is open for, or none.
    pub unit: Option<u32>,
    pub command: u16,
    /// The time field, in seconds and microseconds.
    pub secs: u32,
    pub micros: u32,
    /// 0, or why it failed.
    pub error: i8,
    /// IOF_QUICK (bit 0) of its flags.
    pub quick: bool,
}

/// What comes of beginning a request. Whoever keeps the requests has to do it.
#[derive(Clone, Copy)]
pub enum Begun {
    /// It is to be finished at once, with this error.
    Finish(i8),
    /// It is due at that time, in microseconds of the clock.
    Queue(u64),
    /// It is due when system time comes to that, in microseconds.
    Until(u64),
    /// System time becomes that, in microseconds, and the request is to be finished at once, with error 0.
    NewTime(u64),
}

impl Request {
    /// A request that never was begun, with that reply port: it is not open, and every other field is 0.
    ///
    /// Source: autodoc exec.library/CreateIORequest.
    pub fn idle(port: u32) -> Request
        ensures { result ≡ idle_request port }
    {
        Request {
            port,
            state: ReqState::Idle,
            unit: None,
            command: 0,
            secs: 0,
            micros: 0,
            error: 0,
            quick: false,
        }
    }

    /// Whether it was begun and is not finished.
    ///
    /// Source: autodoc exec.library/CheckIO.
    pub fn is_under_way(self) -> bool
        ensures { result ≡ is_under_way self }
    {
        match self.state {
            ReqState::UnderWay => true,
            _ => false,
        }
    }

    /// Whether it is open.
    ///
    /// Source: autodoc exec.library/OpenDevice.
    pub fn is_open(self) -> bool
        ensures { result ≡ is_opened self }
    {
        self.unit.is_some()
    }

    /// Its time in microseconds.
    ///
    /// Source: RKM Devices, timer device: `tr_time`.
    pub fn time(self) -> u64
        ensures { result ≡ time_of self }
    {
        u64::from(self.secs) * SECOND + u64::from(self.micros)
    }

    /// Whether its time is a system time: whether it is open for UNIT_WAITUNTIL.
    ///
    /// Source: RKM Devices, timer device: UNIT_WAITUNTIL.
    pub fn is_until(self) -> bool
        ensures { result ≡ is_until self }
    {
        match self.unit {
            None => false,
            Some(unit) => unit == UNIT_WAITUNTIL,
        }
    }

    /// Whether it is to wait that begins at system time `sys`, in microseconds.
    ///
    /// Source: RKM Devices, timer device: TR_ADDREQUEST and UNIT_WAITUNTIL.
    pub fn is_to_wait(self, sys: u64) -> bool
        ensures { result ≡ is_to_wait sys self }
    {
        if self.command != TR_ADDREQUEST {
            false
        } else if self.is_until() {
            sys < self.time()
        } else {
            self.time() != 0
        }
    }

    /// What comes of beginning it when the clock reports `now` and system time is `sys`, both in microseconds.
    ///
    /// Source: RKM Devices, timer device: TR_ADDREQUEST, TR_GETSYSTIME and TR_SETSYSTIME.
    pub fn outcome(self, now: u64, sys: u64) -> Begun
        requires { now + time_of self < 2 ^ 64 }
        ensures { result ≡ outcome now sys self }
    {
        if self.command == TR_SETSYSTIME {
            Begun::NewTime(self.time())
        } else if self.is_to_wait(sys) {
            if self.is_until() {
                Begun::Until(self.time())
            } else {
                Begun::Queue(now + self.time())
            }
        } else if self.command == TR_ADDREQUEST || self.command == TR_GETSYSTIME {
            Begun::Finish(0)
        } else {
            Begun::Finish(IOERR_NOCMD)
        }
    }

    /// The request as it is in progress, begun at system time `sys`, in microseconds, with that quick bit.
    ///
    /// Source: RKM Devices, Introduction to Amiga System Devices: IOF_QUICK.
    pub fn begun(self, quick: bool, sys: u64) -> Request
        ensures { result ≡ in_progress quick sys self }
    {
        let mut next = self;
        next.state = ReqState::UnderWay;
        next.error = 0;
        next.quick = quick;
        if self.is_to_wait(sys) {
            next.quick = false;
        }
        if self.command == TR_GETSYSTIME {
            next.secs = (sys / SECOND % 0x1_0000_0000) as u32;
            next.micros = (sys % SECOND) as u32;
        }
        next
    }
}
