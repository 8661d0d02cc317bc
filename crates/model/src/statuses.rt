// How far a transaction is, as a whole and at each machine.
ghost use Rattle.std.specs.Prelude.{◌≡◌};
ghost use Rattle.model.specs.Statuses.{is_absent, is_undecided, is_committed, is_aborted, is_none, is_pending, is_promised, is_dropped, is_holding};
ghost use Rattle.model.specs.Turns.{status_after};

// A transaction is in use unless it is absent, and undecided while it is pending. The words are the protocol's, `Absent`
// among them, so it is no `Option`.
#[derive(Clone, Copy, PartialEq, Eq, Debug)]
pub enum Standing {
    Absent,
    Pending,
    Committed,
    Aborted,
}

// The status of a transaction at one machine, `None` being one of the protocol's five. It holds its objects there while it is pending or promised.
#[derive(Clone, Copy, PartialEq, Eq, Debug)]
pub enum Status {
    None,
    Pending,
    Promised,
    Applied,
    Dropped,
}

// What an accepted call does to a transaction at one machine: at its coordinator for an issue, a commit and an abort.
#[derive(Clone, Copy, PartialEq, Eq, Debug)]
pub enum Turn {
    Issue,
    Begin,
    Promise,
    Decline,
    Commit,
    Abort,
    Apply,
    Drop,
    Up,
}

// The tests of one variant stay beside the derived `==`: each is a question with a name and a contract of its own.
impl Standing {
    pub fn is_absent(self) -> bool
        ensures { result ≡ is_absent self }
    {
        matches!(self, Standing::Absent)
    }

    // Whether the transaction is pending as a whole: neither committed nor aborted yet.
    pub fn is_undecided(self) -> bool
        ensures { result ≡ is_undecided self }
    {
        matches!(self, Standing::Pending)
    }

    pub fn is_committed(self) -> bool
        ensures { result ≡ is_committed self }
    {
        matches!(self, Standing::Committed)
    }

    pub fn is_aborted(self) -> bool
        ensures { result ≡ is_aborted self }
    {
        matches!(self, Standing::Aborted)
    }
}

impl Status {
    pub fn is_none(self) -> bool
        ensures { result ≡ is_none self }
    {
        matches!(self, Status::None)
    }

    pub fn is_pending(self) -> bool
        ensures { result ≡ is_pending self }
    {
        matches!(self, Status::Pending)
    }

    pub fn is_dropped(self) -> bool
        ensures { result ≡ is_dropped self }
    {
        matches!(self, Status::Dropped)
    }

    // Whether a transaction of this status holds its objects.
    pub fn is_holding(self) -> bool
        ensures { result ≡ is_holding self }
    {
        matches!(self, Status::Pending | Status::Promised)
    }

    // Whether the machine has promised to carry the order out.
    pub fn is_promised(self) -> bool
        ensures { result ≡ is_promised self }
    {
        matches!(self, Status::Promised)
    }

    // A status moves by the status that it has and the turn together. Any other pair leaves it.
    pub fn on(&mut self, turn: Turn)
        ensures { self.new ≡ status_after turn self.old }
    {
        *self = match (*self, turn) {
            (Status::None, Turn::Issue) => Status::Promised,
            (Status::None, Turn::Begin) => Status::Pending,
            (Status::Pending, Turn::Promise) => Status::Promised,
            (Status::Pending, Turn::Decline | Turn::Drop | Turn::Up) => Status::Dropped,
            (Status::Promised, Turn::Apply) => Status::Applied,
            (Status::Promised, Turn::Drop) => Status::Dropped,
            (_, Turn::Commit) => Status::Applied,
            (_, Turn::Abort) => Status::Dropped,
            (status, _) => status,
        };
    }
}
