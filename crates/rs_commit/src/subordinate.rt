//! The state of one part of a transaction in its commit.

ghost use Rattle.std.specs.Prelude.{◌≡◌};
ghost use Rattle.rs_commit.specs.Subordinate as spec;

/// The answer of a part to Prepare: it forces its record and votes, it votes again, or it is gone.
#[derive(Clone, Copy)]
pub enum Prep {
    Force,
    Again,
    Gone,
}

/// The answer of a part to Commit: it forces its record and acknowledges, it acknowledges again, or nothing is to be
/// committed.
#[derive(Clone, Copy)]
pub enum Com {
    Force,
    Again,
    Nothing,
}

/// The answer of a part to Abort: it notes it in its log and releases, it releases, or nothing is to be aborted.
#[derive(Clone, Copy)]
pub enum Abo {
    Note,
    Release,
    Nothing,
}

/// The state of one part of a transaction: at first working.
#[derive(Clone, Copy)]
pub enum Subordinate {
    Working,
    Prepared,
    Committed,
    Aborted,
}

impl Subordinate {
    /// Makes a part that is working.
    pub fn new() -> Subordinate
        ensures { result ≡ spec.working }
    {
        Subordinate::Working
    }

    /// Returns whether the part is prepared: it may neither commit nor abort by itself.
    pub fn is_prepared(&self) -> bool
        ensures { result ≡ spec.is_prepared self.now }
    {
        matches!(self, Subordinate::Prepared)
    }

    /// Prepares a working part. `Force` exactly if it was working, `Again` exactly if it was prepared.
    pub fn prepare(&mut self) -> Prep
        ensures answer { result ≡ spec.prepare_answer self.old }
        ensures state { self.new ≡ spec.after_prepare self.old }
    {
        match *self {
            Subordinate::Working => {
                *self = Subordinate::Prepared;
                Prep::Force
            }
            Subordinate::Prepared => Prep::Again,
            Subordinate::Committed | Subordinate::Aborted => Prep::Gone,
        }
    }

    /// Commits a prepared part. `Force` exactly if it was prepared, `Again` exactly if it was committed.
    pub fn commit(&mut self) -> Com
        ensures answer { result ≡ spec.commit_answer self.old }
        ensures state { self.new ≡ spec.after_commit self.old }
    {
        match *self {
            Subordinate::Prepared => {
                *self = Subordinate::Committed;
                Com::Force
            }
            Subordinate::Committed => Com::Again,
            Subordinate::Working | Subordinate::Aborted => Com::Nothing,
        }
    }

    /// Aborts a working or prepared part. `Release` exactly if it was working, `Note` exactly if it was prepared.
    pub fn abort(&mut self) -> Abo
        ensures answer { result ≡ spec.abort_answer self.old }
        ensures state { self.new ≡ spec.after_abort self.old }
    {
        match *self {
            Subordinate::Working => {
                *self = Subordinate::Aborted;
                Abo::Release
            }
            Subordinate::Prepared => {
                *self = Subordinate::Aborted;
                Abo::Note
            }
            Subordinate::Committed | Subordinate::Aborted => Abo::Nothing,
        }
    }
}
